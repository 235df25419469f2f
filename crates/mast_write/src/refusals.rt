//! Why a run has no answer: each refusal, limit and read fault, and its line.
ghost use Rattle.std.specs.Prelude.{◌≡◌, IfOk};
ghost use Rattle.mast_write.specs.RefusalLines.{event_kind, refusal_line};
ghost use Rattle.mast_write.specs.inside.Kinds.{TellsOfQuery, TellsOfRows, TellsOfShape, TellsOfTree};

use crate::document_lines::{
    doc_bytes, lex_line, restriction_line, shape_line, tree_line, violation_closure,
};
use crate::file_lines::{
    block_closure, query_bytes, query_line, read_fault, row_line, table_bytes,
};
use mast_sparsql::{QueryBreach, QueryKind};
use mast_tables::{RowBreach, RowKind};
use mast_tbox::RestrictionBreach;
use mast_terms::{NoMemory, Text};
use mast_tree::{DocName, LexBreach, ShapeBreach, ShapeKind, TreeBreach, TreeKind};
use std::alloc::Global;

/// Why a run has no answer: the first refusal, limit or read fault in its order.
#[derive(Debug, Drop)]
pub enum Refusal {
    /// A document is no list of tokens.
    Lex {
        doc: DocName,
        breach: LexBreach,
    },
    /// A document's tokens are no tree, or nest too deep.
    Tree {
        doc: DocName,
        breach: TreeBreach,
    },
    /// A document's tree breaks a rule, or is above a limit.
    Shape {
        doc: DocName,
        breach: ShapeBreach,
    },
    /// The specification breaks a restriction.
    Restriction {
        breach: RestrictionBreach,
    },
    /// A query file is no query, or is above a limit.
    Query {
        file: Text,
        breach: QueryBreach,
    },
    /// A table file has no rows of its declaration, or too many.
    Table {
        table: Text,
        breach: RowBreach,
    },
    /// A document has too many bytes.
    DocBytes {
        doc: DocName,
    },
    /// A query file has too many bytes.
    QueryBytes {
        file: Text,
    },
    /// The table files up to this one have too many bytes together.
    TableBytes {
        table: Text,
    },
    /// There are too many violation queries.
    Violations,
    /// The closure of the violation query of this line is too large.
    ViolationClosure {
        doc: DocName,
        line: u32,
    },
    /// The closure of this block is too large.
    BlockClosure {
        file: Text,
        table: usize,
        block: usize,
    },
    /// A call on this file failed.
    ReadFault {
        file: Text,
    },
}

/// What a line tells of. Each goes with a status of its own.
#[derive(Clone, Copy, Debug, PartialEq, Eq)]
pub enum EventKind {
    /// A breach: the line begins with `refused`.
    Refused,
    /// A counted quantity above its number: the line begins with `limit`.
    Limit,
    /// A call on a file that failed: the line begins with `read fault`.
    ReadFault,
}

impl Refusal {
    /// Whether it is a breach, a limit or a read fault.
    pub fn event_kind(&self) -> EventKind
        ensures { result ≡ event_kind self.now }
    {
        match self {
            Refusal::Lex { .. } => EventKind::Refused,
            Refusal::Tree { breach, .. } => tree_kind(breach.kind),
            Refusal::Shape { breach, .. } => shape_kind(breach.kind),
            Refusal::Restriction { .. } => EventKind::Refused,
            Refusal::Query { breach, .. } => query_kind(breach.kind),
            Refusal::Table { breach, .. } => row_kind(breach.kind),
            Refusal::DocBytes { .. } => EventKind::Limit,
            Refusal::QueryBytes { .. } => EventKind::Limit,
            Refusal::TableBytes { .. } => EventKind::Limit,
            Refusal::Violations => EventKind::Limit,
            Refusal::ViolationClosure { .. } => EventKind::Limit,
            Refusal::BlockClosure { .. } => EventKind::Limit,
            Refusal::ReadFault { .. } => EventKind::ReadFault,
        }
    }
}

fn tree_kind(kind: TreeKind) -> EventKind
    ensures { TellsOfTree kind result }
{
    match kind {
        TreeKind::Unexpected => EventKind::Refused,
        TreeKind::Deep => EventKind::Limit,
    }
}

fn shape_kind(kind: ShapeKind) -> EventKind
    ensures { TellsOfShape kind result }
{
    match kind {
        ShapeKind::Shape => EventKind::Refused,
        ShapeKind::UnknownPrefix => EventKind::Refused,
        ShapeKind::TwoKinds => EventKind::Refused,
        ShapeKind::Datatype => EventKind::Refused,
        ShapeKind::NotDlLite => EventKind::Refused,
        ShapeKind::AssertionHere => EventKind::Refused,
        ShapeKind::TopOnLeft => EventKind::Refused,
        ShapeKind::BadConstant => EventKind::Refused,
        ShapeKind::SortClash => EventKind::Refused,
        ShapeKind::DoubleName => EventKind::Refused,
        ShapeKind::UnknownTable => EventKind::Refused,
        ShapeKind::UnknownColumn => EventKind::Refused,
        ShapeKind::KindClash => EventKind::Refused,
        ShapeKind::Sql { .. } => EventKind::Refused,
        ShapeKind::Names => EventKind::Limit,
        ShapeKind::Items => EventKind::Limit,
        ShapeKind::Atoms => EventKind::Limit,
        ShapeKind::Aliases => EventKind::Limit,
    }
}

fn query_kind(kind: QueryKind) -> EventKind
    ensures { TellsOfQuery kind result }
{
    match kind {
        QueryKind::Lex => EventKind::Refused,
        QueryKind::Grammar => EventKind::Refused,
        QueryKind::UnknownName => EventKind::Refused,
        QueryKind::UnknownColumn => EventKind::Refused,
        QueryKind::DoubleName => EventKind::Refused,
        QueryKind::SortClash => EventKind::Refused,
        QueryKind::Width => EventKind::Refused,
        QueryKind::BadConstant => EventKind::Refused,
        QueryKind::Depth => EventKind::Limit,
        QueryKind::Operators => EventKind::Limit,
        QueryKind::Entries => EventKind::Limit,
        QueryKind::Disjuncts => EventKind::Limit,
        QueryKind::Atoms => EventKind::Limit,
        QueryKind::Names => EventKind::Limit,
    }
}

fn row_kind(kind: RowKind) -> EventKind
    ensures { TellsOfRows kind result }
{
    match kind {
        RowKind::Header => EventKind::Refused,
        RowKind::Rows => EventKind::Limit,
        RowKind::Width => EventKind::Refused,
        RowKind::NotUtf8 => EventKind::Refused,
        RowKind::Missing => EventKind::Refused,
        RowKind::BadInt => EventKind::Refused,
        RowKind::BadDate => EventKind::Refused,
    }
}

/// The line of a refusal, a limit or a read fault, with its line feed.
pub fn refusal_text(alloc: Global, refusal: &Refusal) -> Result<Vec<u8>, NoMemory>
    ensures { IfOk result (λ text. text.items ≡ refusal_line refusal.now) }
{
    match refusal {
        Refusal::Lex { doc, breach } => lex_line(alloc, *doc, *breach),
        Refusal::Tree { doc, breach } => tree_line(alloc, *doc, *breach),
        Refusal::Shape { doc, breach } => shape_line(alloc, *doc, *breach),
        Refusal::Restriction { breach } => restriction_line(alloc, *breach),
        Refusal::Query { file, breach } => query_line(alloc, file, *breach),
        Refusal::Table { table, breach } => row_line(alloc, table, *breach),
        Refusal::DocBytes { doc } => doc_bytes(alloc, *doc),
        Refusal::QueryBytes { file } => query_bytes(alloc, file),
        Refusal::TableBytes { table } => table_bytes(alloc, table),
        Refusal::Violations => Ok(b"limit violations\n".to_vec(alloc)?),
        Refusal::ViolationClosure { doc, line } => violation_closure(alloc, *doc, *line),
        Refusal::BlockClosure { file, table, block } => block_closure(alloc, file, *table, *block),
        Refusal::ReadFault { file } => read_fault(alloc, file),
    }
}
