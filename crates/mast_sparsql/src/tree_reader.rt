//! The tree of a query.
ghost use Rattle.std.specs.Prelude.{◌<◌, length, IfOk};
ghost use Rattle.mast_terms.specs.Answers.{Answers};
ghost use Rattle.mast_sparsql.specs.Held.{tree_of, IsRead};
ghost use Rattle.mast_sparsql.specs.Passes.{IsEarlyBreach};
ghost use Rattle.mast_sparsql.specs.Trees.{IsTree};

use crate::cursor::Cursor;
use crate::parts::DEPTH;
use crate::terminals::terminals_of;
use crate::tree::Tree;
use crate::{QueryBreach, query_tokens};
use mast_grammar::Terminal;
use mast_sql::SqlToken;
use mast_terms::{List, NoMemory, Stop};
use std::alloc::Global;

// The tree that terminals are written as.
#[tactic(auto, using(crate::proofs::TreeLemmas::is_tree))]
fn read_tree(alloc: Global, terminals: &[Terminal]) -> Result<Tree, NoMemory>
    ensures { IfOk result (λ held. IsTree terminals.now (tree_of held)) }
{
    let mut cursor = Cursor::new(terminals);
    let lines = cursor.lines(alloc)?;
    let body = cursor.body(alloc, DEPTH)?;
    let semicolon = cursor.may(Terminal::Semicolon)?;
    if cursor.left() > 0 {
        return Err(NoMemory);
    }
    Ok(Tree {
        lines,
        body,
        semicolon,
    })
}

/// The tokens of a query and their tree, or the first breach of the first two passes.
#[tactic(auto, using(crate::proofs::TreeLemmas::is_read))]
pub fn query_tree(alloc: Global, source: &[u8]) -> Result<(List<SqlToken>, Tree), Stop<QueryBreach>>
    requires size { length source.now < 4294967295 }
    ensures { Answers result (λ read. IsRead source.now read.0 read.1) (IsEarlyBreach source.now) }
{
    let tokens = query_tokens(alloc, source)?;
    let terminals = terminals_of(alloc, source, tokens.as_slice())?;
    let tree = read_tree(alloc, terminals.as_slice())?;
    Ok((tokens, tree))
}
