//! The parts of a query as they are written, with tokens by their numbers.
use mast_grammar::Terminal;
use mast_terms::List;
use sqlite_items::Boxed;

/// A PREFIX line: its prefix and its IRI.
#[derive(Clone, Copy)]
pub struct Line {
    pub prefix: u32,
    pub iri: u32,
}

/// A column: a name, with an alias before it or none.
#[derive(Clone, Copy)]
pub struct Column {
    pub alias: Option<u32>,
    pub name: u32,
}

/// A column that goes out, with the name behind AS, or none.
#[derive(Clone, Copy)]
pub struct Item {
    pub column: Column,
    pub output: Option<u32>,
}

/// A value in a condition: an Integer, a Quoted, or the Quoted behind DATE.
#[derive(Clone, Copy)]
pub enum Constant {
    Integer(u32),
    Quoted(u32),
    Date(u32),
}

/// A side of a comparison: a column, a value, or an object with its symbol and its values.
#[derive(Drop)]
pub enum Operand {
    Column(Column),
    Value(Constant),
    Object(u32, List<Constant>),
}

/// What stands behind a verb other than `a`: a Var, an Integer, a Doubled alone, or a Doubled and its type.
#[derive(Clone, Copy)]
pub enum Object {
    Var(u32),
    Integer(u32),
    Text(u32),
    Typed(u32, u32),
}

/// `a` with its classes, or another verb with its objects.
#[derive(Drop)]
pub enum Property {
    Classes(List<u32>),
    Verb(u32, List<Object>),
}

/// A subject and its properties.
#[derive(Drop)]
pub struct Triples {
    pub subject: u32,
    pub properties: List<Property>,
}

/// A block, and whether a dot ends it.
#[derive(Drop)]
pub struct Block {
    pub triples: List<Triples>,
    pub dot: bool,
}

/// A `sparqltable`: whether DISTINCT and WHERE are written, its Vars, and its blocks, in braces of their own or not.
#[derive(Drop)]
pub struct Table {
    pub distinct: bool,
    pub variables: List<u32>,
    pub where_word: bool,
    pub braces: bool,
    pub blocks: List<Block>,
}

/// An entry of a FROM: its table, whether AS is written, and its alias.
#[derive(Drop)]
pub struct Entry {
    pub table: Table,
    pub as_word: bool,
    pub alias: u32,
}

/// A body or a condition.
#[derive(Drop)]
pub enum Part {
    /// A select: whether DISTINCT and WHERE are written, its items, its entries and its condition.
    Select {
        distinct: bool,
        items: List<Item>,
        entries: List<Entry>,
        where_word: bool,
        condition: Boxed<Part>,
    },
    /// Two bodies with a set operator between them.
    Set {
        operator: Terminal,
        at: u32,
        left: Boxed<Part>,
        right: Boxed<Part>,
    },
    /// A body or a condition in parentheses.
    Inner(Boxed<Part>),
    /// The condition of a select without WHERE.
    Always,
    /// A comparison by a sign.
    Compare {
        left: Operand,
        sign: Terminal,
        at: u32,
        right: Operand,
    },
    /// EXISTS and a body.
    Exists(Boxed<Part>),
    Not(Boxed<Part>),
    And(Boxed<Part>, Boxed<Part>),
    Or(Boxed<Part>, Boxed<Part>),
}

/// A query: its PREFIX lines, its body, and whether a semicolon ends it.
#[derive(Drop)]
pub struct Tree {
    pub lines: List<Line>,
    pub body: Part,
    pub semicolon: bool,
}
