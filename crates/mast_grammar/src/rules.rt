//! The rules of the parser, which one terminal tells apart, and the parts that their alternatives are made of.
use crate::Terminal;

/// A rule of the parser.
#[derive(Clone, Copy, Debug)]
pub(crate) enum Rule {
    Line,
    Body,
    SetTerm,
    SetWord,
    Term,
    MetFactor,
    Factor,
    Select,
    Distinct,
    Item,
    NextItem,
    Output,
    Column,
    ColumnName,
    Name,
    Entry,
    NextEntry,
    As,
    Where,
    Cond,
    OrConj,
    Conj,
    AndNeg,
    Neg,
    Comparison,
    Operand,
    OperandRest,
    Values,
    NextValue,
    Value,
    Sparql,
    Var,
    WhereWord,
    Group,
    GroupRest,
    NextBlock,
    Block,
    MoreBlock,
    Triples,
    Property,
    NextProperty,
    Class,
    NextClass,
    Verb,
    Object,
    NextObject,
    Datatype,
    Semicolon,
}

/// A part of an alternative: a terminal, a rule, a rule that may be left out, or a rule any number of times.
#[derive(Clone, Copy, Debug)]
pub(crate) enum Part {
    One(Terminal),
    The(Rule),
    Maybe(Rule),
    Many(Rule),
}
