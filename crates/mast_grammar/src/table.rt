//! The parse table: what is to come of each rule behind the terminal that begins it.
ghost use Rattle.std.specs.Prelude.{◌≡◌, IfOk, Some};
ghost use Rattle.mast_grammar.specs.inside.Machine as machine;
ghost use Rattle.mast_grammar.specs.inside.Machine.{Enters};

use crate::Terminal;
use crate::rules::{Part, Rule};
use crate::stack::Stack;
use mast_terms::NoMemory;

impl Stack {
    // Puts parts before the others, and tells that the terminal begins them.
    fn begin(&mut self, parts: &[Part]) -> Result<bool, NoMemory>
        ensures { IfOk result (λ begun. Enters (Some parts.now) self.old begun self.new) }
    {
        self.put(parts)?;
        Ok(true)
    }

    fn line(&mut self, terminal: Terminal) -> Result<bool, NoMemory>
        ensures { IfOk result (λ begun. Enters (machine.enter Rule.Line terminal) self.old begun self.new) }
    {
        match terminal {
            Terminal::Prefix => self.begin(&[
                Part::One(Terminal::NewPrefix),
                Part::One(Terminal::Iri),
            ]),
            _ => Ok(false),
        }
    }

    fn body(&mut self, terminal: Terminal) -> Result<bool, NoMemory>
        ensures { IfOk result (λ begun. Enters (machine.enter Rule.Body terminal) self.old begun self.new) }
    {
        match terminal {
            Terminal::Select => self.begin(&[
                Part::Maybe(Rule::Distinct),
                Part::The(Rule::Item),
                Part::Many(Rule::NextItem),
                Part::One(Terminal::From),
                Part::The(Rule::Entry),
                Part::Many(Rule::NextEntry),
                Part::Maybe(Rule::Where),
                Part::Many(Rule::MetFactor),
                Part::Many(Rule::SetTerm),
            ]),
            Terminal::Open => self.begin(&[
                Part::The(Rule::Body),
                Part::One(Terminal::Close),
                Part::Many(Rule::MetFactor),
                Part::Many(Rule::SetTerm),
            ]),
            _ => Ok(false),
        }
    }

    fn set_term(&mut self, terminal: Terminal) -> Result<bool, NoMemory>
        ensures { IfOk result (λ begun. Enters (machine.enter Rule.SetTerm terminal) self.old begun self.new) }
    {
        match terminal {
            Terminal::Union | Terminal::Except => self.begin(&[Part::The(Rule::Term)]),
            _ => Ok(false),
        }
    }

    fn set_word(&mut self, terminal: Terminal) -> Result<bool, NoMemory>
        ensures { IfOk result (λ begun. Enters (machine.enter Rule.SetWord terminal) self.old begun self.new) }
    {
        match terminal {
            Terminal::Union | Terminal::Except => self.begin(&[]),
            _ => Ok(false),
        }
    }

    fn term(&mut self, terminal: Terminal) -> Result<bool, NoMemory>
        ensures { IfOk result (λ begun. Enters (machine.enter Rule.Term terminal) self.old begun self.new) }
    {
        match terminal {
            Terminal::Select => self.begin(&[
                Part::Maybe(Rule::Distinct),
                Part::The(Rule::Item),
                Part::Many(Rule::NextItem),
                Part::One(Terminal::From),
                Part::The(Rule::Entry),
                Part::Many(Rule::NextEntry),
                Part::Maybe(Rule::Where),
                Part::Many(Rule::MetFactor),
            ]),
            Terminal::Open => self.begin(&[
                Part::The(Rule::Body),
                Part::One(Terminal::Close),
                Part::Many(Rule::MetFactor),
            ]),
            _ => Ok(false),
        }
    }

    fn met_factor(&mut self, terminal: Terminal) -> Result<bool, NoMemory>
        ensures { IfOk result (λ begun. Enters (machine.enter Rule.MetFactor terminal) self.old begun self.new) }
    {
        match terminal {
            Terminal::Intersect => self.begin(&[Part::The(Rule::Factor)]),
            _ => Ok(false),
        }
    }

    fn factor(&mut self, terminal: Terminal) -> Result<bool, NoMemory>
        ensures { IfOk result (λ begun. Enters (machine.enter Rule.Factor terminal) self.old begun self.new) }
    {
        match terminal {
            Terminal::Select => self.begin(&[
                Part::Maybe(Rule::Distinct),
                Part::The(Rule::Item),
                Part::Many(Rule::NextItem),
                Part::One(Terminal::From),
                Part::The(Rule::Entry),
                Part::Many(Rule::NextEntry),
                Part::Maybe(Rule::Where),
            ]),
            Terminal::Open => self.begin(&[Part::The(Rule::Body), Part::One(Terminal::Close)]),
            _ => Ok(false),
        }
    }

    fn select(&mut self, terminal: Terminal) -> Result<bool, NoMemory>
        ensures { IfOk result (λ begun. Enters (machine.enter Rule.Select terminal) self.old begun self.new) }
    {
        match terminal {
            Terminal::Select => self.begin(&[
                Part::Maybe(Rule::Distinct),
                Part::The(Rule::Item),
                Part::Many(Rule::NextItem),
                Part::One(Terminal::From),
                Part::The(Rule::Entry),
                Part::Many(Rule::NextEntry),
                Part::Maybe(Rule::Where),
            ]),
            _ => Ok(false),
        }
    }

    fn distinct(&mut self, terminal: Terminal) -> Result<bool, NoMemory>
        ensures { IfOk result (λ begun. Enters (machine.enter Rule.Distinct terminal) self.old begun self.new) }
    {
        match terminal {
            Terminal::Distinct => self.begin(&[]),
            _ => Ok(false),
        }
    }

    fn item(&mut self, terminal: Terminal) -> Result<bool, NoMemory>
        ensures { IfOk result (λ begun. Enters (machine.enter Rule.Item terminal) self.old begun self.new) }
    {
        match terminal {
            Terminal::Name | Terminal::A => self.begin(&[
                Part::Maybe(Rule::ColumnName),
                Part::Maybe(Rule::Output),
            ]),
            _ => Ok(false),
        }
    }

    fn next_item(&mut self, terminal: Terminal) -> Result<bool, NoMemory>
        ensures { IfOk result (λ begun. Enters (machine.enter Rule.NextItem terminal) self.old begun self.new) }
    {
        match terminal {
            Terminal::Comma => self.begin(&[Part::The(Rule::Item)]),
            _ => Ok(false),
        }
    }

    fn output(&mut self, terminal: Terminal) -> Result<bool, NoMemory>
        ensures { IfOk result (λ begun. Enters (machine.enter Rule.Output terminal) self.old begun self.new) }
    {
        match terminal {
            Terminal::As => self.begin(&[Part::The(Rule::Name)]),
            _ => Ok(false),
        }
    }

    fn column(&mut self, terminal: Terminal) -> Result<bool, NoMemory>
        ensures { IfOk result (λ begun. Enters (machine.enter Rule.Column terminal) self.old begun self.new) }
    {
        match terminal {
            Terminal::Name | Terminal::A => self.begin(&[Part::Maybe(Rule::ColumnName)]),
            _ => Ok(false),
        }
    }

    fn column_name(&mut self, terminal: Terminal) -> Result<bool, NoMemory>
        ensures { IfOk result (λ begun. Enters (machine.enter Rule.ColumnName terminal) self.old begun self.new) }
    {
        match terminal {
            Terminal::Dot => self.begin(&[Part::The(Rule::Name)]),
            _ => Ok(false),
        }
    }

    fn name(&mut self, terminal: Terminal) -> Result<bool, NoMemory>
        ensures { IfOk result (λ begun. Enters (machine.enter Rule.Name terminal) self.old begun self.new) }
    {
        match terminal {
            Terminal::Name | Terminal::A => self.begin(&[]),
            _ => Ok(false),
        }
    }

    fn entry(&mut self, terminal: Terminal) -> Result<bool, NoMemory>
        ensures { IfOk result (λ begun. Enters (machine.enter Rule.Entry terminal) self.old begun self.new) }
    {
        match terminal {
            Terminal::Sparqltable => self.begin(&[
                Part::One(Terminal::Open),
                Part::The(Rule::Sparql),
                Part::One(Terminal::Close),
                Part::Maybe(Rule::As),
                Part::The(Rule::Name),
            ]),
            _ => Ok(false),
        }
    }

    fn next_entry(&mut self, terminal: Terminal) -> Result<bool, NoMemory>
        ensures { IfOk result (λ begun. Enters (machine.enter Rule.NextEntry terminal) self.old begun self.new) }
    {
        match terminal {
            Terminal::Comma => self.begin(&[Part::The(Rule::Entry)]),
            _ => Ok(false),
        }
    }

    fn as_word(&mut self, terminal: Terminal) -> Result<bool, NoMemory>
        ensures { IfOk result (λ begun. Enters (machine.enter Rule.As terminal) self.old begun self.new) }
    {
        match terminal {
            Terminal::As => self.begin(&[]),
            _ => Ok(false),
        }
    }

    fn where_cond(&mut self, terminal: Terminal) -> Result<bool, NoMemory>
        ensures { IfOk result (λ begun. Enters (machine.enter Rule.Where terminal) self.old begun self.new) }
    {
        match terminal {
            Terminal::Where => self.begin(&[Part::The(Rule::Cond)]),
            _ => Ok(false),
        }
    }

    fn cond(&mut self, terminal: Terminal) -> Result<bool, NoMemory>
        ensures { IfOk result (λ begun. Enters (machine.enter Rule.Cond terminal) self.old begun self.new) }
    {
        match terminal {
            Terminal::Not => self.begin(&[
                Part::The(Rule::Neg),
                Part::Many(Rule::AndNeg),
                Part::Many(Rule::OrConj),
            ]),
            Terminal::Exists => self.begin(&[
                Part::One(Terminal::Open),
                Part::The(Rule::Body),
                Part::One(Terminal::Close),
                Part::Many(Rule::AndNeg),
                Part::Many(Rule::OrConj),
            ]),
            Terminal::Open => self.begin(&[
                Part::The(Rule::Cond),
                Part::One(Terminal::Close),
                Part::Many(Rule::AndNeg),
                Part::Many(Rule::OrConj),
            ]),
            Terminal::Integer | Terminal::Quoted => self.begin(&[
                Part::The(Rule::Comparison),
                Part::The(Rule::Operand),
                Part::Many(Rule::AndNeg),
                Part::Many(Rule::OrConj),
            ]),
            Terminal::Date => self.begin(&[
                Part::One(Terminal::Quoted),
                Part::The(Rule::Comparison),
                Part::The(Rule::Operand),
                Part::Many(Rule::AndNeg),
                Part::Many(Rule::OrConj),
            ]),
            Terminal::Name | Terminal::A => self.begin(&[
                Part::Maybe(Rule::OperandRest),
                Part::The(Rule::Comparison),
                Part::The(Rule::Operand),
                Part::Many(Rule::AndNeg),
                Part::Many(Rule::OrConj),
            ]),
            _ => Ok(false),
        }
    }

    fn or_conj(&mut self, terminal: Terminal) -> Result<bool, NoMemory>
        ensures { IfOk result (λ begun. Enters (machine.enter Rule.OrConj terminal) self.old begun self.new) }
    {
        match terminal {
            Terminal::Or => self.begin(&[Part::The(Rule::Conj)]),
            _ => Ok(false),
        }
    }

    fn conj(&mut self, terminal: Terminal) -> Result<bool, NoMemory>
        ensures { IfOk result (λ begun. Enters (machine.enter Rule.Conj terminal) self.old begun self.new) }
    {
        match terminal {
            Terminal::Not => self.begin(&[Part::The(Rule::Neg), Part::Many(Rule::AndNeg)]),
            Terminal::Exists => self.begin(&[
                Part::One(Terminal::Open),
                Part::The(Rule::Body),
                Part::One(Terminal::Close),
                Part::Many(Rule::AndNeg),
            ]),
            Terminal::Open => self.begin(&[
                Part::The(Rule::Cond),
                Part::One(Terminal::Close),
                Part::Many(Rule::AndNeg),
            ]),
            Terminal::Integer | Terminal::Quoted => self.begin(&[
                Part::The(Rule::Comparison),
                Part::The(Rule::Operand),
                Part::Many(Rule::AndNeg),
            ]),
            Terminal::Date => self.begin(&[
                Part::One(Terminal::Quoted),
                Part::The(Rule::Comparison),
                Part::The(Rule::Operand),
                Part::Many(Rule::AndNeg),
            ]),
            Terminal::Name | Terminal::A => self.begin(&[
                Part::Maybe(Rule::OperandRest),
                Part::The(Rule::Comparison),
                Part::The(Rule::Operand),
                Part::Many(Rule::AndNeg),
            ]),
            _ => Ok(false),
        }
    }

    fn and_neg(&mut self, terminal: Terminal) -> Result<bool, NoMemory>
        ensures { IfOk result (λ begun. Enters (machine.enter Rule.AndNeg terminal) self.old begun self.new) }
    {
        match terminal {
            Terminal::And => self.begin(&[Part::The(Rule::Neg)]),
            _ => Ok(false),
        }
    }

    fn neg(&mut self, terminal: Terminal) -> Result<bool, NoMemory>
        ensures { IfOk result (λ begun. Enters (machine.enter Rule.Neg terminal) self.old begun self.new) }
    {
        match terminal {
            Terminal::Not => self.begin(&[Part::The(Rule::Neg)]),
            Terminal::Exists => self.begin(&[
                Part::One(Terminal::Open),
                Part::The(Rule::Body),
                Part::One(Terminal::Close),
            ]),
            Terminal::Open => self.begin(&[Part::The(Rule::Cond), Part::One(Terminal::Close)]),
            Terminal::Integer | Terminal::Quoted => self.begin(&[
                Part::The(Rule::Comparison),
                Part::The(Rule::Operand),
            ]),
            Terminal::Date => self.begin(&[
                Part::One(Terminal::Quoted),
                Part::The(Rule::Comparison),
                Part::The(Rule::Operand),
            ]),
            Terminal::Name | Terminal::A => self.begin(&[
                Part::Maybe(Rule::OperandRest),
                Part::The(Rule::Comparison),
                Part::The(Rule::Operand),
            ]),
            _ => Ok(false),
        }
    }

    fn comparison(&mut self, terminal: Terminal) -> Result<bool, NoMemory>
        ensures { IfOk result (λ begun. Enters (machine.enter Rule.Comparison terminal) self.old begun self.new) }
    {
        match terminal {
            Terminal::Equal | Terminal::Differ => self.begin(&[]),
            _ => Ok(false),
        }
    }

    fn operand(&mut self, terminal: Terminal) -> Result<bool, NoMemory>
        ensures { IfOk result (λ begun. Enters (machine.enter Rule.Operand terminal) self.old begun self.new) }
    {
        match terminal {
            Terminal::Integer | Terminal::Quoted => self.begin(&[]),
            Terminal::Date => self.begin(&[Part::One(Terminal::Quoted)]),
            Terminal::Name | Terminal::A => self.begin(&[Part::Maybe(Rule::OperandRest)]),
            _ => Ok(false),
        }
    }

    fn operand_rest(&mut self, terminal: Terminal) -> Result<bool, NoMemory>
        ensures { IfOk result (λ begun. Enters (machine.enter Rule.OperandRest terminal) self.old begun self.new) }
    {
        match terminal {
            Terminal::Dot => self.begin(&[Part::The(Rule::Name)]),
            Terminal::Open => self.begin(&[Part::Maybe(Rule::Values), Part::One(Terminal::Close)]),
            _ => Ok(false),
        }
    }

    fn values(&mut self, terminal: Terminal) -> Result<bool, NoMemory>
        ensures { IfOk result (λ begun. Enters (machine.enter Rule.Values terminal) self.old begun self.new) }
    {
        match terminal {
            Terminal::Integer | Terminal::Quoted => self.begin(&[Part::Many(Rule::NextValue)]),
            Terminal::Date => self.begin(&[
                Part::One(Terminal::Quoted),
                Part::Many(Rule::NextValue),
            ]),
            _ => Ok(false),
        }
    }

    fn next_value(&mut self, terminal: Terminal) -> Result<bool, NoMemory>
        ensures { IfOk result (λ begun. Enters (machine.enter Rule.NextValue terminal) self.old begun self.new) }
    {
        match terminal {
            Terminal::Comma => self.begin(&[Part::The(Rule::Value)]),
            _ => Ok(false),
        }
    }

    fn value(&mut self, terminal: Terminal) -> Result<bool, NoMemory>
        ensures { IfOk result (λ begun. Enters (machine.enter Rule.Value terminal) self.old begun self.new) }
    {
        match terminal {
            Terminal::Integer | Terminal::Quoted => self.begin(&[]),
            Terminal::Date => self.begin(&[Part::One(Terminal::Quoted)]),
            _ => Ok(false),
        }
    }

    fn sparql(&mut self, terminal: Terminal) -> Result<bool, NoMemory>
        ensures { IfOk result (λ begun. Enters (machine.enter Rule.Sparql terminal) self.old begun self.new) }
    {
        match terminal {
            Terminal::Select => self.begin(&[
                Part::Maybe(Rule::Distinct),
                Part::The(Rule::Var),
                Part::Many(Rule::Var),
                Part::Maybe(Rule::WhereWord),
                Part::The(Rule::Group),
            ]),
            _ => Ok(false),
        }
    }

    fn var(&mut self, terminal: Terminal) -> Result<bool, NoMemory>
        ensures { IfOk result (λ begun. Enters (machine.enter Rule.Var terminal) self.old begun self.new) }
    {
        match terminal {
            Terminal::Var => self.begin(&[]),
            _ => Ok(false),
        }
    }

    fn where_word(&mut self, terminal: Terminal) -> Result<bool, NoMemory>
        ensures { IfOk result (λ begun. Enters (machine.enter Rule.WhereWord terminal) self.old begun self.new) }
    {
        match terminal {
            Terminal::Where => self.begin(&[]),
            _ => Ok(false),
        }
    }

    fn group(&mut self, terminal: Terminal) -> Result<bool, NoMemory>
        ensures { IfOk result (λ begun. Enters (machine.enter Rule.Group terminal) self.old begun self.new) }
    {
        match terminal {
            Terminal::OpenBrace => self.begin(&[Part::The(Rule::GroupRest)]),
            _ => Ok(false),
        }
    }

    fn group_rest(&mut self, terminal: Terminal) -> Result<bool, NoMemory>
        ensures { IfOk result (λ begun. Enters (machine.enter Rule.GroupRest terminal) self.old begun self.new) }
    {
        match terminal {
            Terminal::OpenBrace => self.begin(&[
                Part::The(Rule::Block),
                Part::One(Terminal::CloseBrace),
                Part::Many(Rule::NextBlock),
                Part::One(Terminal::CloseBrace),
            ]),
            Terminal::Var => self.begin(&[
                Part::The(Rule::Property),
                Part::Many(Rule::NextProperty),
                Part::Maybe(Rule::MoreBlock),
                Part::One(Terminal::CloseBrace),
            ]),
            _ => Ok(false),
        }
    }

    fn next_block(&mut self, terminal: Terminal) -> Result<bool, NoMemory>
        ensures { IfOk result (λ begun. Enters (machine.enter Rule.NextBlock terminal) self.old begun self.new) }
    {
        match terminal {
            Terminal::Union => self.begin(&[
                Part::One(Terminal::OpenBrace),
                Part::The(Rule::Block),
                Part::One(Terminal::CloseBrace),
            ]),
            _ => Ok(false),
        }
    }

    fn block(&mut self, terminal: Terminal) -> Result<bool, NoMemory>
        ensures { IfOk result (λ begun. Enters (machine.enter Rule.Block terminal) self.old begun self.new) }
    {
        match terminal {
            Terminal::Var => self.begin(&[
                Part::The(Rule::Property),
                Part::Many(Rule::NextProperty),
                Part::Maybe(Rule::MoreBlock),
            ]),
            _ => Ok(false),
        }
    }

    fn more_block(&mut self, terminal: Terminal) -> Result<bool, NoMemory>
        ensures { IfOk result (λ begun. Enters (machine.enter Rule.MoreBlock terminal) self.old begun self.new) }
    {
        match terminal {
            Terminal::Dot => self.begin(&[Part::Maybe(Rule::Block)]),
            _ => Ok(false),
        }
    }

    fn triples(&mut self, terminal: Terminal) -> Result<bool, NoMemory>
        ensures { IfOk result (λ begun. Enters (machine.enter Rule.Triples terminal) self.old begun self.new) }
    {
        match terminal {
            Terminal::Var => self.begin(&[
                Part::The(Rule::Property),
                Part::Many(Rule::NextProperty),
            ]),
            _ => Ok(false),
        }
    }

    fn property(&mut self, terminal: Terminal) -> Result<bool, NoMemory>
        ensures { IfOk result (λ begun. Enters (machine.enter Rule.Property terminal) self.old begun self.new) }
    {
        match terminal {
            Terminal::A => self.begin(&[Part::The(Rule::Class), Part::Many(Rule::NextClass)]),
            Terminal::Pname | Terminal::Iri => self.begin(&[
                Part::The(Rule::Object),
                Part::Many(Rule::NextObject),
            ]),
            _ => Ok(false),
        }
    }

    fn next_property(&mut self, terminal: Terminal) -> Result<bool, NoMemory>
        ensures { IfOk result (λ begun. Enters (machine.enter Rule.NextProperty terminal) self.old begun self.new) }
    {
        match terminal {
            Terminal::Semicolon => self.begin(&[Part::The(Rule::Property)]),
            _ => Ok(false),
        }
    }

    fn class(&mut self, terminal: Terminal) -> Result<bool, NoMemory>
        ensures { IfOk result (λ begun. Enters (machine.enter Rule.Class terminal) self.old begun self.new) }
    {
        match terminal {
            Terminal::Pname | Terminal::Iri => self.begin(&[]),
            _ => Ok(false),
        }
    }

    fn next_class(&mut self, terminal: Terminal) -> Result<bool, NoMemory>
        ensures { IfOk result (λ begun. Enters (machine.enter Rule.NextClass terminal) self.old begun self.new) }
    {
        match terminal {
            Terminal::Comma => self.begin(&[Part::The(Rule::Class)]),
            _ => Ok(false),
        }
    }

    fn verb(&mut self, terminal: Terminal) -> Result<bool, NoMemory>
        ensures { IfOk result (λ begun. Enters (machine.enter Rule.Verb terminal) self.old begun self.new) }
    {
        match terminal {
            Terminal::Pname | Terminal::Iri => self.begin(&[]),
            _ => Ok(false),
        }
    }

    fn object(&mut self, terminal: Terminal) -> Result<bool, NoMemory>
        ensures { IfOk result (λ begun. Enters (machine.enter Rule.Object terminal) self.old begun self.new) }
    {
        match terminal {
            Terminal::Var | Terminal::Integer => self.begin(&[]),
            Terminal::Doubled => self.begin(&[Part::Maybe(Rule::Datatype)]),
            _ => Ok(false),
        }
    }

    fn next_object(&mut self, terminal: Terminal) -> Result<bool, NoMemory>
        ensures { IfOk result (λ begun. Enters (machine.enter Rule.NextObject terminal) self.old begun self.new) }
    {
        match terminal {
            Terminal::Comma => self.begin(&[Part::The(Rule::Object)]),
            _ => Ok(false),
        }
    }

    fn datatype(&mut self, terminal: Terminal) -> Result<bool, NoMemory>
        ensures { IfOk result (λ begun. Enters (machine.enter Rule.Datatype terminal) self.old begun self.new) }
    {
        match terminal {
            Terminal::Carets => self.begin(&[Part::The(Rule::Verb)]),
            _ => Ok(false),
        }
    }

    fn semicolon(&mut self, terminal: Terminal) -> Result<bool, NoMemory>
        ensures { IfOk result (λ begun. Enters (machine.enter Rule.Semicolon terminal) self.old begun self.new) }
    {
        match terminal {
            Terminal::Semicolon => self.begin(&[]),
            _ => Ok(false),
        }
    }

    // Puts before the others what is to come of a rule behind the terminal, and tells whether it begins the rule.
    pub(crate) fn enter(&mut self, rule: Rule, terminal: Terminal) -> Result<bool, NoMemory>
        ensures { IfOk result (λ begun. Enters (machine.enter rule terminal) self.old begun self.new) }
    {
        match rule {
            Rule::Line => self.line(terminal),
            Rule::Body => self.body(terminal),
            Rule::SetTerm => self.set_term(terminal),
            Rule::SetWord => self.set_word(terminal),
            Rule::Term => self.term(terminal),
            Rule::MetFactor => self.met_factor(terminal),
            Rule::Factor => self.factor(terminal),
            Rule::Select => self.select(terminal),
            Rule::Distinct => self.distinct(terminal),
            Rule::Item => self.item(terminal),
            Rule::NextItem => self.next_item(terminal),
            Rule::Output => self.output(terminal),
            Rule::Column => self.column(terminal),
            Rule::ColumnName => self.column_name(terminal),
            Rule::Name => self.name(terminal),
            Rule::Entry => self.entry(terminal),
            Rule::NextEntry => self.next_entry(terminal),
            Rule::As => self.as_word(terminal),
            Rule::Where => self.where_cond(terminal),
            Rule::Cond => self.cond(terminal),
            Rule::OrConj => self.or_conj(terminal),
            Rule::Conj => self.conj(terminal),
            Rule::AndNeg => self.and_neg(terminal),
            Rule::Neg => self.neg(terminal),
            Rule::Comparison => self.comparison(terminal),
            Rule::Operand => self.operand(terminal),
            Rule::OperandRest => self.operand_rest(terminal),
            Rule::Values => self.values(terminal),
            Rule::NextValue => self.next_value(terminal),
            Rule::Value => self.value(terminal),
            Rule::Sparql => self.sparql(terminal),
            Rule::Var => self.var(terminal),
            Rule::WhereWord => self.where_word(terminal),
            Rule::Group => self.group(terminal),
            Rule::GroupRest => self.group_rest(terminal),
            Rule::NextBlock => self.next_block(terminal),
            Rule::Block => self.block(terminal),
            Rule::MoreBlock => self.more_block(terminal),
            Rule::Triples => self.triples(terminal),
            Rule::Property => self.property(terminal),
            Rule::NextProperty => self.next_property(terminal),
            Rule::Class => self.class(terminal),
            Rule::NextClass => self.next_class(terminal),
            Rule::Verb => self.verb(terminal),
            Rule::Object => self.object(terminal),
            Rule::NextObject => self.next_object(terminal),
            Rule::Datatype => self.datatype(terminal),
            Rule::Semicolon => self.semicolon(terminal),
        }
    }
}
