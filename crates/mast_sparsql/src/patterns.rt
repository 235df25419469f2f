//! The inside of a `sparqltable`, as it is written.
ghost use Rattle.std.specs.Prelude.{◌≡◌, ◌∷◌, ◌++◌, [], IfOk, List, true};
ghost use Rattle.std.specs.List.{flat_map};
ghost use Rattle.mast_grammar.specs.declared.terminal.Terminal.TheVariants as terminal;
ghost use Rattle.mast_sparsql.specs.Trees as tree;
ghost use Rattle.mast_sparsql.specs.Trees.{the, token, word};
ghost use Rattle.mast_sparsql.specs.inside.Cursors.{Reads, ReadsEach, ReadsList, ReadsMany};

use crate::cursor::Cursor;
use crate::tree::{Block, Entry, Line, Object, Property, Table, Triples};
use mast_grammar::Terminal;
use mast_terms::{List, NoMemory};
use std::alloc::Global;

impl<'q> Cursor<'q> {
    // object = Var | Integer | Doubled ["^^" (Pname | Iri)]
    fn object(&mut self) -> Result<Object, NoMemory>
        ensures { IfOk result (λ o. Reads self.old self.new (tree.object_written o)) }
    {
        if self.is_next(Terminal::Var) {
            let var = self.one(Terminal::Var)?;
            return Ok(Object::Var(var));
        }
        if self.is_next(Terminal::Integer) {
            let number = self.one(Terminal::Integer)?;
            return Ok(Object::Integer(number));
        }
        let text = self.one(Terminal::Doubled)?;
        if self.take(Terminal::Carets)? {
            let datatype = self.iri()?;
            return Ok(Object::Typed(text, datatype));
        }
        Ok(Object::Text(text))
    }

    // object {"," object}
    #[tactic(auto, using(crate::proofs::CursorLemmas::list_first, crate::proofs::CursorLemmas::list_next))]
    fn objects(&mut self, alloc: Global) -> Result<List<Object>, NoMemory>
        ensures { IfOk result (λ objects. ReadsList self.old self.new terminal.Comma tree.object_written objects) }
    {
        let mut objects = List::new(alloc);
        let object = self.object()?;
        objects.push(alloc, object)?;
        for _ in 0..self.left() {
            if !self.is_next(Terminal::Comma) {
                return Ok(objects);
            }
            self.word(Terminal::Comma)?;
            let next = self.object()?;
            objects.push(alloc, next)?;
        }
        Ok(objects)
    }

    // (Pname | Iri) {"," (Pname | Iri)}
    #[tactic(auto, using(crate::proofs::CursorLemmas::list_first, crate::proofs::CursorLemmas::list_next))]
    fn classes(&mut self, alloc: Global) -> Result<List<u32>, NoMemory>
        ensures { IfOk result (λ classes. ReadsList self.old self.new terminal.Comma tree.iri_written classes) }
    {
        let mut classes = List::new(alloc);
        let class = self.iri()?;
        classes.push(alloc, class)?;
        for _ in 0..self.left() {
            if !self.is_next(Terminal::Comma) {
                return Ok(classes);
            }
            self.word(Terminal::Comma)?;
            let next = self.iri()?;
            classes.push(alloc, next)?;
        }
        Ok(classes)
    }

    // verb objects
    fn property(&mut self, alloc: Global) -> Result<Property, NoMemory>
        ensures stands { IfOk result (λ p. tree.property_stands p ≡ true) }
        ensures reads { IfOk result (λ p. Reads self.old self.new (tree.property_written p)) }
    {
        if self.take(Terminal::A)? {
            let classes = self.classes(alloc)?;
            return Ok(Property::Classes(classes));
        }
        let verb = self.iri()?;
        let objects = self.objects(alloc)?;
        Ok(Property::Verb(verb, objects))
    }

    // property {";" property}
    #[tactic(auto, using(crate::proofs::CursorLemmas::each_first, crate::proofs::CursorLemmas::each_next))]
    fn properties(&mut self, alloc: Global) -> Result<List<Property>, NoMemory>
        ensures { IfOk result (λ list. ReadsEach self.old self.new terminal.Semicolon tree.property_written tree.property_stands list) }
    {
        let mut properties = List::new(alloc);
        let property = self.property(alloc)?;
        properties.push(alloc, property)?;
        for _ in 0..self.left() {
            if !self.is_next(Terminal::Semicolon) {
                return Ok(properties);
            }
            self.word(Terminal::Semicolon)?;
            let next = self.property(alloc)?;
            properties.push(alloc, next)?;
        }
        Ok(properties)
    }

    // triples = Var verb objects {";" verb objects}
    #[tactic(auto, using(crate::proofs::CursorLemmas::reads_before, crate::proofs::CursorLemmas::each_stands))]
    fn triples(&mut self, alloc: Global) -> Result<Triples, NoMemory>
        ensures stands { IfOk result (λ t. tree.triples_stand t ≡ true) }
        ensures reads { IfOk result (λ t. Reads self.old self.new (tree.triples_written t)) }
    {
        let subject = self.one(Terminal::Var)?;
        let properties = self.properties(alloc)?;
        Ok(Triples {
            subject,
            properties,
        })
    }

    // block = triples {"." triples} ["."]
    #[tactic(auto, using(crate::proofs::CursorLemmas::block_steps))]
    fn block(&mut self, alloc: Global) -> Result<Block, NoMemory>
        ensures stands { IfOk result (λ b. tree.block_stands b ≡ true) }
        ensures reads { IfOk result (λ b. Reads self.old self.new (tree.block_written b)) }
    {
        let mut triples = List::new(alloc);
        let first = self.triples(alloc)?;
        triples.push(alloc, first)?;
        for _ in 0..self.left() {
            if !self.is_next(Terminal::Dot) {
                return Ok(Block {
                    triples,
                    dot: false,
                });
            }
            self.word(Terminal::Dot)?;
            if !self.is_next(Terminal::Var) {
                return Ok(Block { triples, dot: true });
            }
            let next = self.triples(alloc)?;
            triples.push(alloc, next)?;
        }
        Ok(Block {
            triples,
            dot: false,
        })
    }

    // "{" block "}"
    #[tactic(auto, using(crate::proofs::CursorLemmas::reads_around))]
    fn braced(&mut self, alloc: Global) -> Result<Block, NoMemory>
        ensures stands { IfOk result (λ b. tree.block_stands b ≡ true) }
        ensures reads { IfOk result (λ b. Reads self.old self.new (tree.braced b)) }
    {
        self.word(Terminal::OpenBrace)?;
        let block = self.block(alloc)?;
        self.word(Terminal::CloseBrace)?;
        Ok(block)
    }

    // "{" block "}" {UNION "{" block "}"}
    #[tactic(auto, using(crate::proofs::CursorLemmas::each_first, crate::proofs::CursorLemmas::each_next))]
    fn blocks(&mut self, alloc: Global) -> Result<List<Block>, NoMemory>
        ensures { IfOk result (λ list. ReadsEach self.old self.new terminal.Union tree.braced tree.block_stands list) }
    {
        let mut blocks = List::new(alloc);
        let block = self.braced(alloc)?;
        blocks.push(alloc, block)?;
        for _ in 0..self.left() {
            if !self.is_next(Terminal::Union) {
                return Ok(blocks);
            }
            self.word(Terminal::Union)?;
            let next = self.braced(alloc)?;
            blocks.push(alloc, next)?;
        }
        Ok(blocks)
    }

    // group = "{" block "}" | "{" "{" block "}" {UNION "{" block "}"} "}"
    #[tactic(auto, using(crate::proofs::CursorLemmas::group_steps))]
    fn group(&mut self, alloc: Global) -> Result<(bool, List<Block>), NoMemory>
        ensures stands { IfOk result (λ g. tree.group_stands g.0 g.1 ≡ true) }
        ensures reads { IfOk result (λ g. Reads self.old self.new (tree.group_written g.0 g.1)) }
    {
        self.word(Terminal::OpenBrace)?;
        if self.is_next(Terminal::OpenBrace) {
            let blocks = self.blocks(alloc)?;
            self.word(Terminal::CloseBrace)?;
            return Ok((true, blocks));
        }
        let block = self.block(alloc)?;
        self.word(Terminal::CloseBrace)?;
        let mut blocks = List::new(alloc);
        blocks.push(alloc, block)?;
        Ok((false, blocks))
    }

    // Var {Var}
    #[tactic(auto, using(crate::proofs::CursorLemmas::many_first, crate::proofs::CursorLemmas::many_next))]
    fn variables(&mut self, alloc: Global) -> Result<List<u32>, NoMemory>
        ensures { IfOk result (λ list. ReadsMany self.old self.new tree.variable_written list) }
    {
        let mut variables = List::new(alloc);
        let variable = self.one(Terminal::Var)?;
        variables.push(alloc, variable)?;
        for _ in 0..self.left() {
            if !self.is_next(Terminal::Var) {
                return Ok(variables);
            }
            let next = self.one(Terminal::Var)?;
            variables.push(alloc, next)?;
        }
        Ok(variables)
    }

    // sparql = SELECT [DISTINCT] Var {Var} [WHERE] group
    #[tactic(auto, using(crate::proofs::CursorLemmas::reads_table, crate::proofs::CursorLemmas::table_full))]
    fn table(&mut self, alloc: Global) -> Result<Table, NoMemory>
        ensures stands { IfOk result (λ t. tree.table_stands t ≡ true) }
        ensures reads { IfOk result (λ t. Reads self.old self.new (tree.table_written t)) }
    {
        self.word(Terminal::Select)?;
        let distinct = self.may(Terminal::Distinct)?;
        let variables = self.variables(alloc)?;
        let where_word = self.may(Terminal::Where)?;
        let (braces, blocks) = self.group(alloc)?;
        Ok(Table {
            distinct,
            variables,
            where_word,
            braces,
            blocks,
        })
    }

    // entry = SPARQLTABLE "(" sparql ")" [AS] name
    #[tactic(auto, using(crate::proofs::CursorLemmas::reads_entry))]
    fn entry(&mut self, alloc: Global) -> Result<Entry, NoMemory>
        ensures stands { IfOk result (λ e. tree.entry_stands e ≡ true) }
        ensures reads { IfOk result (λ e. Reads self.old self.new (tree.entry_written e)) }
    {
        self.word(Terminal::Sparqltable)?;
        self.word(Terminal::Open)?;
        let table = self.table(alloc)?;
        self.word(Terminal::Close)?;
        let as_word = self.may(Terminal::As)?;
        let alias = self.name()?;
        Ok(Entry {
            table,
            as_word,
            alias,
        })
    }

    /// entry {"," entry}
    #[tactic(auto, using(crate::proofs::CursorLemmas::each_first, crate::proofs::CursorLemmas::each_next))]
    pub(crate) fn entries(&mut self, alloc: Global) -> Result<List<Entry>, NoMemory>
        ensures { IfOk result (λ list. ReadsEach self.old self.new terminal.Comma tree.entry_written tree.entry_stands list) }
    {
        let mut entries = List::new(alloc);
        let entry = self.entry(alloc)?;
        entries.push(alloc, entry)?;
        for _ in 0..self.left() {
            if !self.is_next(Terminal::Comma) {
                return Ok(entries);
            }
            self.word(Terminal::Comma)?;
            let next = self.entry(alloc)?;
            entries.push(alloc, next)?;
        }
        Ok(entries)
    }

    /// {PREFIX Pname Iri}
    #[tactic(auto, using(crate::proofs::CursorLemmas::all_none, crate::proofs::CursorLemmas::all_next))]
    pub(crate) fn lines(&mut self, alloc: Global) -> Result<List<Line>, NoMemory>
        ensures { IfOk result (λ list. Reads self.old self.new (flat_map tree.line_written list)) }
    {
        let mut lines = List::new(alloc);
        for _ in 0..self.left() {
            if !self.is_next(Terminal::Prefix) {
                return Ok(lines);
            }
            let line = self.line()?;
            lines.push(alloc, line)?;
        }
        Ok(lines)
    }

    // PREFIX Pname Iri
    fn line(&mut self) -> Result<Line, NoMemory>
        ensures { IfOk result (λ l. Reads self.old self.new (tree.line_written l)) }
    {
        self.word(Terminal::Prefix)?;
        let prefix = self.one(Terminal::NewPrefix)?;
        let iri = self.one(Terminal::Iri)?;
        Ok(Line { prefix, iri })
    }
}
