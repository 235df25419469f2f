//! Lines in one buffer, in the order in which they are written, and their text.
ghost use Rattle.std.specs.Prelude.{◌≡◌, ◌++◌, ◌∷◌, [], IfOk, OnOk, OnErr};
ghost use Rattle.mast_terms.specs.Printed.{term_text, value_text};
ghost use Rattle.mast_write.specs.LineText.{IsCountedText, IsTextOf, StandsIn};
ghost use Rattle.mast_write.specs.Written.{blank};

use crate::places::{Counted, sorted_text};
use mast_terms::{NoMemory, Term, Value, write_term, write_value};
use std::alloc::Global;
use std::marker::Model;

/// Lines in one buffer: those that stand complete, and what is written of the next one.
///
/// A line is written part by part, and then ended or given up. The text of the lines is made at the end, without a copy
/// of any line before it is printed. A call without memory changes nothing.
#[derive(Drop)]
pub struct Lines {
    bytes: Vec<u8>,
    lengths: Vec<usize>,
    begin: usize,
}

impl Model for Lines {
    ghost use Rattle.mast_write.specs.Written.{Written};
    ghost use Rattle.mast_write.specs.inside.Buffers.{written_in, IsBuffer};

    ghost Value = { Written };

    ghost view = { λ l. written_in l.lengths.items l.begin l.bytes.items };

    ghost invariant = { λ l. IsBuffer l.lengths.items l.begin l.bytes.items };
}

impl Lines {
    /// No lines, which takes no memory.
    pub fn new(alloc: Global) -> Lines
        ensures { result ≡ blank }
    {
        Lines {
            bytes: Vec::new(alloc),
            lengths: Vec::new(alloc),
            begin: 0,
        }
    }

    /// Writes bytes after what is written of the line.
    pub fn push(&mut self, alloc: Global, bytes: &[u8]) -> Result<(), NoMemory>
        ensures lines { self.new.lines ≡ self.old.lines }
        ensures begun { OnOk result (self.new.begun ≡ self.old.begun ++ bytes.now) }
        ensures err { OnErr result (self.new ≡ self.old) }
    {
        let _ = alloc;
        self.bytes.extend_from_slice(bytes)?;
        Ok(())
    }

    /// Writes a value after what is written of the line.
    pub fn push_value(&mut self, alloc: Global, value: &Value) -> Result<(), NoMemory>
        ensures lines { self.new.lines ≡ self.old.lines }
        ensures begun { OnOk result (self.new.begun ≡ self.old.begun ++ value_text value.now) }
        ensures err { OnErr result (self.new ≡ self.old) }
    {
        write_value(alloc, value, &mut self.bytes)
    }

    /// Writes a term after what is written of the line.
    pub fn push_term(&mut self, alloc: Global, term: &Term) -> Result<(), NoMemory>
        ensures lines { self.new.lines ≡ self.old.lines }
        ensures begun { OnOk result (self.new.begun ≡ self.old.begun ++ term_text term.now) }
        ensures err { OnErr result (self.new ≡ self.old) }
    {
        write_term(alloc, term, &mut self.bytes)
    }

    /// Ends the line: what is written of it is a line now, and nothing is written of the next one.
    pub fn end(&mut self, alloc: Global) -> Result<(), NoMemory>
        ensures lines { OnOk result (self.new.lines ≡ self.old.lines ++ self.old.begun ∷ []) }
        ensures begun { OnOk result (self.new.begun ≡ []) }
        ensures err { OnErr result (self.new ≡ self.old) }
    {
        let _ = alloc;
        let end = self.bytes.len();
        self.lengths.push(end - self.begin)?;
        self.begin = end;
        Ok(())
    }

    /// Gives up what is written of the line.
    pub fn give_up(&mut self)
        ensures lines { self.new.lines ≡ self.old.lines }
        ensures begun { self.new.begun ≡ [] }
    {
        self.bytes.truncate(self.begin);
    }

    /// The text of the lines that stand complete: sorted by their bytes, each once, with a line feed each.
    pub fn into_text(self, alloc: Global) -> Result<Vec<u8>, NoMemory>
        ensures { IfOk result (λ text. IsTextOf (StandsIn self.lines) text.items) }
    {
        let Counted { text, count: _ } = self.into_counted(alloc)?;
        Ok(text)
    }

    // That text, and how many different lines it has.
    pub(crate) fn into_counted(self, alloc: Global) -> Result<Counted, NoMemory>
        ensures { IfOk result (λ c. IsCountedText (StandsIn self.lines) c.text.items c.count) }
    {
        let Lines {
            bytes,
            lengths,
            begin: _,
        } = self;
        sorted_text(alloc, &bytes, lengths)
    }
}
