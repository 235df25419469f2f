//! A call of the system is made again where it was interrupted.
ghost use Rattle.std.specs.Prelude.{◌≡◌, ◌≤◌, [], length, IfOk};
ghost use Rattle.std.specs.Io.{ReadsAtMost};
ghost use Rattle.std.specs.Io.KnownBytes.{ReadConsumes};
ghost use Rattle.mast_files.specs.Calls.{IsTry, is_interruption};
ghost use Rattle.mast_files.specs.inside.Notes.{bytes_answer, file_answer, given};

use crate::os::{Answer, Folder, OpenFile, Output, of_bytes, of_file};
use std::io::{self, Read, Write};
use std::rt::Files as SystemFiles;

// How often a call is made again.
const AGAIN: u32 = 100;

impl<R: SystemFiles> Folder<'_, R> {
    /// Opens a file, again where the system was interrupted.
    pub(crate) fn open_again(&mut self, name: &str) -> io::Result<OpenFile<R::File>>
        ensures tried { IsTry self.old.opens.calls name.now (name.now, file_answer result) self.new.opens.calls }
        ensures opened { IfOk result (λ file. file.opens.calls ≡ self.new.opens.calls) }
        ensures kept { self.new.reads.calls ≡ self.old.reads.calls }
    {
        for _ in 0..AGAIN {
            let opened = self.open(name);
            if !is_interruption(of_file(&opened)) {
                return opened;
            }
        }
        self.open(name)
    }
}

impl<R> Folder<'_, R> {
    /// Reads once, again where the system was interrupted.
    pub(crate) fn read_again<F: Read>(
        &mut self,
        file: &mut OpenFile<F>,
        buf: &mut [u8],
    ) -> io::Result<usize>
        ensures tried { IsTry self.old.reads.calls [] (given result buf.new, bytes_answer result) self.new.reads.calls }
        ensures kept { self.new.opens.calls ≡ self.old.opens.calls }
        ensures same { file.new.opens.calls ≡ file.old.opens.calls }
        ensures bound { ReadsAtMost result buf.new }
        ensures bytes { ReadConsumes (F.remaining file.old.inner) (F.remaining file.new.inner) result buf.new }
    {
        for _ in 0..AGAIN {
            let count = self.read(file, buf);
            if !is_interruption(of_bytes(&count)) {
                return count;
            }
        }
        self.read(file, buf)
    }
}

impl<W: Write> Output<W> {
    /// Writes once, again where the system was interrupted.
    pub(crate) fn write_again(&mut self, piece: &[u8]) -> io::Result<usize>
        ensures tried { IsTry self.old.writes.calls piece.now (piece.now, bytes_answer result) self.new.writes.calls }
        ensures bound { IfOk result (λ n. n ≤ length piece.now) }
    {
        for _ in 0..AGAIN {
            let count = self.write(piece);
            if !is_interruption(of_bytes(&count)) {
                return count;
            }
        }
        self.write(piece)
    }
}

fn is_interruption(answer: Answer) -> bool
    ensures { result ≡ is_interruption answer }
{
    matches!(answer, Answer::Interrupted)
}
