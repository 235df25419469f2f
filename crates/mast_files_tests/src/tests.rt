//! Tests of mast_files: that its calls succeed, and what the files of the working folder and standard output do with the operating system.
use mast_files::{
    DirFiles, Failed, Files, Gone, MemFiles, MemSink, ReadRefusal, Sink, SoundFiles, SoundSink,
    StdSink, read_all, write_all_of,
};
use mast_terms::{List, NoMemory, Stop, Text};
use std::alloc::Global;
use std::cell::Cell;
use std::fmt::Display;
use std::test::Fail;
use std::{fs, io};

// Three files, of which two have one name.
fn three_files(alloc: Global) -> Result<Vec<(Text, List<u8>)>, NoMemory> {
    let mut files = Vec::new(alloc);
    for (name, content) in [("a", "one"), ("b", ""), ("a", "two")] {
        let bytes = content.as_bytes().to_vec(alloc)?;
        files.push((Text::from_str(alloc, name)?, List::from_vec(bytes)))?;
    }
    Ok(files)
}

// What reading answers, as a text. Want of memory stays an error.
fn answer<F: Files>(
    alloc: Global,
    files: &mut F,
    name: &str,
    limit: u32,
) -> Result<String, NoMemory> {
    let limit = u64::from(limit.min(1000));
    match read_all(alloc, files, name, limit) {
        Ok(bytes) => Ok(format!(in alloc; "{bytes:?}")?),
        Err(Stop::Named(ReadRefusal::Failed)) => Ok(String::from_str(alloc, "failed")?),
        Err(Stop::Named(ReadRefusal::TooLong { limit })) => {
            Ok(format!(in alloc; "longer than {limit}")?)
        }
        Err(Stop::NoMemory) => Err(NoMemory),
    }
}

#[test]
fn a_file_is_read_whole_or_not_at_all(rt: HostRuntime) -> Result<(), Fail> {
    let alloc = rt.alloc();
    let table = [
        ("a", 4, "[111, 110, 101]"),
        ("a", 3, "[111, 110, 101]"),
        ("a", 2, "longer than 2"),
        ("a", 0, "longer than 0"),
        ("b", 0, "[]"),
        ("c", 9, "failed"),
    ];
    let mut files = MemFiles::new(three_files(alloc)?, Vec::new(alloc), 2);
    for (name, limit, want) in table {
        let got = answer(alloc, &mut files, name, limit)?;
        assert_eq!(rt; got.as_str(), want, "{name} up to {limit}");
    }
    let mut sound = SoundFiles::new(three_files(alloc)?);
    let unknown = answer(alloc, &mut sound, "c", 9)?;
    assert_eq!(rt; unknown.as_str(), "[]");
    let first = answer(alloc, &mut sound, "a", 9)?;
    assert_eq!(rt; first.as_str(), "[111, 110, 101]");
    Ok(())
}

#[test]
fn each_failing_call_is_told(rt: HostRuntime) -> Result<(), Fail> {
    let alloc = rt.alloc();
    let mut whole = MemFiles::new(three_files(alloc)?, Vec::new(alloc), 2);
    answer(alloc, &mut whole, "a", 9)?;
    assert_eq!(rt; whole.calls(), 4, "a start, two pieces and the end");
    for failing in 0..5u64 {
        let mut files = MemFiles::new(three_files(alloc)?, vec![in alloc; failing]?, 2);
        let got = answer(alloc, &mut files, "a", 9)?;
        let want = if failing < 4 {
            "failed"
        } else {
            "[111, 110, 101]"
        };
        assert_eq!(rt; got.as_str(), want, "call {failing} fails");
    }
    Ok(())
}

#[test]
fn a_sink_in_memory_takes_what_it_says(rt: HostRuntime) -> Result<(), Fail> {
    let alloc = rt.alloc();
    let text = "<http:".as_bytes();
    let mut second_fails = MemSink::new(alloc, vec![in alloc; 1]?, 5, 100)?;
    assert_eq!(rt;
        write_all_of(&mut second_fails, text),
        Err(Gone { gone: 5 })
    );
    assert_eq!(rt; second_fails.written(), "<http".as_bytes());
    let mut small = MemSink::new(alloc, Vec::new(alloc), 2, 3)?;
    assert_eq!(rt; write_all_of(&mut small, text), Err(Gone { gone: 3 }));
    assert_eq!(rt; small.calls(), 3, "two pieces, and one without room");
    let mut sound = SoundSink::new(alloc, 6)?;
    assert_eq!(rt; write_all_of(&mut sound, text), Ok(()));
    assert_eq!(rt; sound.written(), Some(text));
    assert_eq!(rt; write_all_of(&mut sound, text), Ok(()));
    assert_eq!(rt; sound.written(), None);
    Ok(())
}

#[test]
fn the_folder_is_read(rt: HostRuntime) -> Result<(), Fail> {
    let alloc = rt.alloc();
    fs::write(&rt, "two_words.txt", "two words")?;
    let mut files = DirFiles::new(&rt);
    let whole = read_all(alloc, &mut files, "two_words.txt", 9);
    let long = read_all(alloc, &mut files, "two_words.txt", 8);
    let missing = read_all(alloc, &mut files, "no_such_file.txt", 9);
    fs::remove_file(&rt, "two_words.txt")?;
    assert_eq!(rt; whole?.as_slice(), "two words".as_bytes());
    assert!(rt;
        matches!(
            long,
            Err(Stop::Named(ReadRefusal::TooLong { limit: 8 }) | Stop::NoMemory)
        )
    );
    assert!(rt;
        matches!(
            missing,
            Err(Stop::Named(ReadRefusal::Failed) | Stop::NoMemory)
        )
    );
    Ok(())
}

// An operating system that is interrupted so many times, and then does its work.
#[derive(Drop)]
struct Busy {
    left: Cell<u32>,
}

impl Busy {
    fn interrupted(&self) -> bool {
        let left = self.left.get();
        self.left.set(left.saturating_sub(1));
        left > 0
    }
}

impl Print for Busy {
    fn print<D: Display + Drop>(&self, _value: D) -> io::Result<()> {
        Ok(())
    }

    fn println<D: Display + Drop>(&self, _value: D) -> io::Result<()> {
        Ok(())
    }

    fn write_all(&self, _bytes: &[u8]) -> io::Result<()> {
        Ok(())
    }

    fn write_some(&self, bytes: &[u8]) -> io::Result<usize> {
        if self.interrupted() {
            return Err(io::Error::from(io::ErrorKind::Interrupted));
        }
        Ok(bytes.len())
    }
}

#[test]
fn standard_output_is_written(rt: HostRuntime) {
    let mut sink = StdSink::new(&rt);
    assert_eq!(rt; write_all_of(&mut sink, "a line\n".as_bytes()), Ok(()));
    for (interruptions, want) in [(0, Ok(3)), (100, Ok(3)), (101, Err(Failed))] {
        let busy = Busy {
            left: Cell::new(interruptions),
        };
        let mut sink = StdSink::new(&busy);
        assert_eq!(rt;
            sink.put("abc".as_bytes()),
            want,
            "{interruptions} interruptions"
        );
    }
}
