//! Tests of the top call over objects in memory: where calls on files and sinks fail, and where the machine gives no words.
ghost use Rattle.std.specs.Prelude.{◌<◌};

use mast_cli::{Status, program, run, run_sound};
use mast_files::{MemFiles, MemSink, SoundFiles, SoundSink};
use mast_terms::{List, Text};
use std::alloc::Global;
use std::io;
use std::test::Fail;

const MAPPINGS: &str = "\
Prefix(:=<http://e/>)
Mappings(
Table(t \"t.csv\" Column(id integer))
Table(u \"u.csv\" Column(id integer))
Map(\"SELECT id FROM t\" Class(:Person Obj(p id)))
Map(\"SELECT id FROM u\" Class(:Pet Obj(q id)))
)
";

fn entry(alloc: Global, name: &str, text: &str) -> Result<(Text, List<u8>), Fail> {
    let name = Text::from_str(alloc, name)?;
    Ok((name, List::from_vec(text.as_bytes().to_vec(alloc)?)))
}

// The mapping document and its tables.
fn entries(alloc: Global) -> Result<Vec<(Text, List<u8>)>, Fail> {
    let mut files = Vec::new(alloc);
    files.push(entry(alloc, "m.ofn", MAPPINGS)?)?;
    files.push(entry(alloc, "t.csv", "id\n2\n1\n")?)?;
    files.push(entry(alloc, "u.csv", "id\n3\n")?)?;
    Ok(files)
}

// The same, of which calls fail. A read gives at most `most` bytes.
fn people(alloc: Global, failing: &[u64], most: usize) -> Result<MemFiles, Fail>
    requires { 0 < most }
{
    Ok(MemFiles::new(entries(alloc)?, failing.to_vec(alloc)?, most))
}

fn words(alloc: Global, words: &[&str]) -> Result<Vec<String>, Fail> {
    let mut owned = Vec::new(alloc);
    for word in words {
        owned.push(String::from_str(alloc, word)?)?;
    }
    Ok(owned)
}

const TEXT: &str = "<http://e/Person>(p(1))\n<http://e/Person>(p(2))\n<http://e/Pet>(q(3))\n";

// Call 0 starts the mapping document, and with pieces of 1000 bytes calls 1 and 2 read it; call 3 starts the
// first table, and calls 4 and 5 read it; calls 6 to 8 do so with the second one. No call comes after these.
#[test]
fn a_fault_of_each_call_names_its_file(rt: HostRuntime) -> Result<(), Fail> {
    let alloc = rt.alloc();
    for call in 0..10u64 {
        let mut files = people(alloc, &[call], 1000)?;
        let mut sink = MemSink::new(alloc, Vec::new(alloc), 1000, 1000)?;
        let status = run(
            &rt,
            alloc,
            &words(alloc, &["facts", "m.ofn"])?,
            &mut files,
            &mut sink,
        );
        if call < 3 {
            assert_eq!(rt; status, Status::ReadFault);
            assert_eq!(rt; sink.written(), b"read fault \"m.ofn\"\n".as_slice());
        } else if call < 6 {
            assert_eq!(rt; status, Status::ReadFault);
            assert_eq!(rt; sink.written(), b"read fault \"t.csv\"\n".as_slice());
        } else if call < 9 {
            assert_eq!(rt; status, Status::ReadFault);
            assert_eq!(rt; sink.written(), b"read fault \"u.csv\"\n".as_slice());
        } else {
            assert_eq!(rt; status, Status::Done);
            assert_eq!(rt; sink.written(), TEXT.as_bytes());
        }
    }
    Ok(())
}

const ONTOLOGY: &str = "\
Prefix(:=<http://e/>)
Ontology(
DisjointClasses(:Person :Pet)
)
";

const CONSTRAINTS: &str = "\
Prefix(:=<http://e/>)
Constraints(
)
";

const ANIMALS: &str = "\
Prefix(:=<http://e/>)
Mappings(
Table(t \"t.csv\" Column(id integer))
Table(u \"u.csv\" Column(id integer))
Map(\"SELECT id FROM t\" Class(:Person Obj(p id)))
Map(\"SELECT id FROM u\" Class(:Pet Obj(p id)))
)
";

// The documents of a check and their tables, of which the second has these pets.
fn animals(alloc: Global, pets: &str) -> Result<Vec<(Text, List<u8>)>, Fail> {
    let mut files = Vec::new(alloc);
    files.push(entry(alloc, "o.ofn", ONTOLOGY)?)?;
    files.push(entry(alloc, "c.ofn", CONSTRAINTS)?)?;
    files.push(entry(alloc, "m.ofn", ANIMALS)?)?;
    files.push(entry(alloc, "t.csv", "id\n2\n1\n")?)?;
    files.push(entry(alloc, "u.csv", pets)?)?;
    Ok(files)
}

const CHECK: [&str; 4] = ["check", "o.ofn", "c.ofn", "m.ofn"];

const CONFLICT: &str = "conflict disjoint ontology line 3\nrow t 2\nrow u 1\n";

// Each file has three calls: the one that starts it, and two that read it. No call comes after those of the last table.
#[test]
fn a_fault_of_each_call_of_a_check_names_its_file(rt: HostRuntime) -> Result<(), Fail> {
    let alloc = rt.alloc();
    let faults = [
        ([0u64, 1, 2], "read fault \"o.ofn\"\n", Status::ReadFault),
        ([3, 4, 5], "read fault \"c.ofn\"\n", Status::ReadFault),
        ([6, 7, 8], "read fault \"m.ofn\"\n", Status::ReadFault),
        ([9, 10, 11], "read fault \"t.csv\"\n", Status::ReadFault),
        ([12, 13, 14], "read fault \"u.csv\"\n", Status::ReadFault),
        ([15, 16, 17], CONFLICT, Status::Conflict),
    ];
    for (calls, text, expected) in faults {
        for call in calls {
            let entries = animals(alloc, "id\n1\n")?;
            let mut files = MemFiles::new(entries, [call].to_vec(alloc)?, 1000);
            let mut sink = MemSink::new(alloc, Vec::new(alloc), 1000, 1000)?;
            let status = run(&rt, alloc, &words(alloc, &CHECK)?, &mut files, &mut sink);
            assert_eq!(rt; status, expected);
            assert_eq!(rt; sink.written(), text.as_bytes());
        }
    }
    Ok(())
}

// A text of 50 bytes goes out in eight pieces of seven bytes at most.
#[test]
fn a_fault_of_each_put_leaves_a_front_of_a_conflict(rt: HostRuntime) -> Result<(), Fail> {
    let alloc = rt.alloc();
    for put in 0..9usize {
        let mut files = MemFiles::new(animals(alloc, "id\n1\n")?, Vec::new(alloc), 1000);
        let mut sink = MemSink::new(alloc, [put as u64].to_vec(alloc)?, 7, 1000)?;
        let status = run(&rt, alloc, &words(alloc, &CHECK)?, &mut files, &mut sink);
        if put < 8 {
            assert_eq!(rt; status, Status::WriteFault);
            assert_eq!(rt;
                sink.written(),
                CONFLICT.as_bytes().get(..7 * put).unwrap_or(&[])
            );
        } else {
            assert_eq!(rt; status, Status::Conflict);
            assert_eq!(rt; sink.written(), CONFLICT.as_bytes());
        }
    }
    Ok(())
}

#[test]
fn the_number_of_workers_changes_nothing(rt: HostRuntime) -> Result<(), Fail> {
    let alloc = rt.alloc();
    let tables = [
        ("id\n1\n", CONFLICT, Status::Conflict),
        ("id\n3\n", "consistent\n", Status::Done),
    ];
    for (pets, text, expected) in tables {
        for workers in ["--workers=1", "--workers=3", "--workers=16"] {
            let mut files = SoundFiles::new(animals(alloc, pets)?);
            let mut sink = SoundSink::new(alloc, 1000)?;
            let asked = words(alloc, &["check", workers, "o.ofn", "c.ofn", "m.ofn"])?;
            let status = run_sound(&rt, alloc, &asked, &mut files, &mut sink);
            assert_eq!(rt; status, expected);
            assert_eq!(rt; sink.written(), Some(text.as_bytes()));
        }
    }
    Ok(())
}

// Pieces of seven bytes: each put but the first may fail after some bytes went out.
#[test]
fn a_fault_of_each_put_leaves_a_front(rt: HostRuntime) -> Result<(), Fail> {
    let alloc = rt.alloc();
    for put in 0..11usize {
        let mut files = people(alloc, &[], 3)?;
        let mut failing = Vec::new(alloc);
        failing.push(put as u64)?;
        let mut sink = MemSink::new(alloc, failing, 7, 1000)?;
        let status = run(
            &rt,
            alloc,
            &words(alloc, &["facts", "m.ofn"])?,
            &mut files,
            &mut sink,
        );
        if put < 10 {
            assert_eq!(rt; status, Status::WriteFault);
            assert_eq!(rt;
                sink.written(),
                TEXT.as_bytes().get(..7 * put).unwrap_or(&[])
            );
        } else {
            assert_eq!(rt; status, Status::Done);
            assert_eq!(rt; sink.written(), TEXT.as_bytes());
        }
    }
    Ok(())
}

#[test]
fn a_run_that_nothing_disturbs_is_done(rt: HostRuntime) -> Result<(), Fail> {
    let alloc = rt.alloc();
    let mut files = SoundFiles::new(entries(alloc)?);
    let mut sink = SoundSink::new(alloc, 1000)?;
    let status = run_sound(
        &rt,
        alloc,
        &words(alloc, &["facts", "m.ofn"])?,
        &mut files,
        &mut sink,
    );
    assert_eq!(rt; status, Status::Done);
    assert_eq!(rt; sink.written(), Some(TEXT.as_bytes()));
    Ok(())
}

// The first word that the machine gives is the program's name, whatever it is.
#[test]
fn the_words_come_after_the_name(rt: HostRuntime) -> Result<(), Fail> {
    let alloc = rt.alloc();
    for name in ["mastro", "facts", ""] {
        let given = words(alloc, &[name, "facts", "m.ofn"])?.into_iter();
        let mut files = people(alloc, &[], 1000)?;
        let mut sink = MemSink::new(alloc, Vec::new(alloc), 1000, 1000)?;
        let status = program(&rt, alloc, Ok(given), &mut files, &mut sink);
        assert_eq!(rt; status, Status::Done);
        assert_eq!(rt; sink.written(), TEXT.as_bytes());
    }
    Ok(())
}

// Words that are no text are no task, and words without memory are want of memory.
#[test]
fn words_that_cannot_be_had_are_no_task_or_want_of_memory(rt: HostRuntime) -> Result<(), Fail> {
    let alloc = rt.alloc();
    let kinds = [
        (io::ErrorKind::InvalidData, Status::Usage),
        (io::ErrorKind::OutOfMemory, Status::NoMemory),
    ];
    for (kind, expected) in kinds {
        let mut files = people(alloc, &[], 1000)?;
        let mut sink = MemSink::new(alloc, Vec::new(alloc), 1000, 1000)?;
        let status = program(
            &rt,
            alloc,
            Err(io::Error::from(kind)),
            &mut files,
            &mut sink,
        );
        assert_eq!(rt; status, expected);
        assert_eq!(rt;
            sink.written().starts_with(b"usage: mastro"),
            status == Status::Usage
        );
        assert_eq!(rt; sink.written().is_empty(), status == Status::NoMemory);
    }
    Ok(())
}
