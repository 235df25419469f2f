//! Files in memory, of which one may be open.
ghost use Rattle.std.specs.Prelude.{◌≡◌, ◌++◌, [], length, take, drop, min, is_some};
ghost use Rattle.mast_files.specs.Stored.{content_of, holds};
ghost use Rattle.mast_files.specs.inside.Places.{content_at};

use mast_terms::{List, Text};
use std::marker::Model;

/// Files in memory, of which one may be open. Contracts see the files and the rest of the open one.
#[derive(Debug, Drop)]
pub(crate) struct Store {
    files: Vec<(Text, List<u8>)>,
    place: Option<usize>,
    at: usize,
}

impl Model for Store {
    ghost use Rattle.std.specs.Prelude.{◌≤◌, length, drop};
    ghost use Rattle.mast_files.specs.inside.Places.{StoreState, content_at};

    ghost Value = { StoreState };

    ghost view = { λ s. record { files = s.files.items; rest = drop s.at (content_at s.files.items s.place) } };

    ghost invariant = { λ s. s.at ≤ length (content_at s.files.items s.place) };
}

impl Store {
    /// None of the files is open.
    pub(crate) fn new(files: Vec<(Text, List<u8>)>) -> Store
        ensures { result ≡ record { files = files.items; rest = [] } }
    {
        Store {
            files,
            place: None,
            at: 0,
        }
    }

    /// Opens the first file of this name, and answers whether there is one. Without one the rest is empty.
    pub(crate) fn open(&mut self, name: &Text) -> bool
        ensures found { result ≡ holds self.old.files name.now }
        ensures opened { self.new ≡ record self.old { rest = content_of self.old.files name.now } }
    {
        self.place = find(&self.files, name);
        self.at = 0;
        self.place.is_some()
    }

    /// Copies a front of the rest, of at most `most` bytes, and takes it away.
    pub(crate) fn serve(&mut self, buf: &mut [u8], most: usize) -> usize
        ensures count { result ≡ min most (min (length buf.old) (length self.old.rest)) }
        ensures bytes { buf.new ≡ take result self.old.rest ++ drop result buf.old }
        ensures rest { self.new ≡ record self.old { rest = drop result self.old.rest } }
    {
        let content = content(&self.files, self.place);
        let count = copy_front(&content[self.at..], buf, most);
        self.at += count;
        count
    }
}

// The place of the first file of this name.
fn find(files: &[(Text, List<u8>)], name: &Text) -> Option<usize>
    ensures found { is_some result ≡ holds files.now name.now }
    ensures first { content_at files.now result ≡ content_of files.now name.now }
{
    for (place, (entry, _)) in files.iter().enumerate() {
        if *entry == *name {
            return Some(place);
        }
    }
    None
}

// The content at a place.
fn content(files: &[(Text, List<u8>)], place: Option<usize>) -> &[u8]
    ensures { result.now ≡ content_at files.now place }
{
    match place {
        None => &[],
        Some(place) => match files.get(place) {
            None => &[],
            Some((_, content)) => content.as_slice(),
        },
    }
}

// Copies a front of at most `most` bytes, and answers its length.
fn copy_front(from: &[u8], buf: &mut [u8], most: usize) -> usize
    ensures count { result ≡ min most (min (length buf.old) (length from.now)) }
    ensures bytes { buf.new ≡ take result from.now ++ drop result buf.old }
{
    let count = most.min(buf.len().min(from.len()));
    buf[..count].copy_from_slice(&from[..count]);
    count
}
