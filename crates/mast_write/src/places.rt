//! Lines as places in the buffer that holds them: sorted, and printed each once.
ghost use Rattle.std.specs.Prelude.{◌≡◌, ◌+◌, ◌*◌, ◌++◌, ℕ, suc, length, take, drop, codes, IfOk, OnOk};
ghost use Rattle.std.specs.List.{AllByRecursion};
ghost use Rattle.mast_write.specs.LineText.{IsCountedText, StandsIn, lines_text};
ghost use Rattle.mast_write.specs.inside.Buffers.{pieces};
ghost use Rattle.mast_write.specs.inside.Places.{ArePlaces, Begins, IsPlace, kept, kept_from, kept_text, lines_of, word_of};

use mast_terms::NoMemory;
use std::alloc::Global;

// How many values a byte has.
const BYTE_VALUES: u64 = 256;

// How many bytes a word has.
const WORD_BYTES: usize = 8;

// A line, and the number that its eight bytes behind the front of all lines spell, which most often tells lines apart.
type Place<'a> = (u64, &'a [u8]);

// The text of a set of lines, and how many lines it has.
#[derive(Drop)]
pub(crate) struct Counted {
    pub(crate) text: Vec<u8>,
    pub(crate) count: usize,
}

// The text of the lines of these lengths that the bytes hold, one after the other, and how many lines it has.
pub(crate) fn sorted_text(
    alloc: Global,
    bytes: &[u8],
    lengths: Vec<usize>,
) -> Result<Counted, NoMemory>
    ensures { IfOk result (λ c. IsCountedText (StandsIn (pieces lengths.items bytes.now)) c.text.items c.count) }
{
    let mut places = all_places(alloc, bytes, lengths)?;
    places.sort_unstable();
    join_once(alloc, &places, bytes.len())
}

// The places of these lines. The lengths are given up with it.
fn all_places(alloc: Global, bytes: &[u8], lengths: Vec<usize>) -> Result<Vec<Place<'_>>, NoMemory>
    ensures { IfOk result (λ places. ArePlaces (pieces lengths.items bytes.now) places.items) }
{
    let front = shared_front(bytes, &lengths);
    cut_places(alloc, bytes, &lengths, front.len())
}

// A front that all lines have: the longest one, if there is a line.
fn shared_front<'a>(bytes: &'a [u8], lengths: &[usize]) -> &'a [u8]
    ensures { AllByRecursion (Begins result.now) (pieces lengths.now bytes.now) }
{
    let mut front = bytes;
    let mut rest = bytes;
    for length in lengths {
        let (line, after) = cut(rest, *length);
        front = common_front(front, line);
        rest = after;
    }
    front
}

// The longest front of a front that a line begins with.
fn common_front<'a>(front: &'a [u8], line: &[u8]) -> &'a [u8]
    ensures front { Begins result.now front.now }
    ensures line { Begins result.now line.now }
{
    if line.starts_with(front) {
        return front;
    }
    let most = front.len().min(line.len());
    for at in 0..most {
        if front[at] != line[at] {
            return front.split_at(at).0;
        }
    }
    front.split_at(most).0
}

// A piece of this length and what is behind it, or all and nothing where fewer bytes are left.
fn cut(rest: &[u8], length: usize) -> (&[u8], &[u8])
    ensures piece { result.0.now ≡ take length rest.now }
    ensures behind { result.1.now ≡ drop length rest.now }
{
    rest.split_at(length.min(rest.len()))
}

// The lines of these lengths that the bytes hold, one after the other, each with its word behind so many bytes.
fn cut_places<'a>(
    alloc: Global,
    bytes: &'a [u8],
    lengths: &[usize],
    skip: usize,
) -> Result<Vec<Place<'a>>, NoMemory>
    ensures lines { IfOk result (λ places. lines_of places.items ≡ pieces lengths.now bytes.now) }
    ensures words { IfOk result (λ places. AllByRecursion (IsPlace skip) places.items) }
{
    let mut places = Vec::with_capacity(alloc, lengths.len())?;
    let mut rest = bytes;
    for length in lengths {
        let (line, after) = cut(rest, *length);
        places.push(place(line, skip))?;
        rest = after;
    }
    Ok(places)
}

// A line with its word behind so many bytes.
fn place(line: &[u8], skip: usize) -> Place<'_>
    ensures line { result.1.now ≡ line.now }
    ensures word { IsPlace skip result }
{
    let (_, behind) = cut(line, skip);
    (word(behind), line)
}

// The number that the first eight bytes spell, where a byte that is not there counts as 0.
fn word(bytes: &[u8]) -> u64
    ensures { result ≡ word_of 0 WORD_BYTES bytes.now }
{
    let mut word: u64 = 0;
    let mut rest = bytes;
    for step in 0..WORD_BYTES {
        let (byte, after) = first_byte(rest);
        word = word * BYTE_VALUES + byte as u64;
        rest = after;
    }
    word
}

// The lines in order, each once, each with its line feed. `most` is how many bytes they may have together.
fn join_once(alloc: Global, places: &[Place], most: usize) -> Result<Counted, NoMemory>
    ensures text { IfOk result (λ c. c.text.items ≡ lines_text (kept (lines_of places.now))) }
    ensures count { IfOk result (λ c. c.count ≡ length (kept (lines_of places.now))) }
{
    let mut text = Vec::with_capacity(alloc, most.saturating_add(places.len()))?;
    let mut count = 0;
    if let [first, rest @ ..] = places {
        count = join_after(first.1, rest, &mut text)?;
    }
    Ok(Counted { text, count })
}

// Appends a line, and those of the places after it that differ from the one before them. It gives how many it appends.
fn join_after(line: &[u8], places: &[Place], text: &mut Vec<u8>) -> Result<usize, NoMemory>
    ensures text { OnOk result (text.new.items ≡ text.old.items ++ kept_text line.now (lines_of places.now)) }
    ensures count { IfOk result (λ count. count ≡ length (kept_from line.now (lines_of places.now))) }
{
    let mut last = line;
    let mut count = 0;
    for place in places {
        if place.1 != last {
            push_line(last, text)?;
            count += 1;
            last = place.1;
        }
    }
    push_line(last, text)?;
    Ok(count + 1)
}

// Appends a line and its line feed.
fn push_line(line: &[u8], text: &mut Vec<u8>) -> Result<(), NoMemory>
    ensures { OnOk result (text.new.items ≡ text.old.items ++ (line.now ++ codes "\n")) }
{
    text.extend_from_slice(line)?;
    text.push(b'\n')?;
    Ok(())
}

// The first byte and the bytes after it, or 0 and nothing where there is none.
#[tactic(auto, unfolding(crate::specs::inside::Places::word_of))]
fn first_byte(bytes: &[u8]) -> (u8, &[u8])
    ensures { (n k : ℕ) → word_of n (suc k) bytes.now ≡ word_of (n * BYTE_VALUES + result.0) k result.1.now }
{
    match bytes {
        [first, rest @ ..] => (*first, rest),
        [] => (0, bytes),
    }
}
