//! The scanner: an automaton over bytes that finds the longest token at their front, and how far blanks and comments go.
ghost use Rattle.std.specs.Prelude.{◌≡◌, ◌<◌, ◌≤◌, None, length, IfSome, true};
ghost use Rattle.mast_sql.specs.inside.Scanner as scanner;
ghost use Rattle.mast_sql.specs.inside.Scanner.{ScannedWithin};
ghost use Rattle.mast_sql.specs.Tokens as tokens;

use crate::SqlKind;

/// What was read of a token so far.
#[derive(Clone, Copy)]
pub enum ScanState {
    Start,
    /// A word, which a colon would make the front of a Pname.
    Name,
    /// A Pname that ends with its colon.
    Colon,
    /// A Pname that ends with a character of its run.
    Run,
    /// A dot inside a Pname's run.
    Dot,
    /// The `?` or `$` of a variable.
    Sigil,
    Variable,
    /// `<`, which may begin an IRI.
    Less,
    Scheme,
    /// Behind an IRI's colon.
    Inside,
    Minus,
    Digits,
    /// Inside single quotes.
    Quote,
    /// Behind a single quote that another one would double.
    Closed,
    /// Inside double quotes.
    Chars,
    /// Behind a backslash inside double quotes.
    Escape,
    Greater,
    Bang,
    Caret,
    /// A token that no longer one begins with.
    End(SqlKind),
}

/// A token that comes first, and how many bytes it takes.
#[derive(Clone, Copy)]
pub struct Scanned {
    pub kind: SqlKind,
    pub size: usize,
}

/// What is open between tokens.
#[derive(Clone, Copy)]
pub enum Gap {
    Plain,
    /// Behind one dash: another one begins a comment.
    Dash,
    Comment,
}

#[tactic(auto, unfolding(crate::specs::Tokens::is_alpha))]
fn is_alpha(b: u8) -> bool
    ensures { result ≡ tokens.is_alpha b }
{
    (b'a' <= b && b <= b'z') || (b'A' <= b && b <= b'Z')
}

#[tactic(auto, unfolding(crate::specs::Tokens::is_digit))]
fn is_digit(b: u8) -> bool
    ensures { result ≡ tokens.is_digit b }
{
    b'0' <= b && b <= b'9'
}

// What a word begins with: a letter or `_`.
#[tactic(auto, unfolding(crate::specs::Tokens::is_letter))]
fn is_letter(b: u8) -> bool
    ensures { result ≡ tokens.is_letter b }
{
    (b'a' <= b && b <= b'z') || (b'A' <= b && b <= b'Z') || b == b'_'
}

// Letters, digits and `_`.
#[tactic(auto, unfolding(crate::specs::Tokens::is_word))]
fn is_word(b: u8) -> bool
    ensures { result ≡ tokens.is_word b }
{
    (b'a' <= b && b <= b'z') || (b'A' <= b && b <= b'Z') || (b'0' <= b && b <= b'9') || b == b'_'
}

// What a Pname's run is made of, but for dots. Bytes from 128 on are those of characters from U+0080 on.
#[tactic(auto, unfolding(crate::specs::Tokens::is_local))]
fn is_local(b: u8) -> bool
    ensures { result ≡ tokens.is_local b }
{
    (b'a' <= b && b <= b'z')
        || (b'A' <= b && b <= b'Z')
        || (b'0' <= b && b <= b'9')
        || b == b'_'
        || b == b'-'
        || b >= 128
}

// What may follow the first letter of an IRI's scheme.
#[tactic(auto, unfolding(crate::specs::Tokens::is_scheme))]
fn is_scheme(b: u8) -> bool
    ensures { result ≡ tokens.is_scheme b }
{
    (b'a' <= b && b <= b'z')
        || (b'A' <= b && b <= b'Z')
        || (b'0' <= b && b <= b'9')
        || b == b'+'
        || b == b'.'
        || b == b'-'
}

// What may stand behind an IRI's colon.
#[tactic(auto, unfolding(crate::specs::Tokens::is_iri))]
fn is_iri(b: u8) -> bool
    ensures { result ≡ tokens.is_iri b }
{
    b > 32 && b != b'<' && b != b'>' && b != b'"' && b != b'{' && b != b'}'
}

#[tactic(auto, unfolding(crate::specs::Tokens::is_blank))]
fn is_blank(b: u8) -> bool
    ensures { result ≡ tokens.is_blank b }
{
    b == b' ' || b == b'\t' || b == b'\r' || b == b'\n'
}

// A sign by itself that begins no other.
#[tactic(auto, unfolding(crate::specs::Tokens::is_single))]
fn is_single(b: u8) -> bool
    ensures { result ≡ tokens.is_single b }
{
    b == b'('
        || b == b')'
        || b == b'{'
        || b == b'}'
        || b == b','
        || b == b'.'
        || b == b';'
        || b == b'='
}

// The state, where the test holds.
fn when(test: bool, state: ScanState) -> Option<ScanState>
    ensures { result ≡ scanner.when test state }
{
    if test { Some(state) } else { None }
}

fn start(b: u8) -> Option<ScanState>
    ensures { result ≡ scanner.start b }
{
    if is_letter(b) {
        Some(ScanState::Name)
    } else if is_digit(b) {
        Some(ScanState::Digits)
    } else if is_single(b) {
        Some(ScanState::End(SqlKind::Sign))
    } else if b == b':' {
        Some(ScanState::Colon)
    } else if b == b'?' || b == b'$' {
        Some(ScanState::Sigil)
    } else if b == b'<' {
        Some(ScanState::Less)
    } else if b == b'>' {
        Some(ScanState::Greater)
    } else if b == b'!' {
        Some(ScanState::Bang)
    } else if b == b'^' {
        Some(ScanState::Caret)
    } else if b == b'-' {
        Some(ScanState::Minus)
    } else if b == b'\'' {
        Some(ScanState::Quote)
    } else {
        when(b == b'"', ScanState::Chars)
    }
}

// One state for a byte that passes the first test, and another for one that passes the second.
fn either(first: bool, one: ScanState, second: bool, other: ScanState) -> Option<ScanState>
    ensures { result ≡ scanner.either first one second other }
{
    if first {
        Some(one)
    } else {
        when(second, other)
    }
}

fn step(state: ScanState, b: u8) -> Option<ScanState>
    ensures { result ≡ scanner.step state b }
{
    match state {
        ScanState::Start => start(b),
        ScanState::Name => either(b == b':', ScanState::Colon, is_word(b), ScanState::Name),
        ScanState::Colon => when(is_local(b), ScanState::Run),
        ScanState::Run => either(b == b'.', ScanState::Dot, is_local(b), ScanState::Run),
        ScanState::Dot => when(is_local(b), ScanState::Run),
        ScanState::Sigil => when(is_letter(b), ScanState::Variable),
        ScanState::Variable => when(is_word(b), ScanState::Variable),
        ScanState::Less => either(
            b == b'>' || b == b'=',
            ScanState::End(SqlKind::Sign),
            is_alpha(b),
            ScanState::Scheme,
        ),
        ScanState::Scheme => either(
            b == b':',
            ScanState::Inside,
            is_scheme(b),
            ScanState::Scheme,
        ),
        ScanState::Inside => either(
            b == b'>',
            ScanState::End(SqlKind::Iri),
            is_iri(b),
            ScanState::Inside,
        ),
        ScanState::Minus => when(is_digit(b), ScanState::Digits),
        ScanState::Digits => when(is_digit(b), ScanState::Digits),
        ScanState::Quote => either(b == b'\'', ScanState::Closed, true, ScanState::Quote),
        ScanState::Closed => when(b == b'\'', ScanState::Quote),
        ScanState::Chars => chars(b),
        ScanState::Escape => when(b == b'"' || b == b'\\', ScanState::Chars),
        ScanState::Greater => when(b == b'=', ScanState::End(SqlKind::Sign)),
        ScanState::Bang => when(b == b'=', ScanState::End(SqlKind::Sign)),
        ScanState::Caret => when(b == b'^', ScanState::End(SqlKind::Sign)),
        ScanState::End(_) => None,
    }
}

fn chars(b: u8) -> Option<ScanState>
    ensures { result ≡ scanner.step ScanState.Chars b }
{
    if b == b'"' {
        Some(ScanState::End(SqlKind::Doubled))
    } else {
        either(b == b'\\', ScanState::Escape, true, ScanState::Chars)
    }
}

// The kind of a token that may end here.
fn accept(state: ScanState) -> Option<SqlKind>
    ensures { result ≡ scanner.accept state }
{
    match state {
        ScanState::Name => Some(SqlKind::Word),
        ScanState::Colon | ScanState::Run => Some(SqlKind::Pname),
        ScanState::Variable => Some(SqlKind::Var),
        ScanState::Less | ScanState::Greater => Some(SqlKind::Sign),
        ScanState::Digits => Some(SqlKind::Integer),
        ScanState::Closed => Some(SqlKind::Quoted),
        ScanState::End(kind) => Some(kind),
        _ => None,
    }
}

fn better(kind: Option<SqlKind>, size: usize, best: Option<Scanned>) -> Option<Scanned>
    ensures { result ≡ scanner.better kind size best }
{
    match kind {
        None => best,
        Some(kind) => Some(Scanned { kind, size }),
    }
}

/// The longest token that the bytes begin with, if they begin with one.
pub fn longest_token(bytes: &[u8]) -> Option<Scanned>
    ensures value { result ≡ scanner.longest ScanState.Start 0 None bytes.now }
    ensures within { ScannedWithin (length bytes.now) result }
{
    let mut state = ScanState::Start;
    let mut size = 0;
    let mut best = None;
    for b in bytes {
        match step(state, *b) {
            None => return best,
            Some(next) => {
                state = next;
                size += 1;
                best = better(accept(state), size, best);
            }
        }
    }
    best
}

/// How far blanks and comments go.
pub fn gap_of(bytes: &[u8]) -> usize
    ensures value { result ≡ scanner.gap_scan 0 Gap.Plain bytes.now }
    ensures within { result ≤ length bytes.now }
{
    let mut size = 0;
    let mut gap = Gap::Plain;
    for b in bytes {
        match between(gap, *b) {
            None => return size,
            Some((next, more)) => {
                gap = next;
                size += more;
            }
        }
    }
    size
}

// What a byte leaves open between tokens, and how many bytes are then read for certain; nothing where it is no part of a gap.
fn between(gap: Gap, b: u8) -> Option<(Gap, usize)>
    ensures value { result ≡ scanner.between gap b }
    ensures few { IfSome result (λ p. p.1 ≤ 2) }
{
    match gap {
        Gap::Plain => plain(b),
        Gap::Dash => {
            if b == b'-' {
                Some((Gap::Comment, 2))
            } else {
                None
            }
        }
        Gap::Comment => Some((in_comment(b), 1)),
    }
}

fn plain(b: u8) -> Option<(Gap, usize)>
    ensures value { result ≡ scanner.between Gap.Plain b }
    ensures few { IfSome result (λ p. p.1 ≤ 2) }
{
    if b == b'#' {
        Some((Gap::Comment, 1))
    } else if b == b'-' {
        Some((Gap::Dash, 0))
    } else if is_blank(b) {
        Some((Gap::Plain, 1))
    } else {
        None
    }
}

// A line feed ends a comment.
fn in_comment(b: u8) -> Gap
    ensures { result ≡ scanner.in_comment b }
{
    if b == b'\n' { Gap::Plain } else { Gap::Comment }
}
