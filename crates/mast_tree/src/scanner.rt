//! The scanner: the longest token at the front of bytes, and how far blanks go. Each scan counts bytes from its front.
ghost use Rattle.std.specs.Prelude.{◌≡◌, ◌<◌, ◌+◌, ◌≤◌, false, length};
ghost use Rattle.mast_tree.specs.inside.Scanner as scans;
ghost use Rattle.mast_tree.specs.inside.Scanner.{EnclosedWithin, ScannedWithin};
ghost use Rattle.mast_tree.specs.Tokens as tokens;

use crate::{LexKind, TokenKind};

// What a scan that began behind a `<` or a quote finds.
#[derive(Clone, Copy)]
enum Enclosed {
    // How many bytes, up to and with the end.
    Whole(usize),
    // There is no end.
    Endless,
    // How many bytes before the first that may not stand there.
    Bad(usize),
}

// Space, tab, carriage return and line feed.
#[tactic(auto, unfolding(crate::specs::Tokens::is_blank))]
fn is_blank(b: u8) -> bool
    ensures { result ≡ tokens.is_blank b }
{
    b == b' ' || b == b'\t' || b == b'\r' || b == b'\n'
}

// Letters, digits, `_`, `-`, `.`, `:`, `%`, `?`, and each byte of a character from U+0080 on.
#[tactic(auto, unfolding(crate::specs::Tokens::is_name))]
fn is_name(b: u8) -> bool
    ensures { result ≡ tokens.is_name b }
{
    (b'a' <= b && b <= b'z')
        || (b'A' <= b && b <= b'Z')
        || (b'0' <= b && b <= b'9')
        || b == b'_'
        || b == b'-'
        || b == b'.'
        || b == b':'
        || b == b'%'
        || b == b'?'
        || b >= 128
}

// Letters, digits and `-`.
#[tactic(auto, unfolding(crate::specs::Tokens::is_lang))]
fn is_lang(b: u8) -> bool
    ensures { result ≡ tokens.is_lang b }
{
    (b'a' <= b && b <= b'z') || (b'A' <= b && b <= b'Z') || (b'0' <= b && b <= b'9') || b == b'-'
}

// What may stand between `<` and `>`: no blank, nothing below U+0020, and none of `<`, `>` and `"`.
#[tactic(auto, unfolding(crate::specs::Tokens::is_iri))]
fn is_iri(b: u8) -> bool
    ensures { result ≡ tokens.is_iri b }
{
    b > 32 && b != b'<' && b != b'>' && b != b'"'
}

// The bytes of a name.
fn scan_name(bytes: &[u8]) -> usize
    ensures value { result ≡ scans.name_scan 0 bytes.now }
    ensures within { result ≤ length bytes.now }
{
    let mut at = 0;
    for b in bytes {
        if !is_name(*b) {
            return at;
        }
        at += 1;
    }
    at
}

// The bytes of a language.
fn scan_lang(bytes: &[u8]) -> usize
    ensures value { result ≡ scans.lang_scan 0 bytes.now }
    ensures within { result ≤ length bytes.now }
{
    let mut at = 0;
    for b in bytes {
        if !is_lang(*b) {
            return at;
        }
        at += 1;
    }
    at
}

// What stands behind `<`.
fn scan_iri(bytes: &[u8]) -> Enclosed
    ensures value { result ≡ scans.iri_scan 0 bytes.now }
    ensures within { EnclosedWithin (length bytes.now) result }
{
    let mut at = 0;
    for b in bytes {
        if *b == b'>' {
            return Enclosed::Whole(at + 1);
        }
        if !is_iri(*b) {
            return Enclosed::Bad(at);
        }
        at += 1;
    }
    Enclosed::Endless
}

// What stands behind a quote. The byte that is bad stands behind a backslash.
fn scan_str(bytes: &[u8]) -> Enclosed
    ensures value { result ≡ scans.str_scan 0 false bytes.now }
    ensures within { EnclosedWithin (length bytes.now) result }
{
    let mut at = 0;
    let mut escaped = false;
    for b in bytes {
        if escaped {
            if *b != b'"' && *b != b'\\' {
                return Enclosed::Bad(at);
            }
            escaped = false;
        } else {
            if *b == b'"' {
                return Enclosed::Whole(at + 1);
            }
            escaped = *b == b'\\';
        }
        at += 1;
    }
    if escaped {
        Enclosed::Bad(at)
    } else {
        Enclosed::Endless
    }
}

/// Blanks and comments.
pub fn scan_blank(bytes: &[u8]) -> usize
    ensures value { result ≡ scans.blank_scan 0 false bytes.now }
    ensures within { result ≤ length bytes.now }
{
    let mut at = 0;
    let mut comment = false;
    for b in bytes {
        if comment {
            comment = *b != b'\n';
        } else {
            if *b == b'#' {
                comment = true;
            } else {
                if !is_blank(*b) {
                    return at;
                }
            }
        }
        at += 1;
    }
    at
}

/// What the scanner finds at the front of bytes.
#[derive(Clone, Copy)]
pub enum Scanned {
    /// A token, and how many bytes it takes.
    Token(TokenKind, usize),
    /// No token, for that reason, which is so many bytes away.
    Wrong(LexKind, usize),
}

// What stands behind `^`.
fn carets(rest: &[u8]) -> Scanned
    ensures value { result ≡ scans.scanned_carets rest.now }
    ensures within { ScannedWithin (length rest.now + 1) result }
{
    match rest {
        [b, ..] => {
            if *b == b'^' {
                Scanned::Token(TokenKind::Carets, 2)
            } else {
                Scanned::Wrong(LexKind::Character, 0)
            }
        }
        [] => Scanned::Wrong(LexKind::Character, 0),
    }
}

// What stands behind `@`.
fn lang(rest: &[u8]) -> Scanned
    requires { length rest.now < 4294967295 }
    ensures value { result ≡ scans.scanned_lang (scans.lang_scan 0 rest.now) }
    ensures within { ScannedWithin (length rest.now + 1) result }
{
    let n = scan_lang(rest);
    if n == 0 {
        Scanned::Wrong(LexKind::Character, 0)
    } else {
        Scanned::Token(TokenKind::Lang, n + 1)
    }
}

// The token of what stands behind `<`.
fn iri(enclosed: Enclosed, most: usize) -> Scanned
    requires enclosed { EnclosedWithin most enclosed }
    requires room { most < 4294967295 }
    ensures value { result ≡ scans.scanned_iri enclosed }
    ensures within { ScannedWithin (most + 1) result }
{
    match enclosed {
        Enclosed::Whole(n) => Scanned::Token(TokenKind::Iri, n + 1),
        Enclosed::Endless => Scanned::Wrong(LexKind::OpenIri, 0),
        Enclosed::Bad(_) => Scanned::Wrong(LexKind::OpenIri, 0),
    }
}

// The token of what stands behind a quote.
fn string(enclosed: Enclosed, most: usize) -> Scanned
    requires enclosed { EnclosedWithin most enclosed }
    requires room { most < 4294967295 }
    ensures value { result ≡ scans.scanned_str enclosed }
    ensures within { ScannedWithin (most + 1) result }
{
    match enclosed {
        Enclosed::Whole(n) => Scanned::Token(TokenKind::Str, n + 1),
        Enclosed::Endless => Scanned::Wrong(LexKind::OpenString, 0),
        Enclosed::Bad(n) => Scanned::Wrong(LexKind::Escape, n),
    }
}

/// The longest token at the front, or what is wrong there.
pub fn longest_token(bytes: &[u8]) -> Scanned
    requires { length bytes.now < 4294967295 }
    ensures value { result ≡ scans.longest_token bytes.now }
    ensures within { ScannedWithin (length bytes.now) result }
{
    match bytes {
        [] => Scanned::Wrong(LexKind::Character, 0),
        [b, rest @ ..] => {
            if *b == b'(' {
                Scanned::Token(TokenKind::Open, 1)
            } else if *b == b')' {
                Scanned::Token(TokenKind::Close, 1)
            } else if *b == b'=' {
                Scanned::Token(TokenKind::Equals, 1)
            } else if *b == b'^' {
                carets(rest)
            } else if *b == b'@' {
                lang(rest)
            } else if *b == b'<' {
                iri(scan_iri(rest), rest.len())
            } else if *b == b'"' {
                string(scan_str(rest), rest.len())
            } else if is_name(*b) {
                Scanned::Token(TokenKind::Name, scan_name(rest) + 1)
            } else {
                Scanned::Wrong(LexKind::Character, 0)
            }
        }
    }
}
