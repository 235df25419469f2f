//! Texts that stand in the value.
ghost use Rattle.std.specs.Prelude.{◌≡◌, ◌≤◌, length};

use std::marker::Model;

/// The greatest number of bytes of a text that stands in the value.
pub(crate) const MOST_BYTES: usize = 14;

/// A text of at most so many bytes. Contracts see the list of them.
#[derive(Debug, Drop)]
pub(crate) struct ShortText {
    len: u8,
    bytes: [u8; 14],
}

impl Model for ShortText {
    ghost use Rattle.std.specs.Prelude.{◌≤◌, List, ℕ, take, IsUtf8};

    ghost Value = { List ℕ };

    ghost view = { λ s. take s.len s.bytes };

    ghost invariant = { λ s. (s.len ≤ 14) × IsUtf8 (take s.len s.bytes) };
}

impl ShortText {
    /// The text with these bytes.
    pub(crate) fn new(text: &str) -> ShortText
        requires { length text.now ≤ 14 }
        ensures { result ≡ text.now }
    {
        let mut bytes = [0; 14];
        bytes[..text.len()].copy_from_slice(text.as_bytes());
        ShortText {
            len: text.len() as u8,
            bytes,
        }
    }

    /// The text, lent.
    pub(crate) fn as_str(&self) -> &str
        ensures { result.now ≡ self.now }
    {
        unsafe { str::from_utf8_unchecked(&self.bytes[..self.len as usize]) }
    }
}
