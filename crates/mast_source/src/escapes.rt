//! The escapes of a text in double quotes.
ghost use Rattle.std.specs.Prelude.{◌≡◌, false, IfOk};
ghost use Rattle.mast_source.specs.Escapes as escapes;

use std::alloc::{AllocError, Global};

/// Whether there is a backslash.
pub fn has_escape(bytes: &[u8]) -> bool
    ensures { result ≡ escapes.has_escape bytes.now }
{
    for b in bytes {
        if *b == b'\\' {
            return true;
        }
    }
    false
}

/// The bytes without the backslashes that escape.
pub fn unescaped(alloc: Global, bytes: &[u8]) -> Result<Vec<u8>, AllocError>
    ensures { IfOk result (λ text. text.items ≡ escapes.unescaped bytes.now) }
{
    let mut text = Vec::with_capacity(alloc, bytes.len())?;
    let mut escaped = false;
    for b in bytes {
        if !escaped && *b == b'\\' {
            escaped = true;
        } else {
            escaped = false;
            text.push(*b)?;
        }
    }
    Ok(text)
}
