//! Texts of bytes that are UTF-8.
ghost use Rattle.std.specs.Prelude.{◌≡◌, [], string_bytes};
ghost use Rattle.std.specs.Str.{IsUtf8};

use std::alloc::Global;

/// The bytes as a text; the empty text where they are not UTF-8.
pub fn as_text(bytes: &[u8]) -> &str
    ensures utf8 { IsUtf8 bytes.now → result.now ≡ bytes.now }
    ensures other { ¬ IsUtf8 bytes.now → result.now ≡ [] }
{
    match str::from_utf8(bytes) {
        Ok(text) => text,
        Err(_) => "",
    }
}

/// The bytes as a text, in their buffer; the empty text where they are not UTF-8. It takes no memory.
pub fn into_text(alloc: Global, bytes: Vec<u8>) -> String
    ensures utf8 { IsUtf8 bytes.items → string_bytes result ≡ bytes.items }
    ensures other { ¬ IsUtf8 bytes.items → string_bytes result ≡ [] }
{
    match String::from_utf8(bytes) {
        Ok(text) => text,
        Err(_) => String::new(alloc),
    }
}
