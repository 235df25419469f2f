//! What readers of a text that comes have in common: its byte order mark, its slices, its escapes, and where it stops being one.
//! The crates above rest on this: each call gives exactly what its definition says, for all bytes.
//! In `specs/`, `Bom`, `Slices`, `Escapes` and `Bytes` have the bytes, and `Grammar` the first thing that no text goes on with.
//! It must not know any form of tokens, nor any grammar; it stands on the standard library alone.
#![tactic(auto)]

mod bom;
mod escapes;
mod laws;
mod slices;
mod texts;

pub use bom::{behind_bom, bom_length};
pub use escapes::{has_escape, unescaped};
pub use laws::escape_law;
pub use slices::{between, inside};
pub use texts::{as_text, into_text};
