//! The texts of a document's tokens.
ghost use Rattle.std.specs.Prelude.{◌≡◌, slice_get, IfOk};
ghost use Rattle.std.specs.Str.{IsUtf8};
ghost use Rattle.mast_source.specs.Escapes as escapes;
ghost use Rattle.mast_tree.specs.Words.{line_of, word_of, text_of, HasWord, HasText};

use crate::{Doc, Token, TokenKind};
use mast_source::{as_text, between, has_escape, inside, into_text, unescaped};
use mast_terms::{NoMemory, Text};
use std::alloc::Global;

impl<'a> Doc<'a> {
    // A token, if there is one of that number.
    fn token(&self, token: u32) -> Option<Token>
        ensures { result ≡ slice_get self.now.tokens.now token }
    {
        self.tokens.get(token as usize).copied()
    }

    // The line of a token.
    pub(crate) fn line(&self, token: u32) -> u32
        ensures { result ≡ line_of self.now.tokens.now token }
    {
        match self.token(token) {
            None => 1,
            Some(t) => t.line,
        }
    }

    /// The text of a name's token, or that of an IRI's without its brackets.
    pub fn word(&self, token: u32) -> &'a str
        ensures value { result.now ≡ word_of self.now.source.now self.now.tokens.now token }
        ensures form { HasWord self.now.source.now self.now.tokens.now token result.now }
    {
        match self.token(token) {
            None => "",
            Some(t) => {
                let bytes = between(self.source, t.from as usize, t.to as usize);
                match t.kind {
                    TokenKind::Iri => as_text(inside(bytes)),
                    _ => as_text(bytes),
                }
            }
        }
    }

    /// The text of a string's token, without its quotes and its escapes; the empty text of any other.
    pub fn text(&self, alloc: Global, token: u32) -> Result<Text, NoMemory>
        ensures value { IfOk result (λ text. text ≡ text_of self.now.source.now self.now.tokens.now token) }
        ensures form { IfOk result (λ text. HasText self.now.source.now self.now.tokens.now token text) }
    {
        match self.token(token) {
            None => Text::from_str(alloc, ""),
            Some(t) => match t.kind {
                TokenKind::Str => {
                    let bytes = between(self.source, t.from as usize, t.to as usize);
                    string_text(alloc, inside(bytes))
                }
                _ => Text::from_str(alloc, ""),
            },
        }
    }
}

// The text that stands between quotes, without its escapes.
#[tactic(auto, using(mast_source::proofs::EscapeLemmas::unescaped_same))]
fn string_text(alloc: Global, chars: &[u8]) -> Result<Text, NoMemory>
    requires utf8 { IsUtf8 chars.now }
    requires plain { IsUtf8 (escapes.unescaped chars.now) }
    ensures { IfOk result (λ text. text ≡ escapes.unescaped chars.now) }
{
    if has_escape(chars) {
        let text = unescaped(alloc, chars)?;
        Text::from_string(alloc, into_text(alloc, text))
    } else {
        Text::from_str(alloc, as_text(chars))
    }
}
