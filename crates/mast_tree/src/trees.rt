//! Trees while they grow: the items so far, inside the nodes that are open.
ghost use Rattle.std.specs.Prelude.{◌≡◌, ◌<◌, ◌++◌, ◌∷◌, [], length, OnOk, IfOk};
ghost use Rattle.mast_tree.specs.inside.Growth.{opened, Closes, EndsWith, ReadsOn, StartsOn};

use crate::parser::ParseState;
use crate::{Item, Token, TokenKind};
use mast_terms::{List, NoMemory};
use sqlite_items::{Boxed, Items};
use std::alloc::Global;
use std::mem;

/// A node whose parenthesis is open: the items before it, and its name's token.
#[derive(Drop)]
pub struct Frame {
    items: List<Item>,
    token: u32,
}

/// The open nodes, the outermost first; the items inside the innermost; and the first token of an item that is begun.
#[derive(Drop)]
pub struct Trees {
    frames: Items<Frame>,
    items: List<Item>,
    first: u32,
}

// Up to so many items of a node are moved into a new buffer of their size, so that the one in which they grew serves the next
// node. A copy of more would take as much again: they get room for all of them where the node ends near, and what is too much
// is given back where it stands.
const FEW: usize = 4096;

// How many tokens are looked at to see where a node ends, for each item that it has so far. So all looking is linear, and a
// node of which no end is seen is small beside its document.
const NEAR: usize = 16;

// How many items at most stand before the parenthesis that closes or the end, with one that may be begun. None where neither is
// among the first `near` tokens.
fn items_ahead(tokens: &[Token], near: usize) -> Option<usize> {
    let mut left = near;
    let mut depth: usize = 0;
    let mut count: usize = 1;
    for token in tokens {
        if left == 0 {
            return None;
        }
        left -= 1;
        match token.kind {
            TokenKind::Open => depth = depth.wrapping_add(1),
            TokenKind::Close => {
                if depth == 0 {
                    return Some(count);
                }
                depth -= 1;
            }
            TokenKind::Name | TokenKind::Iri | TokenKind::Str => {
                if depth == 0 {
                    count = count.wrapping_add(1);
                }
            }
            _ => {}
        }
    }
    Some(count)
}

// The items, in a buffer of their size.
fn trimmed(alloc: Global, items: List<Item>) -> Result<Items<Item>, NoMemory>
    ensures { IfOk result (λ same. same ≡ items) }
{
    let mut grown = items.into_vec();
    if grown.len() > FEW {
        grown.shrink_to_fit();
        return Ok(Items::from_vec(grown));
    }
    let mut exact = Vec::with_capacity(alloc, grown.len())?;
    exact.append(&mut grown)?;
    Ok(Items::from_vec(exact))
}

impl Trees {
    /// No items.
    pub fn new(alloc: Global) -> Trees
        ensures frames { result.frames ≡ [] }
        ensures items { result.items ≡ [] }
    {
        Trees {
            frames: Items::new(alloc),
            items: List::new(alloc),
            first: 0,
        }
    }

    // Puts an item at the end of the innermost node.
    fn push(&mut self, alloc: Global, item: Item) -> Result<(), NoMemory>
        ensures items { OnOk result (self.new.items ≡ self.old.items ++ item ∷ []) }
        ensures frames { self.new.frames ≡ self.old.frames }
        ensures first { self.new.first ≡ self.old.first }
    {
        self.items.push(alloc, item)?;
        Ok(())
    }

    /// Takes room for the items ahead where the innermost node has many and its buffer is full: for all where its end is near,
    /// and else for as many again. The tokens from number `at` on are not read yet.
    pub fn make_room(&mut self, alloc: Global, tokens: &[Token], at: u32)
        ensures same { self.new ≡ self.old }
    {
        let len = self.items.as_slice().len();
        if len < FEW || !len.is_power_of_two() {
            return;
        }
        let mut items = mem::replace(&mut self.items, List::new(alloc)).into_vec();
        if items.capacity() == len {
            let ahead = tokens.get(at as usize..).unwrap_or(tokens);
            let more = items_ahead(ahead, len.saturating_mul(NEAR)).unwrap_or(len);
            // Without memory for them the buffer stays as it is.
            let _ = items.reserve_exact(more);
        }
        self.items = List::from_vec(items);
    }

    // Opens a node, whose name was begun.
    fn open(&mut self, alloc: Global) -> Result<(), NoMemory>
        ensures items { OnOk result (self.new.items ≡ []) }
        ensures frames { OnOk result (self.new.frames ≡ opened self.old) }
    {
        let items = mem::replace(&mut self.items, List::new(alloc));
        self.frames.push(Frame {
            items,
            token: self.first,
        })?;
        Ok(())
    }

    // Closes the innermost node.
    fn close(&mut self, alloc: Global) -> Result<(), NoMemory>
        ensures { OnOk result (0 < length self.old.frames → Closes self.old self.new) }
    {
        match self.frames.pop() {
            None => Ok(()),
            Some(Frame { items, token }) => {
                let inside = mem::replace(&mut self.items, items);
                let items = Boxed::new(alloc, trimmed(alloc, inside)?)?;
                self.push(alloc, Item::Node { token, items })
            }
        }
    }

    // Reads the first token of an item, or a parenthesis that closes.
    fn start(&mut self, alloc: Global, kind: TokenKind, at: u32) -> Result<(), NoMemory>
        ensures { OnOk result (StartsOn self.old self.new kind at) }
    {
        match kind {
            TokenKind::Iri => self.push(alloc, Item::Iri { token: at }),
            TokenKind::Close => self.close(alloc),
            _ => {
                self.first = at;
                Ok(())
            }
        }
    }

    // Reads a token behind a name.
    fn after_name(&mut self, alloc: Global, kind: TokenKind, at: u32) -> Result<(), NoMemory>
        ensures { OnOk result (ReadsOn ParseState.AfterName self.old self.new kind at) }
    {
        match kind {
            TokenKind::Equals => Ok(()),
            TokenKind::Open => self.open(alloc),
            _ => {
                self.push(alloc, Item::Leaf { token: self.first })?;
                self.start(alloc, kind, at)
            }
        }
    }

    // Reads a token behind a string.
    fn after_str(&mut self, alloc: Global, kind: TokenKind, at: u32) -> Result<(), NoMemory>
        ensures { OnOk result (ReadsOn ParseState.AfterStr self.old self.new kind at) }
    {
        match kind {
            TokenKind::Carets => Ok(()),
            TokenKind::Lang => self.push(
                alloc,
                Item::Str {
                    token: self.first,
                    tag: Some(at),
                },
            ),
            _ => {
                self.push(
                    alloc,
                    Item::Str {
                        token: self.first,
                        tag: None,
                    },
                )?;
                self.start(alloc, kind, at)
            }
        }
    }

    /// Reads a token, which the parser allows in the state.
    pub fn read(
        &mut self,
        alloc: Global,
        state: ParseState,
        kind: TokenKind,
        at: u32,
    ) -> Result<(), NoMemory>
        ensures { OnOk result (ReadsOn state self.old self.new kind at) }
    {
        match state {
            ParseState::Item => self.start(alloc, kind, at),
            ParseState::AfterName => self.after_name(alloc, kind, at),
            ParseState::AfterStr => self.after_str(alloc, kind, at),
            ParseState::AfterCarets => self.push(
                alloc,
                Item::Str {
                    token: self.first,
                    tag: Some(at),
                },
            ),
            ParseState::AfterEquals => self.push(
                alloc,
                Item::Bind {
                    token: self.first,
                    iri: at,
                },
            ),
        }
    }

    /// The items, in a state where a document may end.
    pub fn finish(self, alloc: Global, state: ParseState) -> Result<Items<Item>, NoMemory>
        ensures { IfOk result (λ items. EndsWith state self items) }
    {
        let Trees {
            frames: _,
            mut items,
            first,
        } = self;
        match state {
            ParseState::AfterName => {
                items.push(alloc, Item::Leaf { token: first })?;
                Ok(Items::from_vec(items.into_vec()))
            }
            ParseState::AfterStr => {
                items.push(
                    alloc,
                    Item::Str {
                        token: first,
                        tag: None,
                    },
                )?;
                Ok(Items::from_vec(items.into_vec()))
            }
            _ => Ok(Items::from_vec(items.into_vec())),
        }
    }
}
