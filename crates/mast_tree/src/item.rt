//! Items, and why tokens are none.
use sqlite_items::{Boxed, Items};

/// How many parentheses may be open.
pub const MOST_OPEN: usize = 64;

/// An item, by the numbers of its tokens, from 0: a name or an IRI alone, a string and its language or type,
/// a binding, or a node with a name and the items between its parentheses. (The box keeps each item as small as a leaf.)
#[derive(Debug, Drop)]
pub enum Item {
    Leaf {
        token: u32,
    },
    Iri {
        token: u32,
    },
    Str {
        token: u32,
        tag: Option<u32>,
    },
    Bind {
        token: u32,
        iri: u32,
    },
    Node {
        token: u32,
        items: Boxed<Items<Item>>,
    },
}

/// Why tokens are no document.
#[derive(Clone, Copy, Debug, PartialEq, Eq)]
pub enum TreeKind {
    /// Some document begins with the tokens before, and none with this one as well.
    Unexpected,
    /// The parenthesis would be one more than may be open.
    Deep,
}

/// The first breach of the grammar: the number of its token, from 0, and the kind.
#[derive(Clone, Copy, Debug, PartialEq, Eq)]
pub struct TreeBreach {
    pub token: u32,
    pub kind: TreeKind,
}
