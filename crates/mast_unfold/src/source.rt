//! Sources.
use mast_cq::Atom;

/// A source of an atom: a member of `Down` of it, and the number of a split map whose head may become the member.
#[derive(Clone, Copy, Debug, PartialEq, Eq, PartialOrd, Ord, Hash)]
pub struct Source {
    /// The member.
    pub member: Atom,
    /// The number of the map, from 0.
    pub map: u32,
}
