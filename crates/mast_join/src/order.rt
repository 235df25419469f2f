//! The order in which entries are bound.
ghost use Rattle.std.specs.Prelude.{◌≡◌, true, false, IfNone, IfSome, length, get_or};
ghost use Rattle.mast_join.specs.inside.Joins.{IsJoin, IsLink, IsLinkOf, sources};
ghost use Rattle.mast_join.specs.inside.Partial.{IsTestOver, open_count};

use crate::comparisons::{Side, Test};
use crate::join::Join;
use mast_sql::Compare;

// An equality of an entry's column with a column of another entry.
#[derive(Clone, Copy)]
pub(crate) struct Link {
    pub(crate) column: usize,
    pub(crate) other: usize,
    pub(crate) other_column: usize,
}

// The equality of an entry's column with a bound entry's, if the comparison is one.
fn link_of(test: &Test<'_>, entry: usize, bound: &[bool]) -> Option<Link>
    ensures { IfSome result (IsLinkOf test.now bound.now entry) }
{
    if test.op != Compare::Equal {
        return None;
    }
    match &test.left {
        Side::Cell {
            entry: left,
            column: left_column,
        } => match &test.right {
            Side::Cell {
                entry: right,
                column: right_column,
            } => {
                if *left == entry && is_bound(*right, bound) {
                    return Some(Link {
                        column: *left_column,
                        other: *right,
                        other_column: *right_column,
                    });
                }
                if *right == entry && is_bound(*left, bound) {
                    return Some(Link {
                        column: *right_column,
                        other: *left,
                        other_column: *left_column,
                    });
                }
                None
            }
            _ => None,
        },
        _ => None,
    }
}

fn is_bound(entry: usize, bound: &[bool]) -> bool
    ensures { result ≡ get_or bound.now entry false }
{
    entry < bound.len() && bound[entry]
}

impl Join<'_> {
    // An equality of an entry's column with a bound entry's, if there is one.
    pub(crate) fn link(&self, entry: usize, bound: &[bool]) -> Option<Link>
        ensures { IfSome result (IsLink self.now bound.now entry) }
    {
        for test in &self.tests {
            let link = link_of(test, entry, bound);
            if link.is_some() {
                return link;
            }
        }
        None
    }

    // An entry that is not bound and that such an equality links to the bound ones, if there is one.
    fn linked(&self, bound: &[bool]) -> Option<usize>
        ensures { IfSome result (λ entry. get_or bound.now entry true ≡ false) }
    {
        for entry in 0..bound.len() {
            if !bound[entry] && self.link(entry, bound).is_some() {
                return Some(entry);
            }
        }
        None
    }

    // The entry that is bound next; none where all are.
    pub(crate) fn next(&self, bound: &[bool]) -> Option<usize>
        ensures next { IfSome result (λ entry. get_or bound.now entry true ≡ false) }
        ensures none { IfNone result (open_count bound.now ≡ 0) }
    {
        match self.linked(bound) {
            Some(entry) => Some(entry),
            None => first_open(bound),
        }
    }
}

// The first entry that is not bound.
fn first_open(bound: &[bool]) -> Option<usize>
    ensures next { IfSome result (λ entry. get_or bound.now entry true ≡ false) }
    ensures none { IfNone result (open_count bound.now ≡ 0) }
{
    for entry in 0..bound.len() {
        if !bound[entry] {
            return Some(entry);
        }
    }
    None
}
