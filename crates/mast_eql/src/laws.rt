//! What holds of the rows of every query.
ghost use Rattle.mast_eql.specs.Laws.{ListsLaw, RangeLaw};

/// The same tuples satisfy the formula of a body whether `some` ranges over the terms of the lists and of the body, or
/// over all terms.
pub fn range_law()
    ensures { RangeLaw }
{}

/// Only the sets of the lists' rows matter, not their order, nor how often a row stands there.
pub fn lists_law()
    ensures { ListsLaw }
{}
