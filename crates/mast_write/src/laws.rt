//! What the definitions promise by themselves.
ghost use Rattle.mast_write.specs.Laws.{HaveOneText, HaveText, TuplesHaveLines};

/// A law: each list of lines has a text, and two sets of lines with the same members have the same text.
pub fn texts_are_one()
    ensures some { HaveText }
    ensures one { HaveOneText }
{}

/// A law: two different tuples of one width, whose object symbols are identifiers, have different lines.
pub fn tuples_have_lines()
    ensures { TuplesHaveLines }
{}
