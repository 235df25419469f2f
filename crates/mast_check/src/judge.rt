//! The test of a violation, on rows of numbers.
ghost use Rattle.std.specs.Prelude.{◌≡◌, slice_get};
ghost use Rattle.mast_check.specs.inside.Judging.{differ, is_other, kind_there, passes_by, term_there};

use mast_join::Extensions;
use mast_relations::Test;
use mast_terms::Kind;
use mast_violate::Test as ViolationTest;

/// Tells which rows of numbers stand for tuples that pass a test. A term has one number, so terms differ where numbers do.
#[derive(Drop)]
pub(crate) struct Judge<'e, 's, 'u, 't, 'o> {
    pub(crate) test: ViolationTest,
    pub(crate) extensions: &'e Extensions<'s, 'u, 't, 'o>,
}

impl Test for Judge<'_, '_, '_, '_, '_> {
    ghost passes = { λ judge answer. passes_by judge.extensions.now.numbered.terms judge.test answer };

    fn passes(&self, answer: &[u32]) -> bool {
        match self.test {
            ViolationTest::Plain => true,
            ViolationTest::Differ { left, right } => are_apart(answer, left, right),
            ViolationTest::KindNot { at, kind } => self.is_of_other(answer, at, kind),
        }
    }
}

impl Judge<'_, '_, '_, '_, '_> {
    // Whether the term at the place is a value of another kind.
    fn is_of_other(&self, answer: &[u32], at: usize, kind: Kind) -> bool
        ensures { result ≡ is_other kind (kind_there (term_there self.now.extensions.now.numbered.terms (slice_get answer.now at))) }
    {
        match answer.get(at) {
            Some(number) => match self.kind(*number) {
                Some(found) => found != kind,
                None => false,
            },
            None => false,
        }
    }

    // The kind of a number's term, where it has one and is a value.
    fn kind(&self, number: u32) -> Option<Kind>
        ensures { result ≡ kind_there (slice_get self.now.extensions.now.numbered.terms number) }
    {
        if (number as usize) < self.extensions.count() {
            self.extensions.kind(number)
        } else {
            None
        }
    }
}

// Whether the numbers at two places differ.
fn are_apart(answer: &[u32], left: usize, right: usize) -> bool
    ensures { result ≡ differ (slice_get answer.now left) (slice_get answer.now right) }
{
    match (answer.get(left), answer.get(right)) {
        (Some(one), Some(other)) => *one != *other,
        (Some(_), None) | (None, Some(_)) | (None, None) => false,
    }
}
