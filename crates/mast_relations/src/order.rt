//! In which order patterns are joined. It decides about time alone.
ghost use Rattle.std.specs.Prelude.{◌≡◌, ◌<◌, ◌≤◌, length};
ghost use Rattle.std.specs.List.{AllByRecursion};
ghost use Rattle.mast_relations.specs.Matches.{IsPattern};
ghost use Rattle.mast_relations.specs.Plans.{AreBelow};
ghost use Rattle.mast_relations.specs.Stores.{contents};

use crate::query::Pattern;
use crate::relation::Relation;
use crate::rows::RowSet;

// So many rows are looked at to see how often a number repeats in a column.
const SAMPLE: usize = 32;

// By it the rows that are looked at lie far from each other: 2^32 divided by the golden ratio, made odd.
const SCATTER: u32 = 0x9E37_79B1;

// A column's numbers in some of the rows.
fn sample(rows: &RowSet, column: usize) -> [u32; SAMPLE]
    requires some { 0 < length rows.now.list }
    requires column { column < rows.now.width }
{
    let mut numbers = [0; SAMPLE];
    for turn in 0..SAMPLE {
        let place = (turn as u32).wrapping_mul(SCATTER) % rows.len();
        numbers[turn] = rows.row(place)[column];
    }
    numbers
}

// How many numbers of a sample are that of one that comes after them.
fn alike(numbers: &[u32; SAMPLE], one: usize) -> u32
    requires { one < 32 }
    ensures { result ≤ 32 }
{
    let mut found = 0;
    for other in 0..one {
        if numbers[other] == numbers[one] {
            found += 1;
        }
    }
    found
}

// How many rows have one number of a column, guessed: that part of all rows in which two of the sample are alike.
fn repeats(rows: &RowSet, column: usize) -> u64
    requires some { 0 < length rows.now.list }
    requires column { column < rows.now.width }
{
    let numbers = sample(rows, column);
    let mut found = 0u32;
    for one in 0..SAMPLE {
        found += alike(&numbers, one);
    }
    rows.len() as u64 * found as u64 / (SAMPLE * (SAMPLE - 1) / 2) as u64
}

// How many rows a row that is bound leads to, guessed, and how many columns are bound.
fn reached(rows: &RowSet, variables: &[u32], bound: &[u32]) -> (u64, usize)
    requires { length variables.now ≡ rows.now.width }
    ensures { result.1 ≤ length variables.now }
{
    let mut least = rows.len() as u64;
    let mut known = 0usize;
    for (column, variable) in variables.iter().enumerate() {
        if bound.contains(variable) {
            known += 1;
            if rows.len() as usize > SAMPLE {
                least = least.min(repeats(rows, column));
            }
        }
    }
    (least, known)
}

// Which of the patterns come first: those that only filter, then those that what is bound leads to, by how many rows it leads to, and
// then the others; the smaller first.
fn rank(relations: &[Relation], pattern: &Pattern, bound: &[u32]) -> u64
    requires { IsPattern (contents relations.now) pattern.now }
{
    let variables = pattern.variables.as_slice();
    let rows = relations[pattern.relation as usize].rows();
    let (least, known) = reached(rows, variables, bound);
    let size = rows.len() as u64;
    if known == variables.len() {
        size
    } else if known > 0 {
        0x1_0000_0000 * (1 + least.min(0x1000_0000)) + size
    } else {
        0x8000_0000_0000_0000 + size
    }
}

// The place, among those that are left, of the pattern that is joined next.
pub(crate) fn choose(
    relations: &[Relation],
    patterns: &[Pattern],
    left: &[usize],
    bound: &[u32],
) -> usize
    requires patterns { AllByRecursion (IsPattern (contents relations.now)) patterns.now }
    requires left { AreBelow (length patterns.now) left.now }
    requires some { 0 < length left.now }
    ensures { result < length left.now }
{
    let mut best = 0;
    let mut least = u64::MAX;
    for (at, pattern) in left.iter().enumerate() {
        let rank = rank(relations, &patterns[*pattern], bound);
        if rank < least {
            best = at;
            least = rank;
        }
    }
    best
}
