//! Cells of integer columns.
ghost use Rattle.std.specs.Prelude.{◌≡◌, ◌<◌, ◌≤◌, ◌^◌, ◌-◌, ◌∷◌, IfErr, IfOk};
ghost use Rattle.std.specs.Result.{result_ok};
ghost use Rattle.mast_terms.specs.Bytes.{hyphen, plus};
ghost use Rattle.mast_terms.specs.Cells.{IsLongestFront};
ghost use Rattle.mast_terms.specs.IntegerCell.{integer_of, IsInteger, magnitude, as_positive, as_negative};
ghost use Rattle.mast_terms.specs.inside.Digits.{NoSign, read_all_digits, LongestMagnitude};

/// The cell is no integer. `at` is the length of its longest front with which some accepted cell begins.
#[derive(Clone, Copy, Debug, PartialEq, Eq)]
pub struct BadInt {
    /// The length of that front, in bytes.
    pub at: usize,
}

/// The integer of a cell: an optional `+` or `-` and one or more decimal digits, from -2^63 to 2^63-1. So `007` is 7.
///
/// It is refused exactly where the cell is none, and takes no memory.
pub fn read_int(bytes: &[u8]) -> Result<i64, BadInt>
    ensures accepts { result_ok result ≡ integer_of bytes.now }
    ensures at { IfErr result (λ bad. IsLongestFront IsInteger bytes.now bad.at) }
{
    match bytes {
        [] => Err(BadInt { at: 0 }),
        [first, digits @ ..] => match *first {
            b'-' => read_negative(digits),
            b'+' => read_positive(digits),
            _ => read_unsigned(bytes),
        },
    }
}

// What follows a plus.
fn read_positive(digits: &[u8]) -> Result<i64, BadInt>
    ensures accepts { result_ok result ≡ as_positive (magnitude (2 ^ 63 - 1) digits.now) }
    ensures at { IfErr result (λ bad. IsLongestFront IsInteger (plus ∷ digits.now) bad.at) }
{
    match read_magnitude(digits, (1 << 63) - 1) {
        Ok(size) => Ok(size as i64),
        Err(at) => Err(BadInt { at: at + 1 }),
    }
}

// A whole cell without a sign.
fn read_unsigned(digits: &[u8]) -> Result<i64, BadInt>
    requires { NoSign digits.now }
    ensures accepts { result_ok result ≡ integer_of digits.now }
    ensures at { IfErr result (λ bad. IsLongestFront IsInteger digits.now bad.at) }
{
    match read_magnitude(digits, (1 << 63) - 1) {
        Ok(size) => Ok(size as i64),
        Err(at) => Err(BadInt { at }),
    }
}

// What follows a minus.
fn read_negative(digits: &[u8]) -> Result<i64, BadInt>
    ensures accepts { result_ok result ≡ as_negative (magnitude (2 ^ 63) digits.now) }
    ensures at { IfErr result (λ bad. IsLongestFront IsInteger (hyphen ∷ digits.now) bad.at) }
{
    match read_magnitude(digits, 1 << 63) {
        Ok(0) => Ok(0),
        Ok(size) => Ok(-((size - 1) as i64) - 1),
        Err(at) => Err(BadInt { at: at + 1 }),
    }
}

// The number of one or more digits, or the place from which they begin no number up to `most`.
fn read_magnitude(digits: &[u8], most: u64) -> Result<u64, usize>
    requires small { most < 2 ^ 64 - 1 }
    requires large { 9 ≤ most }
    ensures accepts { result_ok result ≡ magnitude most digits.now }
    ensures at { IfErr result (λ at. LongestMagnitude most digits.now at) }
    ensures bound { IfOk result (λ size. size ≤ most) }
{
    scan_digits(digits, most)
}

// The same, digit by digit.
fn scan_digits(digits: &[u8], most: u64) -> Result<u64, usize>
    requires small { most < 2 ^ 64 - 1 }
    requires large { 9 ≤ most }
    ensures read { result ≡ read_all_digits most digits.now }
    ensures bound { IfOk result (λ size. size ≤ most) }
{
    if digits.is_empty() {
        return Err(0);
    }
    let mut size = 0u64;
    for (at, digit) in digits.iter().enumerate() {
        if !digit.is_ascii_digit() {
            return Err(at);
        }
        let low = u64::from(*digit - b'0');
        if size > (most - low) / 10 {
            return Err(at);
        }
        size = size * 10 + low;
    }
    Ok(size)
}
