//! Cells of date columns.
ghost use Rattle.std.specs.Prelude.{◌≡◌, ◌+◌, ◌-◌, ◌*◌, ◌≤◌, ◌↔◌, ◌∷◌, ◌++◌, drop, length, IsTrue, IfOk, IfErr};
ghost use Rattle.mast_terms.specs.Calendar.{IsDay, days_of};
ghost use Rattle.mast_terms.specs.Cells.{IsLongestFront};
ghost use Rattle.mast_terms.specs.DateCell.{IsDateText};
ghost use Rattle.mast_terms.specs.Printed.{two_digits, date_text};
ghost use Rattle.mast_terms.specs.inside.DateParts.{After, Stops, NotShown, BeginsNumber, EndsNumber, year_text, dashed};

use crate::Date;
use crate::date::days_in_month;

/// The cell is no date. `at` is the length of its longest front with which some accepted cell begins.
#[derive(Clone, Copy, Debug, PartialEq, Eq)]
pub struct BadDate {
    /// The length of that front, in bytes.
    pub at: usize,
}

/// The date of a cell `yyyy-mm-dd`, of the Gregorian calendar from 0001 to 9999.
///
/// It is refused exactly where the cell is the text of no date, and takes no memory.
pub fn read_date(bytes: &[u8]) -> Result<Date, BadDate>
    ensures accepts { IfOk result (λ date. bytes.now ≡ date_text date) }
    ensures refuses { IfErr result (λ bad. IsDateText bytes.now → ⊥) }
    ensures at { IfErr result (λ bad. IsLongestFront IsDateText bytes.now bad.at) }
{
    match read_two_digits(bytes, 0, 99) {
        Err(at) => Err(BadDate { at }),
        Ok(century) => match read_year(&bytes[2..], century) {
            Ok(date) => Ok(date),
            Err(at) => Err(BadDate { at: 2 + at }),
        },
    }
}

// What follows the first two digits of the year.
fn read_year(bytes: &[u8], century: u8) -> Result<Date, usize>
    requires { century ≤ 99 }
    ensures accepts { IfOk result (λ date. two_digits century ++ bytes.now ≡ date_text date) }
    ensures stops { IfErr result (λ at. Stops (After (two_digits century)) bytes.now at) }
{
    // There is no year 0.
    let least = u8::from(century == 0);
    match read_two_digits(bytes, least, 99) {
        Err(at) => Err(at),
        Ok(year) => {
            match read_month(&bytes[2..], u16::from(century) * 100 + u16::from(year)) {
                Ok(date) => Ok(date),
                Err(at) => Err(2 + at),
            }
        }
    }
}

// What follows the year.
fn read_month(bytes: &[u8], year: u16) -> Result<Date, usize>
    requires from { 1 ≤ year }
    requires to { year ≤ 9999 }
    ensures accepts { IfOk result (λ date. year_text year ++ bytes.now ≡ date_text date) }
    ensures stops { IfErr result (λ at. Stops (After (year_text year)) bytes.now at) }
{
    match read_dashed(bytes, 12) {
        Err(at) => Err(at),
        Ok(month) => match read_day(&bytes[3..], year, month) {
            Ok(date) => Ok(date),
            Err(at) => Err(3 + at),
        },
    }
}

// What follows the month.
fn read_day(bytes: &[u8], year: u16, month: u8) -> Result<Date, usize>
    requires year_from { 1 ≤ year }
    requires year_to { year ≤ 9999 }
    requires month_from { 1 ≤ month }
    requires month_to { month ≤ 12 }
    ensures accepts { IfOk result (λ date. year_text year ++ dashed month ++ bytes.now ≡ date_text date) }
    ensures stops { IfErr result (λ at. Stops (After (year_text year ++ dashed month)) bytes.now at) }
{
    match read_dashed(bytes, days_in_month(year, month)) {
        Err(at) => Err(at),
        Ok(day) => {
            let date = Date { year, month, day };
            if bytes.len() > 3 { Err(3) } else { Ok(date) }
        }
    }
}

// A dash and a number of two digits from 1 on.
fn read_dashed(bytes: &[u8], most: u8) -> Result<u8, usize>
    requires large { 9 ≤ most }
    requires small { most ≤ 99 }
    ensures least { IfOk result (λ number. 1 ≤ number) }
    ensures most { IfOk result (λ number. number ≤ most) }
    ensures shown { IfOk result (λ number. bytes.now ≡ dashed number ++ drop 3 bytes.now) }
    ensures stops { IfErr result (λ at. NotShown dashed 1 most bytes.now at) }
{
    match bytes {
        [] => Err(0),
        [first, digits @ ..] => {
            if *first != b'-' {
                return Err(0);
            }
            match read_two_digits(digits, 1, most) {
                Ok(number) => Ok(number),
                Err(at) => Err(1 + at),
            }
        }
    }
}

// A number of two digits.
fn read_two_digits(bytes: &[u8], least: u8, most: u8) -> Result<u8, usize>
    requires least { least ≤ 1 }
    requires large { 9 ≤ most }
    requires small { most ≤ 99 }
    ensures least { IfOk result (λ number. least ≤ number) }
    ensures most { IfOk result (λ number. number ≤ most) }
    ensures shown { IfOk result (λ number. bytes.now ≡ two_digits number ++ drop 2 bytes.now) }
    ensures stops { IfErr result (λ at. NotShown two_digits least most bytes.now at) }
{
    match bytes {
        [] => Err(0),
        [tens, rest @ ..] => {
            if begins_number(*tens, most) {
                read_last_digit(rest, *tens, least, most)
            } else {
                Err(0)
            }
        }
    }
}

// The second digit of a number.
fn read_last_digit(bytes: &[u8], tens: u8, least: u8, most: u8) -> Result<u8, usize>
    requires least { least ≤ 1 }
    requires large { 9 ≤ most }
    requires small { most ≤ 99 }
    requires tens { BeginsNumber most tens }
    ensures least { IfOk result (λ number. least ≤ number) }
    ensures most { IfOk result (λ number. number ≤ most) }
    ensures shown { IfOk result (λ number. tens ∷ bytes.now ≡ two_digits number ++ drop 1 bytes.now) }
    ensures stops { IfErr result (λ at. NotShown two_digits least most (tens ∷ bytes.now) at) }
{
    match bytes {
        [] => Err(1),
        [ones, ..] => {
            if ends_number(tens, *ones, least, most) {
                Ok(10 * (tens - b'0') + (*ones - b'0'))
            } else {
                Err(1)
            }
        }
    }
}

fn begins_number(tens: u8, most: u8) -> bool
    requires { most ≤ 99 }
    ensures { IsTrue result ↔ BeginsNumber most tens }
{
    tens >= b'0' && tens <= b'0' + most / 10
}

fn ends_number(tens: u8, ones: u8, least: u8, most: u8) -> bool
    requires most { most ≤ 99 }
    requires tens { BeginsNumber most tens }
    ensures { IsTrue result ↔ EndsNumber least most tens ones }
{
    ones.is_ascii_digit()
        && least <= 10 * (tens - b'0') + (ones - b'0')
        && 10 * (tens - b'0') + (ones - b'0') <= most
}
