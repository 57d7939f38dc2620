//! Numbers of a file: read from a field's digits and written as digits.
ghost use Rattle.std.specs.Prelude.{◌≡◌, ◌+◌, ◌<◌, ◌≤◌, length, decimal};
ghost use Rattle.text.specs.Digits.{Digit, Following, Scanned};
ghost use Rattle.text.specs.Page.{over};

use crate::scan::Sign;

/// A number of a file: at most five digits.
#[derive(Clone, Copy, PartialEq, Eq, Debug)]
pub struct Number {
    value: u32,
    ghost five: { value < 100000 },
}

impl Number {
    ghost use Rattle.text.specs.Line.{Accepts};
    ghost use Rattle.text.specs.Number.{Below, written, zero_number};

    /// Numbers are below this: they have at most five digits.
    pub const LIMIT: u32 = 100000;

    /// The number, if it has at most five digits.
    pub fn new(value: u32) -> Option<Number>
        ensures { Below value result }
    {
        // An `if`: a closure for `then` would not know that the value is small enough.
        if value < Self::LIMIT {
            Some(Number { value })
        } else {
            None
        }
    }

    // By these names and not `Default`, `From`: their contracts say the value, and lines are proved from them.
    /// The number 0.
    pub fn zero() -> Number
        ensures { result ≡ zero_number }
    {
        Number { value: 0 }
    }

    /// The number as an integer.
    pub fn get(self) -> u32
        ensures { result ≡ self.value }
    {
        self.value
    }

    /// The number that a field is written of: one to five digits, with no needless 0 in front.
    pub fn read(field: &[u8]) -> Option<Number>
        ensures { Accepts written field.now result }
    {
        let value = scan_digits(field)?;
        Some(Number { value })
    }
}

// The value of a digit.
fn digit(byte: u8) -> Option<u32>
    ensures { Digit byte result }
{
    match Sign::from(byte) {
        Sign::Digit(d) => Some(u32::from(d)),
        Sign::Semicolon | Sign::LineFeed | Sign::Other => None,
    }
}

// The field's digits, by its first byte and the rest.
fn scan_digits(field: &[u8]) -> Option<u32>
    ensures { Scanned field.now result }
{
    match field {
        [] | [b'0', _, ..] => None,
        [first, rest @ ..] => scan_rest(digit(*first)?, rest),
    }
}

// At most four digits more after one.
fn scan_rest(start: u32, rest: &[u8]) -> Option<u32>
    requires { start < 10 }
    ensures { Following start rest.now result }
{
    if rest.len() > 4 {
        return None;
    }
    // A `for`: in a `try_fold` nothing bounds the number so far.
    let mut n = start;
    for b in rest {
        n = n * 10 + digit(*b)?;
    }
    Some(n)
}

// By hand and not by `Display`, which would want memory for the text. The limit is a clause: each step has another number.
// Writes a number at the start of a page; how many digits it has.
#[tactic(auto, using(crate::specs::DigitsLemmas::one_digit, crate::specs::DigitsLemmas::more_digits))]
pub(crate) fn write_digits(n: u32, page: &mut [u8]) -> usize
    requires n_bound { n < 100000 }
    requires n_in_bounds { length (decimal n) ≤ length page.old }
    ensures value { result ≡ length (decimal n) }
    ensures page_after { page.new ≡ over (decimal n) page.old }
{
    if n < 10 {
        page[0] = b'0' + n as u8;
        return 1;
    }
    let size = write_digits(n / 10, page);
    page[size] = b'0' + (n % 10) as u8;
    size + 1
}

// By comparisons, since a line is sized more than once before it is written: there is no text to take the length of.
// How many digits a number has.
pub(crate) fn count_digits(n: u32) -> usize
    requires { n < 100000 }
    ensures { result ≡ length (decimal n) }
{
    1 + (n >= 10) as usize + (n >= 100) as usize + (n >= 1000) as usize + (n >= 10000) as usize
}
