//! What a byte is to the scanner, and where a line or a field ends.
ghost use Rattle.std.specs.Prelude.{◌≡◌, ◌≤◌, ℕ, length, Some, None};
ghost use Rattle.text.specs.Signs.{First, Signs, Split};

/// What a byte is to the scanner.
#[derive(Clone, Copy, PartialEq, Eq, Debug)]
pub enum Sign {
    /// A decimal digit, with its value.
    Digit(u8),
    /// The end of a field.
    Semicolon,
    /// The end of a line.
    LineFeed,
    /// Any other byte.
    Other,
}

/// What a byte is to the scanner.
impl From<u8> for Sign {
    ghost from_gives = { Signs };

    fn from(byte: u8) -> Sign {
        match byte as char {
            '0'..='9' => Sign::Digit(byte - b'0'),
            ';' => Sign::Semicolon,
            '\n' => Sign::LineFeed,
            _ => Sign::Other,
        }
    }
}

// The end of the text is a place where a line or a field ends, so there is no `Option` here. Twice, by two closures: what a
// byte is is said by `Sign` alone, as a rule, and a function over a sign would name it by a number in its contract.
/// Where a line ends: the index of the first line feed, or the length.
pub fn line_end(s: &[u8]) -> usize
    ensures { First 10 s.now result }
{
    let end = s
        .iter()
        .position(|b| matches!(Sign::from(*b), Sign::LineFeed));
    end.unwrap_or(s.len())
}

/// Where a field ends: the index of the first semicolon, or the length.
pub fn field_end(s: &[u8]) -> usize
    ensures { First 59 s.now result }
{
    let end = s
        .iter()
        .position(|b| matches!(Sign::from(*b), Sign::Semicolon));
    end.unwrap_or(s.len())
}

// What stands before the place `k`, and what after its byte, if there is one.
fn around<'a>(s: &'a [u8], k: usize) -> Option<(&'a [u8], &'a [u8])>
    requires { k ≤ length s.now }
    ensures { (c : ℕ) → First c s.now k → Split c s.now (elim result [ Some p ↦ Some (p.0.now, p.1.now) | None ↦ None ]) }
{
    let rest = s.get(k + 1..)?;
    Some((&s[..k], rest))
}

// The first line, and what follows its line feed.
pub(crate) fn split_line<'a>(s: &'a [u8]) -> Option<(&'a [u8], &'a [u8])>
    ensures { Split 10 s.now (elim result [ Some p ↦ Some (p.0.now, p.1.now) | None ↦ None ]) }
{
    around(s, line_end(s))
}

// The first field, and what follows its semicolon.
pub(crate) fn split_field<'a>(s: &'a [u8]) -> Option<(&'a [u8], &'a [u8])>
    ensures { Split 59 s.now (elim result [ Some p ↦ Some (p.0.now, p.1.now) | None ↦ None ]) }
{
    around(s, field_end(s))
}
