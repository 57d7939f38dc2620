//! What a reader finds wrong.
ghost use Rattle.std.specs.Prelude.{◌≡◌};
ghost use Rattle.text.specs.Faults.{line_of_fault};

// Each case with its line: a struct of a kind and a line would say no less, and callers would match twice.
/// What a reader found, with the line from 1 that it was found in.
#[derive(Clone, Copy, PartialEq, Eq, Debug)]
pub enum ScanFault {
    /// The line is not in its form.
    Form(usize),
    /// The line or its line feed is lacking.
    Lacking(usize),
    /// Bytes follow the last line.
    Trailing(usize),
}

impl ScanFault {
    /// The line, from 1.
    pub fn line(self) -> usize
        ensures { result ≡ line_of_fault self }
    {
        match self {
            ScanFault::Form(line) | ScanFault::Lacking(line) | ScanFault::Trailing(line) => line,
        }
    }
}
