//! A reader of lines over lent bytes.
ghost use Rattle.std.specs.Prelude.{◌+◌, ◌<◌, ◌^◌, length};

use crate::fault::ScanFault;
use crate::line::ReadLine;
use crate::scan::split_line;

/// A place in a file that is lent, as the bytes from there on, and the number of lines before it.
#[derive(Drop)]
pub struct Reader<'a> {
    rest: &'a [u8],
    line: usize,
    ghost counted: { line + length rest.now < 2 ^ 63 },
}

impl<'a> Reader<'a> {
    ghost use Rattle.std.specs.Prelude.{◌≡◌, Some, None};
    ghost use Rattle.text.specs.Spots.{Cut, Ended, Got, spot};

    /// A reader at the start of the bytes.
    pub fn new(src: &'a [u8]) -> Reader<'a>
        ensures { spot result ≡ record { rest = src.now; line = 0 } }
    {
        Reader { rest: src, line: 0 }
    }

    /// How many lines have been read.
    pub fn lines(&self) -> usize
        ensures { result ≡ (spot self.now).line }
    {
        self.line
    }

    // The next line, which is a part of the input.
    fn next(&mut self) -> Option<&'a [u8]>
        ensures { Cut self.old (elim result [ Some l ↦ Some l.now | None ↦ None ]) self.new }
    {
        let (line, rest) = split_line(self.rest)?;
        *self = Reader {
            rest,
            line: self.line + 1,
        };
        Some(line)
    }

    /// The next line as a record, or why it is none.
    pub fn read<R: ReadLine>(&mut self) -> Result<R, ScanFault>
        ensures { Got R.WriteLine.bytes self.old result self.new }
    {
        let n = self.line + 1;
        let line = self.next().ok_or(ScanFault::Lacking(n))?;
        R::read(line).ok_or(ScanFault::Form(n))
    }

    /// Whether nothing is left to read.
    pub fn end(&self) -> Result<(), ScanFault>
        ensures { Ended self.now result }
    {
        if self.rest.is_empty() {
            Ok(())
        } else {
            Err(ScanFault::Trailing(self.line + 1))
        }
    }
}
