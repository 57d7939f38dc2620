//! Lines that can be written, and lines that can be read too.
ghost use Rattle.std.specs.Prelude.{◌≡◌, ℕ, ◌+◌, ◌≤◌, List, length};
ghost use Rattle.text.specs.declared.field.Field.{Field};
ghost use Rattle.text.specs.Fields.{line_of};
ghost use Rattle.text.specs.FieldsLemmas.{five_short, line_plain};
ghost use Rattle.text.specs.Line.{Accepts};
ghost use Rattle.text.specs.Page.{Lacks, Wrote};

use crate::field::{Field, fields_size, write_fields};
use std::convert::AsSlice;

/// A line that can be written. Its bytes are without the line feed.
pub trait WriteLine: Sized {
    ghost bytes: { Self → List ℕ };

    /// How many bytes the line has.
    fn size(&self) -> usize
        ensures { result ≡ length (bytes self.now) };

    // A page and a place, and no slice of the page: a caller may name a place past its end, and has an answer.
    /// Writes the line, without its line feed, onto the page from `at` on, and answers the place after it.
    /// Where there is no room, the page stays as it is and the answer is `None`.
    fn write(&self, page: &mut [u8], at: usize) -> Option<usize>
        ensures { Wrote (bytes self.now) at page.old result page.new };

    ghost plain: { (x : Self) → Lacks 10 (bytes x) };

    ghost short: { (x : Self) → length (bytes x) ≤ 63 };
}

/// A line that can be read: what is accepted is exactly what is written.
pub trait ReadLine: WriteLine + Copy {
    ghost zero: { Self };

    // No `Default`: the value is a law here.
    /// A line to fill lists with before they are read.
    fn blank() -> Self
        ensures { result ≡ zero };

    /// The line whose bytes these are.
    fn read(line: &[u8]) -> Option<Self>
        ensures { Accepts Self.WriteLine.bytes line.now result };

    ghost once: { (x y : Self) → Self.WriteLine.bytes x ≡ Self.WriteLine.bytes y → x ≡ y };
}

/// A line of at most five fields, with semicolons between them.
pub trait FieldLine: Sized {
    ghost parts: { Self → List Field };

    /// An array of fields.
    type Fields: AsSlice<Field> + Copy;

    /// The line's fields.
    fn fields(&self) -> Self::Fields
        ensures { Self.Fields.items result ≡ parts self.now };

    ghost few: { (x : Self) → length (parts x) ≤ 5 };
}

/// A line of fields can be written.
impl<L: FieldLine> WriteLine for L {
    ghost bytes = { λ x. line_of (L.parts x) };

    ghost plain = { λ x. line_plain (L.parts x) };

    ghost short = { λ x. five_short (L.parts x) (L.few x) };

    fn size(&self) -> usize {
        fields_size(self.fields().as_slice())
    }

    fn write(&self, page: &mut [u8], at: usize) -> Option<usize> {
        write_fields(self.fields().as_slice(), page, at)
    }
}
