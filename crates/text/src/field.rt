//! Fields: words and numbers between semicolons.
ghost use Rattle.std.specs.Prelude.{◌≡◌, ℕ, ◌+◌, ◌≤◌, List, length};
ghost use Rattle.text.specs.declared.field.Field.TheVariants.{Value, Word as Named};
ghost use Rattle.text.specs.Fields.{field_of, line_of, optional};
ghost use Rattle.text.specs.FieldsLemmas.{field_whole};
ghost use Rattle.text.specs.Line.{Accepts, AcceptsTwo};
ghost use Rattle.text.specs.Number.{written};
ghost use Rattle.text.specs.Page.{Lacks, Wrote, over};
ghost use Rattle.text.specs.Words.{spelling};

use crate::contents::Word;
use crate::number::{Number, count_digits, write_digits};
use crate::report::TallyWord;
use crate::scan::split_field;

/// A field that is no number.
#[derive(Clone, Copy, PartialEq, Eq, Debug)]
pub enum Keyword {
    /// A word of the contents.
    Contents(Word),
    /// A word of a report's numbers.
    Tally(TallyWord),
    /// The word of a refusal.
    Refused,
    /// What stands for no number.
    Absent,
}

/// A field of a line.
#[derive(Clone, Copy, PartialEq, Eq, Debug)]
pub enum Field {
    /// A word.
    Word(Keyword),
    /// A number.
    Value(Number),
}

impl Keyword {
    /// The bytes of the word.
    pub fn spell(self) -> &'static [u8]
        ensures { result.now ≡ spelling self }
    {
        match self {
            Keyword::Contents(word) => word.spell(),
            Keyword::Tally(word) => word.spell(),
            Keyword::Refused => b"REFUSED",
            Keyword::Absent => b"-",
        }
    }
}

/// A word as a field.
impl From<Keyword> for Field {
    ghost from_gives = { λ w f. f ≡ Named w };

    fn from(keyword: Keyword) -> Field {
        Field::Word(keyword)
    }
}

/// A number as a field.
impl From<Number> for Field {
    ghost from_gives = { λ n f. f ≡ Value n };

    fn from(value: Number) -> Field {
        Field::Value(value)
    }
}

/// A number that may be absent as a field.
impl From<Option<Number>> for Field {
    ghost from_gives = { λ n f. f ≡ optional n };

    fn from(number: Option<Number>) -> Field {
        number.map_or(Field::Word(Keyword::Absent), Field::Value)
    }
}

// A field that can be read: what is accepted is exactly what is written.
pub(crate) trait ReadField: Copy {
    ghost text: { Self → List ℕ };

    // What is written so.
    fn read_field(field: &[u8]) -> Option<Self>
        ensures { Accepts text field.now result };

    ghost whole: { (x : Self) → Lacks 59 (text x) };
}

impl ReadField for Number {
    ghost text = { written };

    ghost whole = { λ n. field_whole (Value n) };

    fn read_field(field: &[u8]) -> Option<Number> {
        Number::read(field)
    }
}

// Two fields, apart by a semicolon.
pub(crate) fn read_two<A: ReadField, B: ReadField>(line: &[u8]) -> Option<(A, B)>
    ensures { AcceptsTwo A.text B.text line.now result }
{
    let (left, right) = split_field(line)?;
    Some((A::read_field(left)?, B::read_field(right)?))
}

// How many bytes a field has.
fn field_size(field: Field) -> usize
    ensures { result ≡ length (field_of field) }
{
    match field {
        Field::Word(word) => word.spell().len(),
        Field::Value(number) => count_digits(number.get()),
    }
}

// How many bytes the fields have, with the semicolons between them.
#[tactic(auto, using(crate::specs::FieldsLemmas::field_short, crate::specs::FieldsLemmas::line_short, crate::specs::FieldsLemmas::length_more))]
pub(crate) fn fields_size(fields: &[Field]) -> usize
    requires { length fields.now ≤ 5 }
    ensures { result ≡ length (line_of fields.now) }
{
    match fields {
        [] => 0,
        [only] => field_size(*only),
        [first, rest @ ..] => field_size(*first) + 1 + fields_size(rest),
    }
}

// Bytes at the start of a page; how many they are.
fn put_bytes(bytes: &[u8], page: &mut [u8]) -> usize
    requires { length bytes.now ≤ length page.old }
    ensures value { result ≡ length bytes.now }
    ensures page_after { page.new ≡ over bytes.now page.old }
{
    page[..bytes.len()].copy_from_slice(bytes);
    bytes.len()
}

// A field at the start of a page; how many bytes it has.
fn put_field(field: Field, page: &mut [u8]) -> usize
    requires { length (field_of field) ≤ length page.old }
    ensures value { result ≡ length (field_of field) }
    ensures page_after { page.new ≡ over (field_of field) page.old }
{
    match field {
        Field::Word(word) => put_bytes(word.spell(), page),
        Field::Value(number) => write_digits(number.get(), page),
    }
}

// Fields at the start of a page, with semicolons between them; how many bytes these are.
fn put_fields(fields: &[Field], page: &mut [u8]) -> usize
    requires { length (line_of fields.now) ≤ length page.old }
    ensures value { result ≡ length (line_of fields.now) }
    ensures page_after { page.new ≡ over (line_of fields.now) page.old }
{
    match fields {
        [] => 0,
        [only] => put_field(*only, page),
        [first, rest @ ..] => {
            let size = put_field(*first, page);
            page[size] = b';';
            size + 1 + put_fields(rest, &mut page[size + 1..])
        }
    }
}

// Writes a line of fields onto the page from `at` on, if there is room; the place after it.
pub(crate) fn write_fields(fields: &[Field], page: &mut [u8], at: usize) -> Option<usize>
    requires { length fields.now ≤ 5 }
    ensures { Wrote (line_of fields.now) at page.old result page.new }
{
    let room = page.len().checked_sub(at)?;
    if fields_size(fields) > room {
        return None;
    }
    Some(at + put_fields(fields, &mut page[at..]))
}
