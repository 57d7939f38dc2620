//! The lines that say how many lines of each kind a file has.
ghost use Rattle.text.specs.Number.{zero_number};
ghost use Rattle.text.specs.Words.{letters};
ghost use Rattle.text.specs.declared.contents.Word.TheVariants.{Nodes};
ghost use Rattle.text.specs.declared.field.Keyword.TheVariants.{Contents};
ghost use Rattle.std.proofs.Common.{lit≤};
ghost use Rattle.text.specs.Fields.{headed};
ghost use Rattle.text.specs.FieldsLemmas.{field_whole};
ghost use Rattle.text.specs.declared.field.Field.TheVariants.{Word as Named};
ghost use Rattle.std.specs.Prelude.{◌≡◌, Decides};
ghost use Rattle.text.specs.LineKinds.{same_contents};

use crate::field::{Field, Keyword, ReadField, read_two};
use crate::line::{FieldLine, ReadLine};
use crate::number::Number;

/// What a contents line counts.
#[derive(Clone, Copy, PartialEq, Eq, Debug)]
pub enum Word {
    /// The nodes of the site.
    Nodes,
    /// The link lines.
    Links,
    /// The fault lines.
    Faults,
    /// The turn lines.
    Turns,
}

/// A contents line, as `NODES;5`.
#[derive(Clone, Copy, PartialEq, Eq, Debug)]
pub struct ContentsLine {
    /// What is counted.
    pub word: Word,
    /// How many there are.
    pub number: Number,
}

impl Word {
    // Every word.
    const ALL: [Word; 4] = [Word::Nodes, Word::Links, Word::Faults, Word::Turns];

    // The bytes of the word.
    pub(crate) fn spell(self) -> &'static [u8]
        ensures { result.now ≡ letters self }
    {
        match self {
            Word::Nodes => b"NODES",
            Word::Links => b"LINKS",
            Word::Faults => b"FAULTS",
            Word::Turns => b"TURNS",
        }
    }

    // Whether the word is spelt so.
    fn is(self, text: &[u8]) -> bool
        ensures { Decides result (text.now ≡ letters self) }
    {
        text == self.spell()
    }
}

impl ReadField for Word {
    ghost text = { letters };

    ghost whole = { λ w. field_whole (Named (Contents w)) };

    fn read_field(field: &[u8]) -> Option<Word> {
        Word::ALL.iter().copied().find(|word| word.is(field))
    }
}

impl FieldLine for ContentsLine {
    ghost parts = { λ x. headed (Contents x.word) x.number };

    ghost few = { λ x. lit≤ tt };

    type Fields = [Field; 2];

    fn fields(&self) -> [Field; 2] {
        [Keyword::Contents(self.word).into(), self.number.into()]
    }
}

impl ReadLine for ContentsLine {
    ghost zero = { record { word = Nodes; number = zero_number } };

    ghost once = { λ x y e. same_contents x y e };

    fn blank() -> ContentsLine {
        ContentsLine {
            word: Word::Nodes,
            number: Number::zero(),
        }
    }

    fn read(line: &[u8]) -> Option<ContentsLine> {
        let (word, number) = read_two(line)?;
        Some(ContentsLine { word, number })
    }
}
