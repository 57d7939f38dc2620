//! The lines of a report, which are only written.
ghost use Rattle.std.specs.Prelude.{◌≡◌, ◌∷◌};
ghost use Rattle.text.specs.Words.{tally_letters};
ghost use Rattle.std.proofs.Common.{lit≤};
ghost use Rattle.text.specs.declared.field.Field.TheVariants.{Word};
ghost use Rattle.text.specs.declared.field.Keyword.TheVariants.{Refused, Tally as Told};
ghost use Rattle.text.specs.Fields.{headed, pair};
ghost use Rattle.text.specs.Lines.{node_fields, report_bytes};
ghost use Rattle.text.specs.LineKinds.{report_plain, report_short};

use crate::field::{Field, Keyword};
use crate::line::{FieldLine, WriteLine};
use crate::number::Number;

/// What a tally line tells.
#[derive(Clone, Copy, PartialEq, Eq, Debug)]
pub enum TallyWord {
    /// The bound on the rounds.
    Bound,
    /// The rounds that are complete.
    Rounds,
    /// The round of the last change.
    Last,
}

impl TallyWord {
    // The bytes of the word.
    pub(crate) fn spell(self) -> &'static [u8]
        ensures { result.now ≡ tally_letters self }
    {
        match self {
            TallyWord::Bound => b"BOUND",
            TallyWord::Rounds => b"ROUNDS",
            TallyWord::Last => b"LAST",
        }
    }
}

/// A number of the report, as `BOUND;12`.
#[derive(Clone, Copy, PartialEq, Eq, Debug)]
pub struct Tally {
    /// What is told.
    pub word: TallyWord,
    /// Its number.
    pub number: Number,
}

/// A refusal by its number, with the line of the file, as `REFUSED;3;17`.
#[derive(Clone, Copy, PartialEq, Eq, Debug)]
pub struct RefusedLine {
    /// The refusal's number.
    pub number: Number,
    // 0 and no `Option`: 0 is what is printed.
    /// The line, from 1, or 0 for the whole file.
    pub line: Number,
}

/// What a node's registers tell, as `3;1;2;2;-`.
#[derive(Clone, Copy, PartialEq, Eq, Debug)]
pub struct NodeLine {
    /// The node.
    pub node: Number,
    /// Its parent.
    pub parent: Option<Number>,
    /// How many nodes are below it.
    pub count: Number,
    /// Its rank.
    pub rank: Number,
    /// Its mate.
    pub mate: Option<Number>,
}

/// A line of a report.
#[derive(Clone, Copy, PartialEq, Eq, Debug)]
pub enum ReportLine {
    /// A number of the report.
    Tally(Tally),
    /// A node's registers.
    Node(NodeLine),
    /// A refusal.
    Refused(RefusedLine),
}

impl FieldLine for Tally {
    ghost parts = { λ x. headed (Told x.word) x.number };

    ghost few = { λ x. lit≤ tt };

    type Fields = [Field; 2];

    fn fields(&self) -> [Field; 2] {
        [Keyword::Tally(self.word).into(), self.number.into()]
    }
}

impl FieldLine for RefusedLine {
    ghost parts = { λ x. Word Refused ∷ pair x.number x.line };

    ghost few = { λ x. lit≤ tt };

    type Fields = [Field; 3];

    fn fields(&self) -> [Field; 3] {
        [
            Keyword::Refused.into(),
            self.number.into(),
            self.line.into(),
        ]
    }
}

impl FieldLine for NodeLine {
    ghost parts = { node_fields };

    ghost few = { λ x. lit≤ tt };

    type Fields = [Field; 5];

    fn fields(&self) -> [Field; 5] {
        [
            self.node.into(),
            self.parent.into(),
            self.count.into(),
            self.rank.into(),
            self.mate.into(),
        ]
    }
}

// By its kind, twice: the kinds' arrays of fields have different lengths.
impl WriteLine for ReportLine {
    ghost bytes = { report_bytes };

    ghost plain = { report_plain };

    ghost short = { report_short };

    fn size(&self) -> usize {
        match self {
            ReportLine::Tally(line) => line.size(),
            ReportLine::Node(line) => line.size(),
            ReportLine::Refused(line) => line.size(),
        }
    }

    fn write(&self, page: &mut [u8], at: usize) -> Option<usize> {
        match self {
            ReportLine::Tally(line) => line.write(page, at),
            ReportLine::Node(line) => line.write(page, at),
            ReportLine::Refused(line) => line.write(page, at),
        }
    }
}
