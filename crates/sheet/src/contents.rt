//! The numbers that a sheet begins with.
ghost use Rattle.std.specs.Prelude.{◌≡◌, []};
ghost use Rattle.site.specs.Sites.{draft};
ghost use Rattle.sheet.specs.Judge.{places};
ghost use Rattle.sheet.specs.Kinds.{site_of};
ghost use Rattle.sheet.specs.Sheets.{Within, heads};

use site::builder::SiteBuilder;
use site::room::SiteRoom;
use text::contents::{ContentsLine, Word};
use text::number::Number;

/// The numbers of a sheet's contents.
#[derive(Clone, Copy, PartialEq, Eq, Debug)]
pub struct Contents {
    /// How many nodes the site has.
    pub nodes: Number,
    /// How many link lines follow.
    pub links: Number,
    /// How many fault lines follow them.
    pub faults: Number,
    /// How many turn lines end the sheet; none means round robin.
    pub turns: Number,
}

// A contents line.
fn head(word: Word, number: Number) -> ContentsLine
    ensures { result ≡ record { word = word; number = number } }
{
    ContentsLine { word, number }
}

impl Contents {
    // The contents lines.
    pub(crate) fn heads(self) -> [ContentsLine; 4]
        ensures { result ≡ heads self }
    {
        [
            head(Word::Nodes, self.nodes),
            head(Word::Links, self.links),
            head(Word::Faults, self.faults),
            head(Word::Turns, self.turns),
        ]
    }

    // `Within` is asked of plain numbers: a second type for checked ones would be taken apart at each use.
    // A builder of the site in this memory, without links.
    pub(crate) fn begin(self, room: SiteRoom) -> SiteBuilder
        requires { Within self }
        ensures { draft result ≡ site_of self.nodes.value [] }
    {
        let Ok(builder) = room.start(self.nodes.get() as usize, 0) else {
            unreachable()
        };
        builder
    }

    // How many registers the program's stack of protocols has at the site.
    pub(crate) fn registers(self) -> u32
        ensures { result ≡ places self }
    {
        5 * self.nodes.get() + 2 * self.links.get()
    }
}
