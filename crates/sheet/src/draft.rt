//! What a sheet is written of.
ghost use Rattle.std.specs.Prelude.{◌≡◌, ◌≤◌, length, take};
ghost use Rattle.text.specs.Page.{Wrote};
ghost use Rattle.text.specs.Written.{SizeWithin};
ghost use Rattle.sheet.specs.Sheets.{drafted, gives, lists, sheet_bytes};

use crate::contents::Contents;
use refusal::limits::BYTES;
use text::lines::{lines_size, write_lines};
use text::records::{FaultLine, LinkLine, TurnLine};

/// Contents numbers, and lists whose first entries are the lines that the contents count.
#[derive(Clone, Copy)]
pub struct Draft<'a> {
    /// The contents numbers.
    pub contents: Contents,
    /// The link lines, at least 1,024 entries.
    pub links: &'a [LinkLine],
    /// The fault lines, at least 4,096 entries.
    pub faults: &'a [FaultLine],
    /// The turn lines, at least 1,024 entries.
    pub turns: &'a [TurnLine],
}

// The first n entries of a list, or all of a shorter one.
fn front<T>(list: &[T], n: usize) -> &[T]
    ensures { result.now ≡ take n list.now }
{
    list.get(..n).unwrap_or(list)
}

impl<'a> Draft<'a> {
    // The draft with no entry past those that the contents count.
    pub(crate) fn counted(self) -> Draft<'a>
        ensures { drafted result ≡ gives self.entry.contents (drafted self.entry).lists }
    {
        let Contents {
            links,
            faults,
            turns,
            ..
        } = self.contents;
        Draft {
            contents: self.contents,
            links: front(self.links, links.get() as usize),
            faults: front(self.faults, faults.get() as usize),
            turns: front(self.turns, turns.get() as usize),
        }
    }

    // How many bytes the sheet takes; `None` if they are too many for one.
    pub(crate) fn size(self) -> Option<usize>
        ensures { SizeWithin (sheet_bytes (drafted self.entry)) 65536 result }
    {
        let heads = lines_size(&self.contents.heads(), BYTES)?;
        let links = heads + lines_size(self.links, BYTES - heads)?;
        let faults = links + lines_size(self.faults, BYTES - links)?;
        Some(faults + lines_size(self.turns, BYTES - faults)?)
    }

    // Writes the sheet at the start of a page that has room for it; the place after it.
    pub(crate) fn put(self, page: &mut [u8]) -> Option<usize>
        requires { length (sheet_bytes (drafted self)) ≤ length page.old }
        ensures { Wrote (sheet_bytes (drafted self.entry)) 0 page.old result page.new }
    {
        let heads = write_lines(&self.contents.heads(), page, 0)?;
        let links = write_lines(self.links, page, heads)?;
        let faults = write_lines(self.faults, page, links)?;
        write_lines(self.turns, page, faults)
    }
}
