//! The lists that a caller lends for the lines of a sheet.
ghost use Rattle.std.specs.Prelude.{Decides};
ghost use Rattle.sheet.specs.Sheets.{Room, lists};

use refusal::limits::{FAULTS, LINKS, NAMES};
use text::records::{FaultLine, LinkLine, TurnLine};

// Slices, since the lists are the caller's own memory.
/// Lent lists that the lines of a sheet are read into.
#[derive(Drop)]
pub struct Lists<'a> {
    /// The link lines, at least 1,024 entries.
    pub links: &'a mut [LinkLine],
    /// The fault lines, at least 4,096 entries.
    pub faults: &'a mut [FaultLine],
    /// The turn lines, at least 1,024 entries.
    pub turns: &'a mut [TurnLine],
}

// Three lists, so that it serves lent ones and those of a draft.
// Whether lists have their limits' entries.
pub(crate) fn have_room(links: &[LinkLine], faults: &[FaultLine], turns: &[TurnLine]) -> bool
    ensures { Decides result (Room (lists links.now faults.now turns.now)) }
{
    links.len() >= LINKS && faults.len() >= FAULTS && turns.len() >= NAMES
}
