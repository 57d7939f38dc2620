//! Writing a sheet.
ghost use Rattle.sheet.specs.Sheets.{Returns, Wrote, drafted};

use crate::draft::Draft;
use crate::fault::SheetFault;
use crate::lent::have_room;
use refusal::Refusal;
use site::room::SiteRoom;

/// Writes a sheet of these numbers and of the lists' first entries at the start of a page, whose rest stays.
///
/// Declined, and the page stays: the lists without their limits' entries (1,024, 4,096 and 1,024), then what reading the
/// sheet would refuse, with the same line, then a page without room. `room` is memory for the site that the check of the
/// links builds.
pub fn write_sheet(draft: Draft, room: SiteRoom, page: &mut [u8]) -> Result<usize, SheetFault>
    ensures wrote { Wrote draft.entry.contents (drafted draft.entry).lists page.old result page.new }
    ensures returns { Returns draft.entry.contents (drafted draft.entry).lists page.new result }
{
    if !have_room(draft.links, draft.faults, draft.turns) {
        return Err(SheetFault::from(Refusal::Short));
    }
    let sheet = draft.counted();
    let size = sheet.size().ok_or(Refusal::Limit)?;
    sheet.check(room)?;
    if size > page.len() {
        return Err(SheetFault::from(Refusal::Short));
    }
    let Some(end) = sheet.put(page) else {
        unreachable()
    };
    Ok(end)
}
