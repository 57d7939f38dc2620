//! The rounds within which a sheet's network comes to rest.
ghost use Rattle.std.specs.Prelude.{◌≡◌, ◌≤◌};
ghost use Rattle.protocol.specs.Stack.{stack};
ghost use Rattle.site.specs.Sites.{model};
ghost use Rattle.report.specs.Answers.{Bounded};
ghost use Rattle.sheet.specs.Sheets.{given, left};

use crate::fault::ProgramFault;
use sheet::lent::Lists;
use sheet::read::read_sheet;
use site::room::SiteRoom;
use site::site::Site;

/// The rounds within which the program's stack of protocols comes to rest at a site.
pub fn stack_bound(site: &Site) -> u32
    ensures bound { result ≡ (stack (model site.now)).bound }
    ensures low { result ≤ 768 }
{
    let tour = 3 * (site.height() as u32 + 1);
    let pairs = 3 * (site.nodes() as u32 / 2) + 1;
    tour.max(pairs)
}

// The bound of a sheet's site.
pub(crate) fn sheet_bound(
    bytes: &[u8],
    lists: Lists,
    room: SiteRoom,
    site: &mut Option<Site>,
) -> Result<u32, ProgramFault>
    ensures { Bounded bytes.now (given lists.entry) site.old result (left lists.exit) site.new }
{
    // A struct that is passed on whole tells nothing of its lists afterwards, so it is made anew.
    let Lists {
        links,
        faults,
        turns,
    } = lists;
    let lent = Lists {
        links,
        faults,
        turns,
    };
    read_sheet(bytes, lent, room, site)?;
    let Some(read) = site else { unreachable() };
    Ok(stack_bound(read))
}
