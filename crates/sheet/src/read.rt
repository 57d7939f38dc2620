//! Reading a sheet.
ghost use Rattle.std.specs.Prelude.{◌≡◌, take, IfOk};
ghost use Rattle.site.specs.Sites.{model};
ghost use Rattle.sheet.specs.Kinds.{site_of};
ghost use Rattle.sheet.specs.Sheets.{Judged, ReadSheet, Room, Zeros, first, given, left};

use crate::contents::Contents;
use crate::fault::SheetFault;
use crate::lent::{Lists, have_room};
use crate::stages::{read_contents, read_faults, read_links, read_turns};
use refusal::Refusal;
use refusal::limits::BYTES;
use site::room::SiteRoom;
use site::site::Site;
use text::line::ReadLine;
use text::reader::Reader;

/// Makes every entry from `from` on 0.
pub fn clear<R: ReadLine>(list: &mut [R], from: usize)
    ensures front { take from list.new ≡ take from list.old }
    ensures zeros { Zeros R.ReadLine.zero from list.new }
{
    let from = from.min(list.len());
    // No `fill`: it asks for a clone that cannot fail, which not every kind of line promises.
    for entry in &mut list[from..] {
        *entry = R::blank();
    }
}

// Reads a sheet into lists with room for it.
fn read_all(bytes: &[u8], lists: Lists, room: SiteRoom) -> Result<(Contents, Site), SheetFault>
    requires { Room (given lists) }
    ensures judged { Judged bytes.now (left lists.exit) (first result) }
    ensures site { IfOk result (λ p. model p.1 ≡ site_of p.0.nodes.value (take p.0.links.value lists.exit.0.now)) }
{
    if bytes.len() > BYTES {
        return Err(SheetFault::from(Refusal::Limit));
    }
    let Lists {
        links,
        faults,
        turns,
    } = lists;
    let mut rd = Reader::new(bytes);
    let contents = read_contents(&mut rd)?;
    let site = read_links(&mut rd, contents, links, room)?;
    read_faults(&mut rd, contents, faults)?;
    read_turns(&mut rd, contents, turns)?;
    rd.end()?;
    Ok((contents, site))
}

/// Reads a sheet: its contents numbers, its lines into the first entries of the lists, its site into the place.
///
/// The lists' entries past the read ones become 0. A declined sheet leaves the site's place as it was and every entry 0;
/// where the lists are too short they stay too. The new site stands in the memory of `room`, so that reading never wants
/// memory.
pub fn read_sheet(
    bytes: &[u8],
    lists: Lists,
    room: SiteRoom,
    site: &mut Option<Site>,
) -> Result<Contents, SheetFault>
    ensures { ReadSheet bytes.now (given lists.entry) site.old result (left lists.exit) site.new }
{
    let Lists {
        links,
        faults,
        turns,
    } = lists;
    if !have_room(links, faults, turns) {
        return Err(SheetFault::from(Refusal::Short));
    }
    // Lent anew, so that the lists are at hand afterwards.
    let lent = Lists {
        links: &mut *links,
        faults: &mut *faults,
        turns: &mut *turns,
    };
    // By cases: the lists are cleared from other places on.
    match read_all(bytes, lent, room) {
        Ok((contents, read)) => {
            clear(links, contents.links.get() as usize);
            clear(faults, contents.faults.get() as usize);
            clear(turns, contents.turns.get() as usize);
            *site = Some(read);
            Ok(contents)
        }
        Err(e) => {
            clear(links, 0);
            clear(faults, 0);
            clear(turns, 0);
            Err(e)
        }
    }
}
