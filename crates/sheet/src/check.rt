//! What reading a sheet would refuse, found before it is written.
ghost use Rattle.std.specs.Prelude.{◌≡◌, ◌<◌, length};
ghost use Rattle.sheet.specs.Checking.{ContentsChecked, Counts, LinesChecked, LinksChecked, SheetChecked, TurnsChecked};
ghost use Rattle.sheet.specs.Sheets.{Within, drafted};

use crate::body::check_body;
use crate::contents::Contents;
use crate::draft::Draft;
use crate::fault::{SheetFault, at_line};
use crate::kinds::Progress;
use crate::stages::misses;
use refusal::Refusal;
use site::room::SiteRoom;
use text::records::{LinkLine, TurnLine};

// No twins of the stages of reading: those take lines out of bytes into a list, these go over a list.

// The contents, as reading them would check them.
fn check_contents(contents: Contents) -> Result<(), SheetFault>
    ensures { ContentsChecked contents result }
{
    let heads = contents.heads();
    let mut progress = Progress::new();
    check_body(&heads, 0, &mut progress)
}

// The turn lines, which stand after `line` others.
fn check_turns(contents: Contents, turns: &[TurnLine], line: usize) -> Result<(), SheetFault>
    requires low { line < 500000 }
    requires count { length turns.now ≡ contents.turns.value }
    ensures { TurnsChecked contents turns.now line result }
{
    let n = contents.nodes.get();
    let mut nodes = n;
    check_body(turns, line, &mut nodes)?;
    if misses(turns, n) {
        return Err(SheetFault::Refused(Refusal::Missing, line + turns.len()));
    }
    Ok(())
}

// The link lines.
fn check_links(contents: Contents, links: &[LinkLine], room: SiteRoom) -> Result<(), SheetFault>
    requires within { Within contents }
    requires count { length links.now ≡ contents.links.value }
    ensures { LinksChecked contents links.now result }
{
    let mut builder = contents.begin(room);
    check_body(links, 4, &mut builder)?;
    at_line(builder.finish(), 4 + links.len())?;
    Ok(())
}

impl Draft<'_> {
    // The lines after the contents.
    fn check_lines(self, room: SiteRoom) -> Result<(), SheetFault>
        requires within { Within self.contents }
        requires links { length self.links.now ≡ self.contents.links.value }
        requires faults { length self.faults.now ≡ self.contents.faults.value }
        requires turns { length self.turns.now ≡ self.contents.turns.value }
        ensures { LinesChecked self.entry.contents (drafted self.entry).lists result }
    {
        check_links(self.contents, self.links, room)?;
        let at = 4 + self.links.len();
        let mut registers = self.contents.registers();
        check_body(self.faults, at, &mut registers)?;
        check_turns(self.contents, self.turns, at + self.faults.len())
    }

    // What reading would refuse of a sheet of these numbers and lists, if it is not too large.
    pub(crate) fn check(self, room: SiteRoom) -> Result<(), SheetFault>
        requires { Counts self.contents (drafted self).lists }
        ensures { SheetChecked (drafted self.entry) result }
    {
        check_contents(self.contents)?;
        self.check_lines(room)
    }
}
