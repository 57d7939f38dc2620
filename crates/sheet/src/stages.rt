//! The stages of reading a sheet, kind of line by kind of line.
ghost use Rattle.std.specs.Prelude.{◌≡◌, ℕ, ◌+◌, ◌*◌, ◌<◌, ◌≤◌, List, [], map, length, take, IfOk, Decides, nat_eq, not};
ghost use Rattle.std.specs.List.{list_any, range_with_len};
ghost use Rattle.lists.specs.Members.{Among};
ghost use Rattle.site.specs.Sites.{draft};
ghost use Rattle.site.specs.Sites.{model};
ghost use Rattle.text.specs.Spots.{spot};
ghost use Rattle.text.specs.Lines.{fault_bytes};
ghost use Rattle.sheet.specs.Body.{Body, out};
ghost use Rattle.sheet.specs.Judge.{Named, contents as contents_lines, link_lines, places, turn_lines};
ghost use Rattle.sheet.specs.Kinds.{fault_rules, site_of};
ghost use Rattle.sheet.specs.Sheets.{Within, outcome};

use crate::body::read_body;
use crate::contents::Contents;
use crate::fault::{SheetFault, at_line};
use crate::kinds::Progress;
use refusal::Refusal;
use site::room::SiteRoom;
use site::site::Site;
use text::contents::ContentsLine;
use text::line::ReadLine;
use text::reader::Reader;
use text::records::{FaultLine, LinkLine, TurnLine};

// The contents lines.
pub(crate) fn read_contents(rd: &mut Reader) -> Result<Contents, SheetFault>
    ensures read { contents_lines (spot rd.old) (outcome rd.new result) }
    ensures limits { IfOk result Within }
{
    let mut cs = [ContentsLine::blank(); 4];
    let mut progress = Progress::new();
    read_body(rd, 4, &mut cs, &mut progress)?;
    let [nodes, links, faults, turns] = cs;
    Ok(Contents {
        nodes: nodes.number,
        links: links.number,
        faults: faults.number,
        turns: turns.number,
    })
}

// Whether a turn line names the node.
fn named(turns: &[TurnLine], v: u32) -> bool
    ensures { result ≡ list_any (λ t. nat_eq t.node.value v) turns.now }
{
    turns.iter().any(|turn| turn.node.get() == v)
}

// As a daemon searches names, but over turn lines; what both tell is one lemma.
// Whether some node is in none of the turn lines.
fn lacks(turns: &[TurnLine], nodes: u32) -> bool
    ensures { result ≡ list_any (λ v. not (list_any (λ t. nat_eq t.node.value v) turns.now)) (range_with_len 0 nodes) }
{
    (0..nodes).any(|v| !named(turns, v))
}

// Whether there are turn lines and a node is in none of them.
pub(crate) fn misses(turns: &[TurnLine], nodes: u32) -> bool
    ensures { Decides result ((0 < length turns.now) × (Named nodes turns.now → ⊥)) }
{
    !turns.is_empty() && lacks(turns, nodes)
}

// The turn lines.
pub(crate) fn read_turns(
    rd: &mut Reader,
    contents: Contents,
    turns: &mut [TurnLine],
) -> Result<(), SheetFault>
    requires few { contents.turns.value ≤ length turns.old }
    ensures { turn_lines contents (spot rd.old) (out (take contents.turns.value turns.new) rd.new result) }
{
    let count = contents.turns.get() as usize;
    let n = contents.nodes.get();
    let mut nodes = n;
    read_body(rd, count, turns, &mut nodes)?;
    if misses(&turns[..count], n) {
        return Err(SheetFault::Refused(Refusal::Missing, rd.lines()));
    }
    Ok(())
}

// The link lines, and the site that they make.
pub(crate) fn read_links(
    rd: &mut Reader,
    contents: Contents,
    links: &mut [LinkLine],
    room: SiteRoom,
) -> Result<Site, SheetFault>
    requires within { Within contents }
    requires few { contents.links.value ≤ length links.old }
    ensures read { link_lines contents (spot rd.old) (out (take contents.links.value links.new) rd.new result) }
    ensures site { IfOk result (λ s. model s ≡ site_of contents.nodes.value (take contents.links.value links.new)) }
{
    let mut builder = contents.begin(room);
    let count = contents.links.get() as usize;
    read_body(rd, count, links, &mut builder)?;
    at_line(builder.finish(), rd.lines())
}

// The fault lines.
pub(crate) fn read_faults(
    rd: &mut Reader,
    contents: Contents,
    faults: &mut [FaultLine],
) -> Result<(), SheetFault>
    requires { contents.faults.value ≤ length faults.old }
    ensures { Body fault_bytes fault_rules (places contents) contents.faults.value (spot rd.old) (out (take contents.faults.value faults.new) rd.new result) }
{
    let count = contents.faults.get() as usize;
    let mut registers = contents.registers();
    read_body(rd, count, faults, &mut registers)
}
