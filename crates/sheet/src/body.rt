//! Bodies of lines of one kind, read into a list, or checked as reading would check them.
ghost use Rattle.std.specs.Prelude.{◌≡◌, ℕ, ◌+◌, ◌<◌, ◌≤◌, List, [], length, Err, OnOk};
ghost use Rattle.refusal.specs.declared.Refusal.TheVariants.{Short};
ghost use Rattle.text.specs.Spots.{spot};
ghost use Rattle.sheet.specs.Body.{BodyChecked, BodyRead};
ghost use Rattle.sheet.specs.declared.fault.SheetFault.TheVariants.{Refused};

use crate::fault::{SheetFault, at_line};
use crate::line::SheetLine;
use refusal::Refusal;
use text::reader::Reader;

/// Reads `count` lines of one kind into the first entries of `list`, each entered into the context. A list without room
/// for them is declined before anything is read; at a line that is refused the lines before it stand in the list.
pub fn read_body<R: SheetLine>(
    rd: &mut Reader,
    count: usize,
    list: &mut [R],
    into: &mut R::Context,
) -> Result<(), SheetFault>
    ensures short { length list.old < count → (result ≡ Err (Refused Short 0)) × (list.new ≡ list.old) × (rd.new ≡ rd.old) × (into.new ≡ into.old) }
    ensures read { count ≤ length list.old → (k : ℕ) → R.SheetLine.Holds into.old k [] → BodyRead R.WriteLine.bytes R.SheetLine.checks k count (spot rd.old) list.old result list.new (spot rd.new) (R.SheetLine.Holds into.new k) }
{
    if list.len() < count {
        return Err(SheetFault::from(Refusal::Short));
    }
    for entry in &mut list[..count] {
        let line: R = rd.read()?;
        let n = rd.lines();
        at_line(line.enter(into), n)?;
        *entry = line;
    }
    Ok(())
}

// Enters lines of one kind that stand after `line` others, as reading them would: the first that is refused, with its line.
pub(crate) fn check_body<R: SheetLine>(
    list: &[R],
    line: usize,
    into: &mut R::Context,
) -> Result<(), SheetFault>
    requires { line + length list.now < 1000000 }
    ensures checked { (k : ℕ) → R.SheetLine.Holds into.old k [] → BodyChecked R.WriteLine.bytes R.SheetLine.checks k list.now line result }
    ensures held { (k : ℕ) → R.SheetLine.Holds into.old k [] → OnOk result (R.SheetLine.Holds into.new k list.now) }
{
    // The number of the line is told, so it is counted.
    for (i, x) in list.iter().enumerate() {
        at_line(x.enter(into), line + i + 1)?;
    }
    Ok(())
}
