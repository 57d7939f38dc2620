//! A line of a sheet, with its checks.
ghost use Rattle.std.specs.Prelude.{ℕ, List};
ghost use Rattle.refusal.specs.Checks.{Checks};
ghost use Rattle.sheet.specs.Entering.{Entered};

use refusal::Refusal;
use text::line::ReadLine;

/// A line of a sheet's body, with the checks that it has to pass after its form.
pub trait SheetLine: ReadLine {
    /// What the checks go by; it takes in each line that passes.
    type Context;

    // the checks of a line, in order, by a limit and the lines of its kind before it
    ghost checks: { ℕ → List Self → Self → Checks };

    // a context stands for a limit and the lines entered so far
    ghost Holds: { Self.Context → ℕ → List Self → Type 0 };

    /// Enters the line, or names the first check that it fails.
    fn enter(self, into: &mut Self::Context) -> Result<(), Refusal>
        ensures { (k : ℕ) (before : List Self) → Holds into.old k before → Entered Holds (checks k before self) k before self result into.new };
}
