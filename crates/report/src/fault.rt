//! Why there is nothing to report.
ghost use Rattle.std.specs.Prelude.{◌≡◌};
ghost use Rattle.report.specs.Faults.{program_cause, program_line};
ghost use Rattle.report.specs.declared.fault.ProgramFault.TheVariants.{Sheet};

use refusal::Refusal;
use sheet::fault::SheetFault;

/// Why the program has nothing to report.
#[derive(Clone, Copy, PartialEq, Eq, Debug)]
pub enum ProgramFault {
    /// The sheet is declined: its fault, whole.
    Sheet(SheetFault),
}

impl ProgramFault {
    /// The refusal that the fault stands for.
    pub fn cause(&self) -> Refusal
        ensures { result ≡ program_cause self.now }
    {
        match self {
            ProgramFault::Sheet(fault) => fault.cause(),
        }
    }

    /// The line of the sheet, from 1, or 0 for the whole.
    pub fn line(&self) -> usize
        ensures { result ≡ program_line self.now }
    {
        match self {
            ProgramFault::Sheet(fault) => fault.line(),
        }
    }
}

impl From<SheetFault> for ProgramFault {
    ghost from_gives = { λ e f. f ≡ Sheet e };

    fn from(e: SheetFault) -> ProgramFault {
        ProgramFault::Sheet(e)
    }
}
