//! Why a sheet is declined.
ghost use Rattle.std.specs.Prelude.{◌≡◌};
ghost use Rattle.sheet.specs.Faults.{cause_of, line_of, located};
ghost use Rattle.sheet.specs.declared.fault.SheetFault.TheVariants.{Scan, Refused};

use refusal::Refusal;
use text::fault::ScanFault;

/// Why a sheet is declined.
#[derive(Clone, Copy, PartialEq, Eq, Debug)]
pub enum SheetFault {
    /// A line is not in its form or lacking, or bytes follow the last: the scanner's cause, whole.
    Scan(ScanFault),
    // 0 and no `Option`: 0 is what is printed.
    /// A check's refusal, with the line that it was found at; 0 for the lists' room and the size.
    Refused(Refusal, usize),
}

impl SheetFault {
    /// The refusal that the fault stands for.
    pub fn cause(&self) -> Refusal
        ensures { result ≡ cause_of self.now }
    {
        match self {
            SheetFault::Scan(_) => Refusal::Form,
            SheetFault::Refused(cause, _) => *cause,
        }
    }

    /// The line of the sheet, from 1, or 0 for the whole.
    pub fn line(&self) -> usize
        ensures { result ≡ line_of self.now }
    {
        match self {
            SheetFault::Scan(e) => e.line(),
            SheetFault::Refused(_, line) => *line,
        }
    }
}

impl From<ScanFault> for SheetFault {
    ghost from_gives = { λ e f. f ≡ Scan e };

    fn from(e: ScanFault) -> SheetFault {
        SheetFault::Scan(e)
    }
}

/// A refusal of the whole sheet.
impl From<Refusal> for SheetFault {
    ghost from_gives = { λ e f. f ≡ Refused e 0 };

    fn from(e: Refusal) -> SheetFault {
        SheetFault::Refused(e, 0)
    }
}

// What a check at a line comes to, as a sheet's outcome.
pub(crate) fn at_line<T>(outcome: Result<T, Refusal>, line: usize) -> Result<T, SheetFault>
    ensures { result ≡ located outcome line }
{
    outcome.map_err(|e| SheetFault::Refused(e, line))
}
