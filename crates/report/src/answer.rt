//! The answer to a sheet.
ghost use Rattle.std.specs.Prelude.{◌≡◌, ◌<◌, [], ◌∷◌, ◌++◌};
ghost use Rattle.refusal.specs.Numbers.{number_of};
ghost use Rattle.text.specs.Lines.{refused_bytes, report_bytes, tally_bytes};
ghost use Rattle.report.specs.Answers.{Answered, Put, bound_line, refusal_line};
ghost use Rattle.report.specs.Faults.{program_cause, program_line};
ghost use Rattle.sheet.specs.Sheets.{given, left};

use crate::bound::sheet_bound;
use crate::fault::ProgramFault;
use refusal::Refusal;
use sheet::lent::Lists;
use site::room::SiteRoom;
use site::site::Site;
use text::lines::write_lines;
use text::number::Number;
use text::report::{RefusedLine, ReportLine, Tally, TallyWord};

// Writes a line with its line feed at the start of the page; the place after it. `Short` without room, and the page stays.
fn put_line(line: ReportLine, page: &mut [u8]) -> Result<usize, Refusal>
    ensures { Put (report_bytes line ++ (10 ∷ [])) page.old result page.new }
{
    write_lines(&[line], page, 0).ok_or(Refusal::Short)
}

// The limit is a clause, here and below: a `Number` is what these make.
// A number that is known to have at most five digits.
fn small(value: u32) -> Number
    requires { value < 100000 }
    ensures { result.value ≡ value }
{
    let Some(number) = Number::new(value) else {
        unreachable()
    };
    number
}

// The line of a declined sheet.
fn refused_line(e: ProgramFault) -> RefusedLine
    requires { program_line e < 100000 }
    ensures { refused_bytes result ++ (10 ∷ []) ≡ refusal_line (number_of (program_cause e)) (program_line e) }
{
    let number = small(e.cause().number() as u32);
    let line = small(e.line() as u32);
    RefusedLine { number, line }
}

// The line of a bound.
fn bound_line(bound: u32) -> Tally
    requires { bound < 100000 }
    ensures { tally_bytes result ++ (10 ∷ []) ≡ bound_line bound }
{
    Tally {
        word: TallyWord::Bound,
        number: small(bound),
    }
}

/// Answers a sheet at the start of the page: `BOUND;b`, the rounds within which the network comes to rest whatever its
/// registers hold, or `REFUSED;number;line`. The rest of the page stays. `Short` where the page has no room, and it stays.
///
/// Lists, room and the site's place are as for `read_sheet`.
pub fn answer(
    bytes: &[u8],
    lists: Lists,
    room: SiteRoom,
    site: &mut Option<Site>,
    page: &mut [u8],
) -> Result<usize, Refusal>
    ensures { Answered bytes.now (given lists.entry) site.old page.old result (left lists.exit) site.new page.new }
{
    // Made anew, as for the bound.
    let Lists {
        links,
        faults,
        turns,
    } = lists;
    let lent = Lists {
        links,
        faults,
        turns,
    };
    // By cases: two kinds of line are written.
    match sheet_bound(bytes, lent, room, site) {
        Ok(bound) => put_line(ReportLine::Tally(bound_line(bound)), page),
        Err(e) => put_line(ReportLine::Refused(refused_line(e)), page),
    }
}
