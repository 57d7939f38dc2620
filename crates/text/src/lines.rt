//! Many lines, written one after the other.
ghost use Rattle.std.specs.Prelude.{◌≡◌, ◌+◌, ◌≤◌, length};
ghost use Rattle.text.specs.Page.{Wrote, put};
ghost use Rattle.text.specs.Written.{SizeWithin, Within, lines_of};

use crate::line::WriteLine;

// So many bytes and those of a line with its line feed, if they are no more than `most`.
fn add_line<L: WriteLine>(size: usize, line: &L, most: usize) -> Option<usize>
    ensures { Within (size + length (L.WriteLine.bytes line.now) + 1) most result }
{
    let sum = size.checked_add(line.size() + 1);
    sum.filter(|sum| *sum <= most)
}

/// How many bytes these lines take, each with its line feed; `None` if they are more than `most`.
pub fn lines_size<L: WriteLine>(lines: &[L], most: usize) -> Option<usize>
    ensures { SizeWithin (lines_of L.WriteLine.bytes lines.now) most result }
{
    lines
        .iter()
        .try_fold(0, |size, line| add_line(size, line, most))
}

// Lines onto a page with room for them, from `at` on, each with its line feed; the place after them.
fn put_lines<L: WriteLine>(lines: &[L], page: &mut [u8], at: usize) -> Option<usize>
    requires { at + length (lines_of L.WriteLine.bytes lines.now) ≤ length page.old }
    ensures { Wrote (lines_of L.WriteLine.bytes lines.now) at page.old result page.new }
{
    // A `for`: a proof knows nothing of what a closure writes to the page.
    let mut end = at;
    for line in lines {
        let after = line.write(page, end)?;
        page[after] = b'\n';
        end = after + 1;
    }
    Some(end)
}

// A page and a place, as for one line.
/// Writes lines onto the page from `at` on, each with its line feed, and answers the place after them.
/// Where there is no room, the page stays as it is and the answer is `None`.
pub fn write_lines<L: WriteLine>(lines: &[L], page: &mut [u8], at: usize) -> Option<usize>
    ensures { Wrote (lines_of L.WriteLine.bytes lines.now) at page.old result page.new }
{
    let room = page.len().checked_sub(at)?;
    lines_size(lines, room)?;
    put_lines(lines, page, at)
}
