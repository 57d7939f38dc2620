//! Reading sheets: each kind of line.
use crate::desk::{Answer, Desk};
use crate::tables::Table;
use crate::tables::contents::CONTENTS;
use crate::tables::faults::FAULTS;
use crate::tables::links::LINKS;
use crate::tables::turns::TURNS;
use std::alloc::Global;
use std::process::Abort;
use std::test::*;

// One sheet, of a start and an end; the case is the number of each.
fn judge(
    rt: &impl Abort,
    heap: Global,
    head: &[u8],
    tail: &[u8],
    expected: Answer,
    case: (usize, usize),
) -> Result<(), Fail> {
    let mut bytes = head.to_vec(heap)?;
    bytes.extend_from_slice(tail)?;
    let mut desk = Desk::new(heap)?;
    let (start, end) = case;
    assert_eq!(rt;
        desk.answer(rt, &bytes)?,
        expected,
        "start {start}, end {end}"
    );
    assert_eq!(rt;
        desk.site.is_some(),
        expected.is_ok(),
        "start {start}, end {end}"
    );
    Ok(())
}

// Every sheet of a table.
fn judge_all(rt: &impl Abort, heap: Global, tables: &[Table]) -> Result<(), Fail> {
    for (t, table) in tables.iter().enumerate() {
        for c in table.cases {
            for (i, tail) in c.tails.iter().enumerate() {
                judge(rt, heap, table.head, tail, c.answer, (t, i))?;
            }
        }
    }
    Ok(())
}

#[test]
fn sheets_read(rt: HostRuntime) -> Result<(), Fail> {
    judge_all(&rt, rt.alloc(), &CONTENTS)?;
    judge_all(&rt, rt.alloc(), &LINKS)?;
    judge_all(&rt, rt.alloc(), &FAULTS)?;
    judge_all(&rt, rt.alloc(), &TURNS)
}
