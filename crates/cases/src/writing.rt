//! Writing sheets: what is written, what is declined, and that reading answers the same.
use crate::desk::{Answer, Desk, NO_ROOM, Refused, contents, fault, link, turn};
use crate::drafts::{DRAFTS, Draft};
use crate::large::largest;
use sheet::contents::Contents;
use sheet::draft::Draft as Sheet;
use sheet::write::write_sheet;
use site::room::SiteRoom;
use std::alloc::Global;
use std::fmt::Write;
use std::process::Abort;
use std::test::*;

// Lines of two numbers.
fn add_pairs(text: &mut String, pairs: &[(u32, u32)]) -> Result<(), Fail> {
    for (a, b) in pairs {
        writeln!(text, "{a};{b}")?;
    }
    Ok(())
}

// Lines of one number.
fn add_numbers(text: &mut String, numbers: &[u32]) -> Result<(), Fail> {
    for x in numbers {
        writeln!(text, "{x}")?;
    }
    Ok(())
}

// The text of a draft, written out by the standard library.
fn text_of(heap: Global, draft: &Draft) -> Result<String, Fail> {
    let [nodes, links, faults, turns] = draft.contents;
    let mut text = format!(in heap;
        "NODES;{nodes}\nLINKS;{links}\nFAULTS;{faults}\nTURNS;{turns}\n"
    )?;
    add_pairs(&mut text, draft.links)?;
    add_pairs(&mut text, draft.faults)?;
    add_numbers(&mut text, draft.turns)?;
    Ok(text)
}

// Lists whose first entries are the draft's.
fn lists_of(heap: Global, draft: &Draft) -> Result<Desk, Fail> {
    let mut desk = Desk::new(heap)?;
    for (line, (a, b)) in desk.links.iter_mut().zip(draft.links) {
        *line = link(*a, *b);
    }
    for (line, (register, value)) in desk.faults.iter_mut().zip(draft.faults) {
        *line = fault(*register, *value);
    }
    for (line, node) in desk.turns.iter_mut().zip(draft.turns) {
        *line = turn(*node);
    }
    Ok(desk)
}

// What writing answers: the place after the sheet, if it is accepted.
fn write(desk: &Desk, ns: Contents, page: &mut [u8]) -> Result<Result<usize, Refused>, Fail> {
    let room = SiteRoom::new(desk.heap)?;
    let draft = Sheet {
        contents: ns,
        links: &desk.links,
        faults: &desk.faults,
        turns: &desk.turns,
    };
    Ok(write_sheet(draft, room, page).map_err(Refused::from))
}

// On a page of so many dots more than the text has bytes, writing leaves the text and then dots.
fn leaves(
    rt: &impl Abort,
    case: usize,
    desk: &Desk,
    ns: Contents,
    text: &[u8],
    more: usize,
) -> Result<(), Fail> {
    let mut expected = text.to_vec(desk.heap)?;
    expected.resize(text.len().saturating_add(more), b'.')?;
    let mut page = vec![in desk.heap; b'.'; expected.len()]?;
    assert_eq!(rt; write(desk, ns, &mut page)?, Ok(text.len()), "case {case}");
    assert!(rt; page.as_slice() == expected.as_slice(), "case {case}");
    Ok(())
}

// On a page of so many dots writing is declined, and the dots stay.
fn declines(
    rt: &impl Abort,
    case: usize,
    desk: &Desk,
    ns: Contents,
    size: usize,
    expected: Answer,
) -> Result<(), Fail> {
    let mut page = vec![in desk.heap; b'.'; size]?;
    assert_eq!(rt;
        write(desk, ns, &mut page)?.map(|_| ()),
        expected,
        "case {case}"
    );
    assert!(rt; page.iter().all(|x| *x == b'.'), "case {case}");
    Ok(())
}

// Writing these lists leaves the text on a page that has room.
fn fits(rt: &impl Abort, case: usize, desk: &Desk, ns: Contents, text: &[u8]) -> Result<(), Fail> {
    leaves(rt, case, desk, ns, text, 0)?;
    leaves(rt, case, desk, ns, text, 1)?;
    leaves(rt, case, desk, ns, text, 100)?;
    declines(rt, case, desk, ns, text.len().saturating_sub(1), NO_ROOM)?;
    declines(rt, case, desk, ns, 0, NO_ROOM)
}

// Lists that are declined with this answer, whatever the page.
fn declines_all(
    rt: &impl Abort,
    case: usize,
    desk: &Desk,
    ns: Contents,
    expected: Answer,
) -> Result<(), Fail> {
    declines(rt, case, desk, ns, 0, expected)?;
    declines(rt, case, desk, ns, 70000, expected)
}

// What is answered to writing a draft.
fn judge_written(
    rt: &impl Abort,
    case: usize,
    heap: Global,
    draft: &Draft,
    text: &[u8],
    expected: Answer,
) -> Result<(), Fail> {
    let desk = lists_of(heap, draft)?;
    if expected.is_ok() {
        fits(rt, case, &desk, contents(draft.contents), text)
    } else {
        declines_all(rt, case, &desk, contents(draft.contents), expected)
    }
}

// What is answered to reading a text.
fn judge_read(
    rt: &impl Abort,
    case: usize,
    heap: Global,
    text: &[u8],
    expected: Answer,
) -> Result<(), Fail> {
    let mut desk = Desk::new(heap)?;
    assert_eq!(rt; desk.answer(rt, text)?, expected, "case {case}");
    Ok(())
}

// A draft is written and read with one answer.
fn judge(rt: &impl Abort, case: usize, heap: Global, draft: &Draft) -> Result<(), Fail> {
    let text = text_of(heap, draft)?;
    judge_read(rt, case, heap, text.as_bytes(), draft.answer)?;
    judge_written(rt, case, heap, draft, text.as_bytes(), draft.answer)
}

// A sheet that is read is written the same.
fn returns(rt: &impl Abort, case: usize, heap: Global, sheet: &[u8]) -> Result<(), Fail> {
    let mut desk = Desk::new(heap)?;
    let Ok(ns) = desk.read(sheet)? else {
        return Err(Fail::new("declined"));
    };
    fits(rt, case, &desk, ns, sheet)
}

#[test]
fn sheets_written(rt: HostRuntime) -> Result<(), Fail> {
    for (i, draft) in DRAFTS.iter().enumerate() {
        judge(&rt, i, rt.alloc(), draft)?;
    }
    let sheet = largest(rt.alloc())?;
    returns(&rt, DRAFTS.len(), rt.alloc(), sheet.as_bytes())
}

/// Lists of so many entries, of which so many links take five bytes and the others four, each with its line feed.
struct Lent {
    lists: [usize; 3],
    longer: usize,
    contents: [u32; 4],
    answer: Answer,
}

// The contents of the first two take 37 bytes: 65,536 in all, and 65,537.
static LENT: [Lent; 5] = [
    Lent {
        lists: [16374, 4096, 1024],
        longer: 3,
        contents: [1, 16374, 0, 0],
        answer: Err(Refused { number: 2, line: 2 }),
    },
    Lent {
        lists: [16374, 4096, 1024],
        longer: 4,
        contents: [1, 16374, 0, 0],
        answer: Err(Refused { number: 2, line: 0 }),
    },
    Lent {
        lists: [1023, 4096, 1024],
        longer: 0,
        contents: [0, 0, 0, 0],
        answer: Err(Refused {
            number: 14,
            line: 0,
        }),
    },
    Lent {
        lists: [1024, 4095, 1024],
        longer: 0,
        contents: [1, 0, 0, 0],
        answer: Err(Refused {
            number: 14,
            line: 0,
        }),
    },
    Lent {
        lists: [1024, 4096, 1023],
        longer: 0,
        contents: [0, 0, 0, 0],
        answer: Err(Refused {
            number: 14,
            line: 0,
        }),
    },
];

fn judge_lent(rt: &impl Abort, case: usize, heap: Global, lent: &Lent) -> Result<(), Fail> {
    let mut desk = Desk::sized(heap, lent.lists[0], lent.lists[1], lent.lists[2])?;
    for line in desk.links.iter_mut().take(lent.longer) {
        *line = link(7, 10);
    }
    declines_all(rt, case, &desk, contents(lent.contents), lent.answer)
}

#[test]
fn lists_lent(rt: HostRuntime) -> Result<(), Fail> {
    for (i, lent) in LENT.iter().enumerate() {
        judge_lent(&rt, i, rt.alloc(), lent)?;
    }
    Ok(())
}
