//! Large sheets, and the limits of size and of the lent lists.
use crate::desk::{Answer, Desk, NO_ROOM, Refused};
use std::alloc::Global;
use std::fmt::Write;
use std::process::Abort;
use std::test::*;

const LEAST: &'static str = "NODES;1\nLINKS;0\nFAULTS;0\nTURNS;0\n";

/// A sheet of nodes in a row, each linked to the next.
pub fn row(heap: Global, nodes: u32) -> Result<String, Fail> {
    let last = nodes.saturating_sub(1);
    let mut s = format!(in heap; "NODES;{nodes}\nLINKS;{last}\nFAULTS;0\nTURNS;0\n")?;
    for a in 0..last {
        let b = a.saturating_add(1);
        writeln!(s, "{a};{b}")?;
    }
    Ok(s)
}

// The link of a node to the one so many places on, in a ring of 256.
fn ring_link(s: &mut String, v: u32, step: u32) -> Result<(), Fail> {
    let w = v.saturating_add(step);
    if w < 256 {
        writeln!(s, "{v};{w}")?;
    } else {
        let a = w.saturating_sub(256);
        writeln!(s, "{a};{v}")?;
    }
    Ok(())
}

/// The largest sheet: a ring of 256 nodes, each linked to the four nearest on both sides, with all the faults and turns
/// that there can be.
pub fn largest(heap: Global) -> Result<String, Fail> {
    let mut s = String::from_str(heap, "NODES;256\nLINKS;1024\nFAULTS;4096\nTURNS;1024\n")?;
    for v in 0..256 {
        for step in 1..5 {
            ring_link(&mut s, v, step)?;
        }
    }
    for i in 0..4096u32 {
        let register = i % 3328;
        writeln!(s, "{register};65535")?;
    }
    for i in 0..1024u32 {
        let node = i % 256;
        writeln!(s, "{node}")?;
    }
    Ok(s)
}

// What reading answers of a sheet that line feeds bring to this size.
fn padded(rt: &impl Abort, heap: Global, sheet: &str, size: usize) -> Result<Answer, Fail> {
    let mut bytes = sheet.as_bytes().to_vec(heap)?;
    assert!(rt; bytes.len() <= size);
    bytes.resize(size, b'\n')?;
    Desk::new(heap)?.answer(rt, &bytes)
}

// Every size at the limit and past it.
fn sizes(rt: &impl Abort, heap: Global, sheet: &str, at_limit: Answer) -> Result<(), Fail> {
    assert_eq!(rt; padded(rt, heap, sheet, 65535)?, at_limit);
    assert_eq!(rt; padded(rt, heap, sheet, 65536)?, at_limit);
    assert_eq!(rt;
        padded(rt, heap, sheet, 65537)?,
        Err(Refused { number: 2, line: 0 })
    );
    Ok(())
}

// Lists without room are declined before a byte is looked at, and stay.
fn short(rt: &impl Abort, heap: Global, lists: [usize; 3], sheet: &[u8]) -> Result<(), Fail> {
    let mut desk = Desk::sized(heap, lists[0], lists[1], lists[2])?;
    assert_eq!(rt; desk.read(sheet)?.map(|_| ()), NO_ROOM);
    assert!(rt; desk.is_full() && desk.site.is_none());
    Ok(())
}

// Longer lists are cleared to their ends.
fn longer(rt: &impl Abort, heap: Global) -> Result<(), Fail> {
    let mut desk = Desk::sized(heap, 1025, 4097, 1030)?;
    assert_eq!(rt; desk.answer(rt, LEAST.as_bytes())?, Ok(()));
    Ok(())
}

#[test]
fn limits(rt: HostRuntime) -> Result<(), Fail> {
    sizes(&rt, rt.alloc(), LEAST, Err(Refused { number: 1, line: 5 }))?;
    sizes(&rt, rt.alloc(), "", Err(Refused { number: 1, line: 1 }))?;
    for sheet in [LEAST, "", "x"] {
        for lists in [
            [1023, 4096, 1024],
            [1024, 4095, 1024],
            [1024, 4096, 1023],
            [0, 0, 0],
        ] {
            short(&rt, rt.alloc(), lists, sheet.as_bytes())?;
        }
    }
    longer(&rt, rt.alloc())
}

// The distances of a few nodes, and the greatest.
fn spans(
    rt: &impl Abort,
    desk: &Desk,
    some: [(usize, usize); 5],
    height: usize,
) -> Result<(), Fail> {
    // Without a site the test fails.
    let Some(site) = &desk.site else {
        return Err(Fail::new("no site"));
    };
    for (v, d) in some {
        assert_eq!(rt; site.distance(v)?, d);
    }
    assert_eq!(rt; site.height(), height);
    Ok(())
}

// Reads a row, and finds the row of 256 nodes in the site's place.
fn reads_row(rt: &impl Abort, desk: &mut Desk, nodes: u32, expected: Answer) -> Result<(), Fail> {
    let sheet = row(desk.heap, nodes)?;
    assert_eq!(rt; desk.answer(rt, sheet.as_bytes())?, expected);
    spans(
        rt,
        desk,
        [(0, 0), (1, 1), (2, 2), (254, 254), (255, 255)],
        255,
    )
}

// Reads the largest sheet.
fn reads_largest(rt: &impl Abort, desk: &mut Desk) -> Result<(), Fail> {
    let sheet = largest(desk.heap)?;
    assert_eq!(rt; desk.answer(rt, sheet.as_bytes())?, Ok(()));
    spans(
        rt,
        desk,
        [(4, 1), (5, 2), (128, 32), (251, 2), (252, 1)],
        32,
    )?;
    sizes(
        rt,
        desk.heap,
        sheet.as_str(),
        Err(Refused {
            number: 1,
            line: 6149,
        }),
    )
}

#[test]
fn large_sheets(rt: HostRuntime) -> Result<(), Fail> {
    let mut desk = Desk::new(rt.alloc())?;
    reads_row(&rt, &mut desk, 256, Ok(()))?;
    reads_row(&rt, &mut desk, 257, Err(Refused { number: 2, line: 1 }))?;
    reads_largest(&rt, &mut desk)
}
