//! Lines: numbers and fields, lines written, lines read.
use crate::desk::{link, number};
use std::alloc::Global;
use std::process::Abort;
use std::test::*;
use text::contents::{ContentsLine, Word};
use text::fault::ScanFault;
use text::line::{ReadLine, WriteLine};
use text::number::Number;
use text::reader::Reader;
use text::records::{FaultLine, LinkLine, TurnLine};
use text::report::{NodeLine, RefusedLine, Tally, TallyWord};
use text::scan::{field_end, line_end};

// Fields that are no numbers.
static OTHERS: [&'static [u8]; 16] = [
    b"", b"00", b"05", b"000000", b"012345", b"100000", b" 1", b"1 ", b"-1", b"+1", b"1\r", b"1\n",
    b"1;", b"/", b":", b"1a",
];

// What is read of a field, if anything.
fn value(field: &[u8]) -> Option<u32> {
    Number::read(field).map(|n| n.get())
}

fn fields(rt: &impl Abort) -> Result<(), Fail> {
    assert_eq!(rt; value(b"0"), Some(0));
    assert_eq!(rt; value(b"9"), Some(9));
    assert_eq!(rt; value(b"10"), Some(10));
    assert_eq!(rt; value(b"12345"), Some(12345));
    assert_eq!(rt; value(b"99999"), Some(99999));
    for (i, field) in OTHERS.iter().enumerate() {
        assert_eq!(rt; value(field), None, "{}", i);
    }
    assert!(rt; Number::new(99999).is_some() && Number::new(100000).is_none());
    assert_eq!(rt; field_end(b"12;3;4"), 2);
    assert_eq!(rt; field_end(b";"), 0);
    assert_eq!(rt; field_end(b"12\n3"), 4);
    assert_eq!(rt; line_end(b"1;2\n3\n"), 3);
    assert_eq!(rt; line_end(b"1;2\r"), 4);
    assert_eq!(rt; line_end(b""), 0);
    Ok(())
}

// Onto a page of dots that is one byte short after the third: nothing.
fn declines<L: WriteLine>(
    rt: &impl Abort,
    heap: Global,
    line: &L,
    size: usize,
) -> Result<(), Fail> {
    let mut page = vec![in heap; b'.'; size.saturating_add(2)]?;
    assert!(rt; line.write(&mut page, 3).is_none());
    assert!(rt; page.iter().all(|x| *x == b'.'));
    Ok(())
}

// Onto a page of dots, after three of them and before two.
fn leaves<L: WriteLine>(rt: &impl Abort, heap: Global, line: &L, text: &[u8]) -> Result<(), Fail> {
    let mut expected = b"...".to_vec(heap)?;
    expected.extend_from_slice(text)?;
    expected.extend_from_slice(b"..")?;
    let mut page = vec![in heap; b'.'; expected.len()]?;
    assert_eq!(rt;
        line.write(&mut page, 3),
        Some(text.len().saturating_add(3))
    );
    assert!(rt; page.as_slice() == expected.as_slice());
    Ok(())
}

fn writes<L: WriteLine>(rt: &impl Abort, heap: Global, line: &L, text: &[u8]) -> Result<(), Fail> {
    assert_eq!(rt; line.size(), text.len());
    declines(rt, heap, line, text.len())?;
    leaves(rt, heap, line, text)
}

// The lines of a sheet.
fn writes_sheet_lines(rt: &impl Abort, heap: Global) -> Result<(), Fail> {
    let head = ContentsLine {
        word: Word::Faults,
        number: number(4096),
    };
    writes(rt, heap, &head, b"FAULTS;4096")?;
    let link = LinkLine {
        a: number(0),
        b: number(255),
    };
    writes(rt, heap, &link, b"0;255")?;
    let fault = FaultLine {
        register: number(3327),
        value: number(65535),
    };
    writes(rt, heap, &fault, b"3327;65535")?;
    let turn = TurnLine { node: number(10) };
    writes(rt, heap, &turn, b"10")
}

// The lines of a report.
fn writes_report_lines(rt: &impl Abort, heap: Global) -> Result<(), Fail> {
    let bound = Tally {
        word: TallyWord::Bound,
        number: number(12),
    };
    writes(rt, heap, &bound, b"BOUND;12")?;
    let last = Tally {
        word: TallyWord::Last,
        number: number(0),
    };
    writes(rt, heap, &last, b"LAST;0")?;
    let refused = RefusedLine {
        number: number(3),
        line: number(17),
    };
    writes(rt, heap, &refused, b"REFUSED;3;17")?;
    let alone = NodeLine {
        node: number(3),
        parent: None,
        count: number(20),
        rank: number(0),
        mate: None,
    };
    writes(rt, heap, &alone, b"3;-;20;0;-")?;
    let told = NodeLine {
        node: number(255),
        parent: Some(number(0)),
        count: number(1),
        rank: number(9),
        mate: Some(number(254)),
    };
    writes(rt, heap, &told, b"255;0;1;9;254")
}

// The next line as a link.
fn next_link(rd: &mut Reader) -> Result<LinkLine, ScanFault> {
    rd.read()
}

// Lines one after the other, with their numbers.
fn reads(rt: &impl Abort) -> Result<(), Fail> {
    let mut rd = Reader::new(b"0;9\n10;2\n7\n3");
    assert_eq!(rt; rd.end(), Err(ScanFault::Trailing(1)));
    assert_eq!(rt; next_link(&mut rd), Ok(link(0, 9)));
    assert_eq!(rt; next_link(&mut rd), Ok(link(10, 2)));
    assert_eq!(rt; rd.lines(), 2);
    assert_eq!(rt; next_link(&mut rd), Err(ScanFault::Form(3)));
    assert_eq!(rt; next_link(&mut rd), Err(ScanFault::Lacking(4)));
    assert_eq!(rt; Reader::new(b"").end(), Ok(()));
    Ok(())
}

#[test]
fn lines(rt: HostRuntime) -> Result<(), Fail> {
    fields(&rt)?;
    writes_sheet_lines(&rt, rt.alloc())?;
    writes_report_lines(&rt, rt.alloc())?;
    reads(&rt)
}
