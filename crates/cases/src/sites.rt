//! Sites: what a finished one tells, and what is declined on the way to it.
use crate::desk::Desk;
use refusal::Refusal;
use refusal::fault::Fault;
use site::build::build;
use site::builder::SiteBuilder;
use site::link::Link;
use site::room::SiteRoom;
use site::site::Site;
use std::alloc::Global;
use std::process::Abort;
use std::test::*;

static SQUARE_AND_TAIL: [Link; 5] = [
    Link { a: 0, b: 1 },
    Link { a: 0, b: 2 },
    Link { a: 1, b: 3 },
    Link { a: 2, b: 3 },
    Link { a: 3, b: 4 },
];

/// A site that is asked for, and the refusal's number, if it is declined.
struct Plan {
    nodes: usize,
    root: usize,
    links: &'static [Link],
    declined: Option<u8>,
}

static PLANS: [Plan; 12] = [
    Plan {
        nodes: 1,
        root: 0,
        links: &[],
        declined: None,
    },
    Plan {
        nodes: 0,
        root: 0,
        links: &[],
        declined: Some(2),
    },
    Plan {
        nodes: 257,
        root: 0,
        links: &[],
        declined: Some(2),
    },
    Plan {
        nodes: 257,
        root: 300,
        links: &[],
        declined: Some(2),
    },
    Plan {
        nodes: 3,
        root: 3,
        links: &[],
        declined: Some(8),
    },
    Plan {
        nodes: 256,
        root: 256,
        links: &[],
        declined: Some(8),
    },
    Plan {
        nodes: 256,
        root: 255,
        links: &[],
        declined: Some(6),
    },
    Plan {
        nodes: 2,
        root: 1,
        links: &[Link { a: 0, b: 1 }],
        declined: None,
    },
    Plan {
        nodes: 2,
        root: 0,
        links: &[Link { a: 1, b: 0 }],
        declined: Some(3),
    },
    Plan {
        nodes: 2,
        root: 0,
        links: &[Link { a: 0, b: 2 }],
        declined: Some(3),
    },
    Plan {
        nodes: 2,
        root: 0,
        links: &[Link { a: 0, b: 1 }, Link { a: 0, b: 1 }],
        declined: Some(4),
    },
    Plan {
        nodes: 4,
        root: 3,
        links: &[Link { a: 0, b: 1 }, Link { a: 1, b: 2 }],
        declined: Some(6),
    },
];

// The numbers that a site of five nodes tells.
fn tells(rt: &impl Abort, site: &Site, root: usize, distances: [usize; 5]) -> Result<(), Fail> {
    assert_eq!(rt; site.nodes(), 5);
    assert_eq!(rt; site.root(), root);
    assert_eq!(rt; site.arcs(), 10);
    assert_eq!(rt; site.height(), 3);
    for (v, distance) in distances.iter().enumerate() {
        assert_eq!(rt; site.distance(v)?, *distance);
    }
    assert!(rt; site.distance(5).is_err());
    Ok(())
}

// The ports of its nodes and of the first number past them, and the arcs before each.
static PORTS: [&'static [u16]; 6] = [&[1, 2], &[0, 3], &[0, 3], &[1, 2, 4], &[3], &[]];

static FIRST_ARCS: [usize; 6] = [0, 2, 4, 6, 9, 10];

fn ported(rt: &impl Abort, site: &Site) -> Result<(), Fail> {
    for (v, (ports, first_arc)) in PORTS.iter().zip(&FIRST_ARCS).enumerate() {
        assert!(rt;
            site.ports(v) == *ports && site.first_arc(v) == *first_arc,
            "{}",
            v
        );
    }
    Ok(())
}

// The site of a sheet.
fn told(rt: &impl Abort, desk: &Desk) -> Result<(), Fail> {
    // Without a site the test fails.
    let Some(site) = &desk.site else {
        return Err(Fail::new("no site"));
    };
    tells(rt, site, 0, [0, 1, 1, 2, 3])?;
    ported(rt, site)
}

// The same links about another root.
fn turned(rt: &impl Abort, heap: Global) -> Result<(), Fail> {
    let site = build(heap, 5, 4, &SQUARE_AND_TAIL)?;
    tells(rt, &site, 4, [3, 2, 2, 1, 0])?;
    ported(rt, &site)
}

#[test]
fn five_nodes(rt: HostRuntime) -> Result<(), Fail> {
    let mut desk = Desk::new(rt.alloc())?;
    let answer = desk.answer(
        &rt,
        b"NODES;5\nLINKS;5\nFAULTS;0\nTURNS;0\n0;1\n0;2\n1;3\n2;3\n3;4\n",
    )?;
    assert_eq!(rt; answer, Ok(()));
    told(&rt, &desk)?;
    turned(&rt, rt.alloc())
}

// The number of the refusal to build a site, if it is declined.
fn built(heap: Global, plan: &Plan) -> Result<Option<u8>, Fail> {
    // By cases: want of memory fails the test.
    match build(heap, plan.nodes, plan.root, plan.links) {
        Ok(_) => Ok(None),
        Err(Fault::Refused(e)) => Ok(Some(e.number())),
        Err(Fault::Memory) => Err(Fail::new("no memory")),
    }
}

// The number of the refusal to start in the room, if it is declined.
fn started(heap: Global, nodes: usize, root: usize) -> Result<Option<u8>, Fail> {
    let room = SiteRoom::new(heap)?;
    Ok(room.start(nodes, root).err().map(|e| e.number()))
}

// What the room answers to numbers of nodes and roots.
static STARTS: [(usize, usize, Option<u8>); 5] = [
    (0, 0, Some(2)),
    (257, 0, Some(2)),
    (0, 5, Some(2)),
    (3, 3, Some(8)),
    (256, 255, None),
];

// What a builder of ten nodes answers to links, one after the other.
static ENTERED: [(usize, usize, Option<u8>); 13] = [
    (0, 1, None),
    (0, 2, None),
    (0, 3, None),
    (0, 4, None),
    (0, 5, None),
    (0, 6, None),
    (0, 7, None),
    (0, 8, None),
    (0, 9, Some(5)),
    (0, 8, Some(4)),
    (9, 0, Some(3)),
    (0, 10, Some(3)),
    (8, 9, None),
];

fn enter_all(rt: &impl Abort, builder: &mut SiteBuilder) -> Result<(), Fail> {
    for (a, b, expected) in &ENTERED {
        assert_eq!(rt; builder.enter(*a, *b).err().map(|e| e.number()), *expected);
    }
    Ok(())
}

// A declined link leaves the builder as it was.
fn entered(rt: &impl Abort, heap: Global) -> Result<(), Fail> {
    let mut builder = SiteBuilder::new(heap, 10, 0)?;
    enter_all(rt, &mut builder)?;
    let site = builder.finish()?;
    assert!(rt; site.links().len() == 9 && site.height() == 2);
    assert_eq!(rt; site.distance(9)?, 2);
    Ok(())
}

#[test]
fn sites_declined(rt: HostRuntime) -> Result<(), Fail> {
    for (i, plan) in PLANS.iter().enumerate() {
        assert_eq!(rt; built(rt.alloc(), plan)?, plan.declined, "{}", i);
    }
    for (nodes, root, expected) in &STARTS {
        assert_eq!(rt; started(rt.alloc(), *nodes, *root)?, *expected);
    }
    entered(&rt, rt.alloc())
}
