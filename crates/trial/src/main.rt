//! Tries the whole stack on the site of five nodes under a round robin: a lift comes too early after 59 draws, and is
//! granted after 60.

#![tactic(auto)]

use anyhow::anyhow;
use daemon::Daemon;
use daemon::robin::RoundRobin;
use net::net::Net;
use promise::Lifted;
use refusal::Refusal;
use report::room::stack;
use silent::Silent;
use site::build::build;
use site::link::Link;
use site::site::Site;

// The links of the site of five nodes.
const LINKS: [Link; 5] = [
    Link { a: 0, b: 1 },
    Link { a: 0, b: 2 },
    Link { a: 1, b: 3 },
    Link { a: 2, b: 3 },
    Link { a: 3, b: 4 },
];

// Takes a hold and lifts it, or cancels it where that is declined: the answer to the lift.
fn try_lift<P: Silent>(net: &mut Net<P>) -> Result<Lifted, Refusal> {
    let hold = net.hold(1)?;
    // By cases: a hold that comes back cannot be let go.
    match net.lift(hold) {
        Ok(lifted) => Ok(lifted),
        Err((e, hold)) => match net.cancel(hold) {
            Ok(()) => Err(e),
            Err((_, _hold)) => unreachable(),
        },
    }
}

// So many draws.
fn draw<P: Silent>(net: &mut Net<P>, robin: &mut RoundRobin, times: u32) {
    for _ in 0..times {
        let _ = net.draw(robin);
    }
}

// What a lift answers, in words.
fn say(rt: &HostRuntime, draws: u32, answer: Result<Lifted, Refusal>) -> anyhow::Result<()> {
    match answer {
        Ok(Lifted { bound, last_change }) => {
            println!(rt; "{draws} draws: granted, bound {bound}, last change {last_change}")?;
        }
        Err(e) => println!(rt; "{draws} draws: {}", e.number())?,
    }
    Ok(())
}

fn run(rt: &HostRuntime, site: &Site) -> anyhow::Result<()> {
    let stack = stack(rt.alloc())?;
    let mut robin = RoundRobin::new(site.nodes()).map_err(|_| anyhow!("no daemon"))?;
    let mut net = Net::new(site, stack, 7);
    draw(&mut net, &mut robin, 59);
    let early = try_lift(&mut net);
    draw(&mut net, &mut robin, 1);
    let granted = try_lift(&mut net);
    let _ = net.into_protocol();
    say(rt, 59, early)?;
    say(rt, 60, granted)
}

fn main(rt: HostRuntime) -> anyhow::Result<()> {
    let site = build(rt.alloc(), 5, 0, &LINKS).map_err(|_| anyhow!("no site"))?;
    run(&rt, &site)
}

#[cfg(test)]
mod tests {
    use super::*;
    use daemon::script::Script;
    use protocol::Output;
    use report::room::Stack;
    use std::process::Abort;
    use std::test::*;

    // What the nodes tell at rest, worked out by hand: the tree, its branches, the tour, and the pairs that a round robin leaves.
    const ROWS: [Output; 5] = [
        Output {
            parent: None,
            count: 5,
            rank: 0,
            mate: Some(1),
        },
        Output {
            parent: Some(0),
            count: 3,
            rank: 1,
            mate: Some(0),
        },
        Output {
            parent: Some(0),
            count: 1,
            rank: 4,
            mate: Some(3),
        },
        Output {
            parent: Some(1),
            count: 2,
            rank: 2,
            mate: Some(2),
        },
        Output {
            parent: Some(3),
            count: 1,
            rank: 3,
            mate: None,
        },
    ];

    // What a net came to.
    #[derive(Clone, Copy)]
    struct Seen {
        settled: bool,
        turns: u32,
        rounds: u32,
        awaited: usize,
        last_change: u32,
        rows: [Option<Output>; 5],
    }

    // What a net of the stack comes to under a daemon.
    fn settled<D: Daemon>(stack: Stack, site: &Site, daemon: &mut D) -> Seen {
        let mut net = Net::new(site, stack, 7);
        let settled = net.settle(daemon).is_ok();
        let seen = Seen {
            settled,
            turns: net.turns(),
            rounds: net.rounds(),
            awaited: net.awaited(),
            last_change: net.last_change(),
            rows: [0, 1, 2, 3, 4].map(|v| net.output(v).ok()),
        };
        let _ = net.into_protocol();
        seen
    }

    // It settled in as many rounds as the bound, and the tree, the counts and the numbers are those of the rows.
    fn rests(rt: &impl Abort, seen: Seen) -> Result<(), Fail> {
        assert!(rt; seen.settled);
        assert_eq!(rt; seen.rounds, 12);
        assert_eq!(rt; seen.awaited, 5);
        for (v, row) in ROWS.iter().enumerate() {
            let mate = seen.rows[v].and_then(|told| told.mate);
            assert_eq!(rt; seen.rows[v], Some(Output { mate, ..*row }), "node {v}");
        }
        Ok(())
    }

    #[test]
    fn settles_in_turn(rt: HostRuntime) -> Result<(), Fail> {
        let site = build(rt.alloc(), 5, 0, &LINKS)?;
        let mut robin = RoundRobin::new(5)?;
        let seen = settled(stack(rt.alloc())?, &site, &mut robin);
        rests(&rt, seen)?;
        assert_eq!(rt; seen.turns, 60);
        assert_eq!(rt; seen.last_change, 5);
        for (v, row) in ROWS.iter().enumerate() {
            assert_eq!(rt; seen.rows[v], Some(*row), "node {v}");
        }
        Ok(())
    }

    #[test]
    fn settles_by_script(rt: HostRuntime) -> Result<(), Fail> {
        let site = build(rt.alloc(), 5, 0, &LINKS)?;
        let names = Vec::from_array(rt.alloc(), [4, 4, 3, 2, 1, 0])?;
        let mut script = Script::owned(5, names)?;
        let seen = settled(stack(rt.alloc())?, &site, &mut script);
        rests(&rt, seen)?;
        assert_eq!(rt; seen.turns, 72);
        Ok(())
    }
}
