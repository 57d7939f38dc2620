//! Runs of a net that a sheet asks for.
ghost use Rattle.std.specs.Prelude.{◌≡◌, ◌≤◌, length, vec_capacity};
ghost use Rattle.std.specs.List.{AllByRecursion};
ghost use Rattle.protocol.specs.Protocols.{told_bound, told_size};
ghost use Rattle.promise.specs.Nets.{Fresh};
ghost use Rattle.net.specs.Calls.{at, meant, state};
ghost use Rattle.net.specs.Settling.{Able, Course};
ghost use Rattle.report.specs.Runs.{Entered, Fit, Rested, Scripted, names_of};

use daemon::Daemon;
use daemon::robin::RoundRobin;
use daemon::script::Script;
use net::net::Net;
use silent::Silent;
use text::records::{FaultLine, TurnLine};

// Enters faults, in their order.
pub(crate) fn enter<P: Silent>(net: &mut Net<P>, faults: &[FaultLine])
    requires { AllByRecursion (Fit (told_size (meant P.Silent net.old))) faults.now }
    ensures { Entered P.Silent net.old faults.now net.new }
{
    for fault in faults {
        let Ok(()) = net.fault(fault.register.get() as u64, fault.value.get()) else {
            unreachable()
        };
    }
}

// The nodes of turn lines, in memory that has room for them.
fn nodes_of(turns: &[TurnLine], mut names: Vec<u16>) -> Vec<u16>
    requires room { length turns.now ≤ vec_capacity names }
    requires few { AllByRecursion (λ t. t.node.value ≤ 65535) turns.now }
    ensures { result.items ≡ names_of turns.now }
{
    names.clear();
    for turn in turns {
        names.push_reserved(turn.node.get() as u16);
    }
    names
}

// Draws until the rounds equal the bound, under a daemon that gives every node its turns in time.
fn draw<P: Silent, D: Daemon>(net: &mut Net<P>, daemon: &mut D)
    requires { Able P.Silent D.Daemon net.old daemon.old }
    ensures { Course P.Silent D.Daemon net.old daemon.old net.new daemon.new }
{
    let Ok(()) = net.settle(daemon) else {
        unreachable()
    };
}

// Draws until the rounds equal the bound: by round robin without turn lines, else by the script that they are.
pub(crate) fn settle<P: Silent>(net: &mut Net<P>, nodes: usize, turns: &[TurnLine], names: Vec<u16>)
    requires nodes { nodes ≡ (at net.old).nodes }
    requires fresh { Fresh (at net.old).nodes (state P.Silent net.old) }
    requires low { told_bound (meant P.Silent net.old) ≤ 768 }
    requires script { Scripted nodes (names_of turns.now) }
    requires room { length turns.now ≤ vec_capacity names }
    ensures { Rested P.Silent net.old (names_of turns.now) net.new }
{
    if turns.is_empty() {
        let Ok(mut robin) = RoundRobin::new(nodes) else {
            unreachable()
        };
        draw(net, &mut robin)
    } else {
        let Ok(mut script) = Script::owned(nodes, nodes_of(turns, names)) else {
            unreachable()
        };
        draw(net, &mut script)
    }
}
