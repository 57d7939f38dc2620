//! Daemons: who gets the next turn.

#![tactic(auto)]

ghost use Rattle.std.specs.Prelude.{◌≡◌, ℕ};
ghost use Rattle.rounds.specs.Dues.{Asked, Dues, Timely};
ghost use Rattle.daemon.specs.Dues.{CompletesRounds, NamesAll};

pub mod order;
pub mod robin;
pub mod script;

/// Names the nodes that get turns, one at each asking. It is made for a number of nodes and has a patience:
/// any askings in a row, as many as the patience, name every node. Nothing but an asking moves it.
pub trait Daemon: Sized {
    // its number of nodes, its patience, and within how many askings each node is named
    ghost meaning: { Self → Dues };

    // an asking of a value, the node that it names, and the value that it leaves
    ghost Asks: { Self → ℕ → Self → Type 0 };

    /// The number of nodes that it is made for.
    fn nodes(&self) -> usize
        ensures { result ≡ (meaning self.now).nodes };

    /// Names a node, and declines no asking. Every other node is due sooner than before.
    fn ask(&mut self) -> usize
        ensures asks { Asks self.old result self.new }
        ensures asked { Asked (meaning self.old) result (meaning self.new) };

    ghost timely: { (d : Self) → Timely (meaning d) };
}

/// Carries the law of patience of any daemon, whatever it was asked before.
pub fn patience_stands<D: Daemon>()
    ensures names { (d : D) → NamesAll (D.Daemon.meaning d) }
    ensures completes { (d : D) → CompletesRounds (D.Daemon.meaning d) }
{}
