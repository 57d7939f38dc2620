//! What a net counts since the latest fault.
ghost use Rattle.std.specs.Prelude.{◌≡◌, ℕ, ◌<◌, ◌≤◌, false};
ghost use Rattle.net.specs.Marking.{has};

use crate::marks::Marks;

// 0 and no `Option` for no change: rounds begin with 1, and 0 is what is told.
/// The turns, the complete rounds, the number of the last round in which a register changed or 0,
/// and the nodes that the open round has named; of so many nodes.
#[derive(Clone, Copy)]
pub struct Counters {
    pub turns: u32,
    pub rounds: u32,
    pub last_change: u32,
    pub nodes: usize,
    pub named: Marks,
    ghost spent: { turns ≤ 1000000 },
    ghost slow: { rounds ≤ turns },
    ghost few: { nodes ≤ 256 },
    ghost inside: { (w : ℕ) → nodes ≤ w → w < 256 → has named w ≡ false },
}

impl Counters {
    ghost use Rattle.std.specs.Prelude.{◌-◌};
    ghost use Rattle.rounds.specs.Marks.{count_marked};
    ghost use Rattle.net.specs.Counting.{Counted, Cleared};

    // No `Default`: it takes the number of nodes.
    /// All at zero, of so many nodes: what a fault makes of the counters.
    pub fn new(nodes: usize) -> Counters
        requires { nodes ≤ 256 }
        ensures { Cleared nodes result }
    {
        Counters {
            turns: 0,
            rounds: 0,
            last_change: 0,
            nodes,
            named: Marks::default(),
        }
    }

    /// The nodes that the open round has not named yet.
    pub fn awaited(&self) -> usize
        ensures { result ≡ self.now.nodes - count_marked self.now.nodes (has self.now.named) }
    {
        self.nodes - self.named.count() as usize
    }

    /// Counts a turn of a node, in the round that is open.
    pub fn count(&mut self, v: usize, changed: bool)
        requires v_lt_nodes { v < self.old.nodes }
        requires turns_bound { self.old.turns < 1000000 }
        ensures { Counted self.old v changed self.new }
    {
        if changed {
            self.last_change = self.rounds + 1;
        }
        self.turns += 1;
        self.named.set(v);
        if self.awaited() == 0 {
            self.rounds += 1;
            self.named = Marks::default();
        }
    }
}
