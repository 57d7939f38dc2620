//! The daemon that names the nodes in their order.
ghost use Rattle.std.specs.Prelude.{◌≡◌, ◌<◌, ◌≤◌};

use crate::Daemon;
use refusal::Refusal;
use refusal::limits::NODES;

/// Names 0 to n - 1 for n nodes, again and again. Its patience is n.
#[derive(Drop)]
pub struct RoundRobin {
    nodes: usize,
    next: usize,
    ghost within: { next < nodes },
    ghost few: { nodes ≤ 256 },
}

impl RoundRobin {
    ghost use Rattle.daemon.specs.RoundRobins.{RobinMade};

    /// A round robin for so many nodes that names 0 first. Declines: `Limit` unless there are 1 to 256 nodes.
    pub fn new(nodes: usize) -> Result<RoundRobin, Refusal>
        ensures { RobinMade nodes result }
    {
        if !(1..=NODES).contains(&nodes) {
            return Err(Refusal::Limit);
        }
        Ok(RoundRobin { nodes, next: 0 })
    }
}

/// The node that is named next moves on by one, from the last to 0.
impl Daemon for RoundRobin {
    ghost use Rattle.rounds.specs.Dues.{Asked};
    ghost use Rattle.daemon.specs.RoundRobins.{RobinAsked, robin_dues};
    ghost use Rattle.daemon.specs.RobinSound.{robin_timely};

    ghost meaning = { robin_dues };

    ghost Asks = { RobinAsked };

    ghost timely = { robin_timely };

    fn nodes(&self) -> usize {
        self.nodes
    }

    fn ask(&mut self) -> usize
        ensures asked { Asked (robin_dues self.old) result (robin_dues self.new) }
        ensures asks { RobinAsked self.old result self.new }
    {
        let v = self.next;
        // As its definition says it; a remainder would say the same.
        self.next = if v + 1 < self.nodes { v + 1 } else { 0 };
        v
    }
}
