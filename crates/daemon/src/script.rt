//! The daemon that names the nodes as a list says.
ghost use Rattle.std.specs.Prelude.{◌≡◌, ◌<◌, ◌≤◌, Decides, nat_eq, nat_le, not, vec_len, vec_items};
ghost use Rattle.std.specs.List.{list_any, range_with_len};
ghost use Rattle.refusal.specs.Checks.{Checked, Free};
ghost use Rattle.daemon.specs.ScriptChecks.{script_checks};

use crate::Daemon;
use refusal::Refusal;
use refusal::fault::Fault;
use refusal::limits::{NAMES, NODES};
use std::alloc::Global;

/// Names the nodes of a list in its order, again and again. Its patience is the list's length.
#[derive(Drop)]
pub struct Script {
    nodes: usize,
    names: Vec<u16>,
    // A place beside the names: an iterator that owns them and goes round would copy them, and want memory.
    at: usize,
    ghost sound: { Free (script_checks nodes names.items) },
    ghost within: { at < vec_len names },
}

// Whether the numbers of nodes and of names are within their limits.
fn fits(nodes: usize, names: usize) -> bool
    ensures { Decides result ((1 ≤ names) × (names ≤ 1024) × (1 ≤ nodes) × (nodes ≤ 256)) }
{
    (1..=NAMES).contains(&names) && (1..=NODES).contains(&nodes)
}

// Whether some name is none of the nodes.
fn strays(nodes: usize, names: &[u16]) -> bool
    ensures { result ≡ list_any (λ v. nat_le nodes v) names.now }
{
    names.iter().any(|name| *name as usize >= nodes)
}

// Whether some node is not named.
fn lacks(nodes: usize, names: &[u16]) -> bool
    requires { nodes ≤ 256 }
    ensures { result ≡ list_any (λ v. not (list_any (λ y. nat_eq y v) names.now)) (range_with_len 0 nodes) }
{
    (0..nodes).any(|v| !names.contains(&(v as u16)))
}

// The checks of a script, in their order.
fn check(nodes: usize, names: &[u16]) -> Result<(), Refusal>
    ensures { Checked (script_checks nodes names.now) result }
{
    if !fits(nodes, names.len()) {
        return Err(Refusal::Limit);
    }
    if strays(nodes, names) {
        return Err(Refusal::Node);
    }
    if lacks(nodes, names) {
        return Err(Refusal::Missing);
    }
    Ok(())
}

impl Script {
    ghost use Rattle.daemon.specs.Scripts.{Begins, ScriptMade, ScriptOwned};

    /// A script of these names that begins with the first. Declines: `Limit` unless there are 1 to 1,024 names
    /// and 1 to 256 nodes, then `Node` unless every name is one of the nodes, then `Missing` unless every node is named.
    pub fn new(heap: Global, nodes: usize, names: &[u16]) -> Result<Script, Fault>
        ensures { ScriptMade nodes names.now result }
    {
        check(nodes, names)?;
        Ok(Script::begin(nodes, Vec::from_slice(heap, names)?))
    }

    /// A script of these names, which it keeps; declines as `new` does, and wants no memory.
    pub fn owned(nodes: usize, names: Vec<u16>) -> Result<Script, Refusal>
        ensures { ScriptOwned nodes (vec_items names) result }
    {
        check(nodes, &names)?;
        Ok(Script::begin(nodes, names))
    }

    // A script of names that passed the checks.
    fn begin(nodes: usize, names: Vec<u16>) -> Script
        requires { Free (script_checks nodes (vec_items names)) }
        ensures { Begins nodes (vec_items names) result }
    {
        Script {
            nodes,
            names,
            at: 0,
        }
    }
}

/// The place in the list moves on by one, from the last to the first.
impl Daemon for Script {
    ghost use Rattle.rounds.specs.Dues.{Asked};
    ghost use Rattle.daemon.specs.Scripts.{ScriptAsked, script_dues, names_of};
    ghost use Rattle.daemon.specs.Waits.{waits_within};
    ghost use Rattle.daemon.specs.ScriptSound.{free_covers};

    ghost meaning = { script_dues };

    ghost Asks = { ScriptAsked };

    ghost timely = { λ s. waits_within s.nodes (names_of s) s.at (free_covers s.nodes (names_of s) s.sound) };

    fn nodes(&self) -> usize {
        self.nodes
    }

    fn ask(&mut self) -> usize
        ensures asked { Asked (script_dues self.old) result (script_dues self.new) }
        ensures asks { ScriptAsked self.old result self.new }
    {
        let v = self.names[self.at] as usize;
        self.at = (self.at + 1) % self.names.len();
        v
    }
}
