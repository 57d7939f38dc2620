//! A net, and giving its nodes turns and faults.
ghost use Rattle.std.specs.Prelude.{◌≡◌, ◌<◌};
ghost use Rattle.site.specs.Sites.{model};

use crate::counters::Counters;
use daemon::Daemon;
use promise::Drawn;
use refusal::Refusal;
use refusal::limits::TURN_BUDGET;
use silent::Silent;
use site::site::Site;

mod holds;
mod readings;
mod settle;

/// A net over one site and one protocol, with its owner's mark.
pub struct Net<'a, P> {
    site: &'a Site,
    protocol: P,
    mark: u16,
    held: bool,
    counters: Counters,
    ghost fits: { counters.nodes ≡ (model site.now).nodes },
}

impl<'a, P: Silent> Net<'a, P> {
    ghost use Rattle.std.specs.Prelude.{◌≤◌, [], ◌∷◌};
    ghost use Rattle.refusal.specs.declared.Refusal.TheVariants.{Exhausted};
    ghost use Rattle.refusal.specs.Checks.{Checked};
    ghost use Rattle.promise.specs.Nets.{fault as Fault, turn as Turn};
    ghost use Rattle.net.specs.Calls.{Asks, Does, Gives, Promises, Starts, Unasked, drawing};
    ghost use Rattle.net.specs.Lives.{Lives};

    /// A net over this site and protocol, whatever its registers hold, with its owner's mark; no hold is open and nothing is counted yet.
    pub fn new(site: &'a Site, protocol: P, mark: u16) -> Net<'a, P>
        ensures starts { Starts P.Silent site.now protocol mark result }
        ensures promise { Promises P.Silent site.now protocol }
        ensures lives { Lives P.Silent }
    {
        let nodes = site.nodes();
        Net {
            site,
            protocol,
            mark,
            held: false,
            counters: Counters::new(nodes),
        }
    }

    /// Ends the net, whether or not a hold is open, and hands back its protocol.
    pub fn into_protocol(self) -> P
        ensures { result ≡ self.entry.protocol }
    {
        // Taken apart whole, since a net cannot be let go.
        let Net {
            site: _,
            protocol,
            mark: _,
            held: _,
            counters: _,
        } = self;
        protocol
    }

    /// Gives a node a turn: whether a register changed. Declines, and changes nothing: `Node`, then `Exhausted`.
    pub fn turn(&mut self, v: usize) -> Result<bool, Refusal>
        ensures { Does P.Silent self.old (Turn v) result self.new }
    {
        if v >= self.counters.nodes {
            return Err(Refusal::Node);
        }
        self.granted()?;
        Ok(self.give(v))
    }

    /// Asks a daemon, and gives the node that it names a turn. Declines, and asks and changes nothing: `Mismatch`, then `Exhausted`.
    pub fn draw<D: Daemon>(&mut self, daemon: &mut D) -> Result<Drawn, Refusal>
        ensures draws { Does P.Silent self.old (drawing D.Daemon daemon.old daemon.new) result self.new }
        ensures unasked { Unasked daemon.old result daemon.new }
        ensures asks { Asks D.Daemon daemon.old result daemon.new }
    {
        if daemon.nodes() != self.counters.nodes {
            return Err(Refusal::Mismatch);
        }
        self.granted()?;
        let node = daemon.ask();
        let changed = self.give(node);
        Ok(Drawn { node, changed })
    }

    /// Writes a register, and counts anew. Declines, and changes nothing: `Limit` for a value above 65,535, then `Place`.
    pub fn fault(&mut self, place: u64, value: u32) -> Result<(), Refusal>
        ensures { Does P.Silent self.old (Fault place value) result self.new }
    {
        let value = u16::try_from(value).map_err(|_| Refusal::Limit)?;
        self.protocol.write(self.site, place, value)?;
        self.counters = Counters::new(self.counters.nodes);
        Ok(())
    }

    // Whether the net has turns left.
    fn granted(&self) -> Result<(), Refusal>
        ensures { Checked ((Exhausted, 1000000 ≤ self.now.counters.turns) ∷ []) result }
    {
        if self.counters.turns >= TURN_BUDGET {
            return Err(Refusal::Exhausted);
        }
        Ok(())
    }

    // A turn of a node, on a net that has turns left.
    fn give(&mut self, v: usize) -> bool
        requires v_lt_nodes { v < self.old.counters.nodes }
        requires turns_bound { self.old.counters.turns < 1000000 }
        ensures { Gives P.Silent self.old v result self.new }
    {
        let Ok(changed) = self.protocol.turn(self.site, v) else {
            unreachable()
        };
        self.counters.count(v, changed);
        changed
    }
}
