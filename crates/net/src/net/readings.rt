//! What a net tells.
ghost use Rattle.promise.specs.Nets.{ask as Ask, ask_held as AskHeld, awaited as Awaited, bound as Bound, height as Height, last as Last, mark as Mark, read as Read, rounds as Rounds, size as Size, tell as Tell, turns as Turns};
ghost use Rattle.net.specs.Calls.{Tells};

use super::Net;
use protocol::Output;
use refusal::Refusal;
use silent::Silent;

impl<P: Silent> Net<'_, P> {
    /// The turns since the latest fault.
    pub fn turns(&self) -> u32
        ensures { Tells P.Silent self.now (Ask Turns) result }
    {
        self.counters.turns
    }

    /// The complete rounds since the latest fault.
    pub fn rounds(&self) -> u32
        ensures { Tells P.Silent self.now (Ask Rounds) result }
    {
        self.counters.rounds
    }

    /// The nodes that the open round has not named yet.
    pub fn awaited(&self) -> usize
        ensures { Tells P.Silent self.now (Ask Awaited) result }
    {
        self.counters.awaited()
    }

    /// The number of the last round since the latest fault in which a register changed, or 0.
    pub fn last_change(&self) -> u32
        ensures { Tells P.Silent self.now (Ask Last) result }
    {
        self.counters.last_change
    }

    /// The owner's mark.
    pub fn mark(&self) -> u16
        ensures { Tells P.Silent self.now (Ask Mark) result }
    {
        self.mark
    }

    /// Whether a hold is open.
    pub fn is_held(&self) -> bool
        ensures { Tells P.Silent self.now AskHeld result }
    {
        self.held
    }

    /// The rounds within which rest is reached, told as 1,000,001 where it is more.
    pub fn bound(&self) -> u32
        ensures { Tells P.Silent self.now (Ask Bound) result }
    {
        self.protocol.bound(self.site)
    }

    /// The links of the longest chain of told parents at rest.
    pub fn height(&self) -> u32
        ensures { Tells P.Silent self.now (Ask Height) result }
    {
        self.protocol.height(self.site)
    }

    /// The number of registers, told as 2^32 where it is more.
    pub fn size(&self) -> u64
        ensures { Tells P.Silent self.now (Ask Size) result }
    {
        self.protocol.size(self.site)
    }

    /// A register's value. Declines `Place`.
    pub fn register(&self, place: u64) -> Result<u16, Refusal>
        ensures { Tells P.Silent self.now (Read place) result }
    {
        self.protocol.read(self.site, place)
    }

    /// What a node tells. Declines `Node`.
    pub fn output(&self, v: usize) -> Result<Output, Refusal>
        ensures { Tells P.Silent self.now (Tell v) result }
    {
        self.protocol.output(self.site, v)
    }
}
