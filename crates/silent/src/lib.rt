//! The interface of a silent protocol: what its calls answer, by its meaning at a site, and the laws that it owes.

#![tactic(auto)]

ghost use Rattle.std.specs.Prelude.{◌≡◌, ℕ, List};
ghost use Rattle.graph.specs.Model.{Model, Proper};
ghost use Rattle.site.specs.Sites.{model};
ghost use Rattle.protocol.specs.Protocols.{Laws, Protocol, Registers, told_bound, told_size};
ghost use Rattle.silent.specs.Answers.{Read, Told, Turned, Written};

use protocol::Output;
use refusal::Refusal;
use site::site::Site;

// (site, v) stay two: two protocols side by side are passed one site, by the rules of the interface.
/// A silent protocol. Every call is passed the site that it runs on; all but the registers is fixed when a value is made.
pub trait Silent: Sized {
    // what is fixed when a value is made
    ghost Plan: { Type 0 };

    ghost plan: { Self → Plan };

    // what a protocol of that plan is at each site
    ghost meaning: { Plan → Model → Protocol };

    // the registers that a value has at a site
    ghost registers: { Self → Model → List ℕ };

    /// Gives a node a turn: whether a register changed. Declines `Node`, and changes nothing.
    fn turn(&mut self, site: &Site, v: usize) -> Result<bool, Refusal>
        ensures plan { plan self.new ≡ plan self.old }
        ensures turned { Turned (model site.now) (meaning (plan self.old) (model site.now)) v (registers self.old (model site.now)) result (registers self.new (model site.now)) };

    /// Writes a register, and no other. Declines `Place`, and changes nothing.
    fn write(&mut self, site: &Site, place: u64, value: u16) -> Result<(), Refusal>
        ensures plan { plan self.new ≡ plan self.old }
        ensures written { Written (meaning (plan self.old) (model site.now)) place value (registers self.old (model site.now)) result (registers self.new (model site.now)) };

    /// A register's value. Declines `Place`.
    fn read(&self, site: &Site, place: u64) -> Result<u16, Refusal>
        ensures { Read (meaning (plan self.now) (model site.now)) place (registers self.now (model site.now)) result };

    /// What a node tells. Declines `Node`.
    fn output(&self, site: &Site, v: usize) -> Result<Output, Refusal>
        ensures { Told (model site.now) (meaning (plan self.now) (model site.now)) v (registers self.now (model site.now)) result };

    /// The number of registers, told as 2^32 where it is more.
    fn size(&self, site: &Site) -> u64
        ensures { result ≡ told_size (meaning (plan self.now) (model site.now)) };

    /// The rounds within which rest is reached, told as 1,000,001 where it is more.
    fn bound(&self, site: &Site) -> u32
        ensures { result ≡ told_bound (meaning (plan self.now) (model site.now)) };

    /// The links of the longest chain of told parents at rest.
    fn height(&self, site: &Site) -> u32
        ensures { result ≡ (meaning (plan self.now) (model site.now)).height };

    ghost sized: { (s : Self) (m : Model) → Proper m → Registers (meaning (plan s) m).size (registers s m) };

    ghost laws: { (p : Plan) (m : Model) → Proper m → Laws m (meaning p m) };
}
