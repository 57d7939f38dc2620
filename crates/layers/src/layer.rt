//! What a layer adds to a protocol.
ghost use Rattle.std.specs.Prelude.{◌≡◌, ◌<◌, ◌≤◌, suc, ◌==◌};
ghost use Rattle.graph.specs.Model.{Model, Proper};
ghost use Rattle.site.specs.Sites.{model};
ghost use Rattle.protocol.specs.Layers.{Layer as Meaning, LayerLaws};
ghost use Rattle.protocol.specs.Outputs.{stored};
ghost use Rattle.registers.specs.Blocks.{front};
ghost use Rattle.layers.specs.Below.{Ruled, child_told, told};

use protocol::Output;
use refusal::limits::{LINKS, NODES};
use registers::Block;
use silent::Silent;
use site::site::Site;

/// The most registers of a layer: one for each node and one for each arc of the largest site.
pub const ROOM: usize = NODES + 2 * LINKS;

/// A layer: registers of its own over those of any protocol, a turn for them, and a part of the output.
pub trait Layer: Sized {
    // what the layer adds at each site
    ghost meaning: { Model → Meaning };

    /// How many registers it keeps at a site.
    fn size(site: &Site) -> u32
        ensures { result ≡ (meaning (model site.now)).size };

    // `own` stands apart from `below`: a turn writes it, and all else only reads it.
    /// A node's turn, by what is told below after its turn there: whether a register of the layer changed.
    fn turn<P: Silent>(below: &P, own: &mut Block<ROOM>, site: &Site, v: usize) -> bool
        ensures { v < (model site.now).nodes → Ruled (meaning (model site.now)) (told P.Silent below.now (model site.now)) v own.old result own.new };

    /// What a node tells, by what it tells below.
    fn tell(output: Output, own: &Block<ROOM>, v: usize) -> Output
        ensures { (m : Model) → v < m.nodes → result ≡ (meaning m).tell output ((meaning m).value (front (meaning m).size own.now) v) };

    ghost room: { (m : Model) → Proper m → (meaning m).size ≤ 2304 };

    ghost laws: { (m : Model) → Proper m → LayerLaws m (meaning m) };
}

/// What a node tells, if it tells v as its parent.
pub fn child<P: Silent>(below: &P, site: &Site, u: u16, v: usize) -> Option<Output>
    ensures { result ≡ child_told (model site.now).nodes (told P.Silent below.now (model site.now)) v u }
{
    below
        .output(site, u as usize)
        .ok()
        .filter(|output| output.parent.is_some_and(|w| w as usize == v))
}
