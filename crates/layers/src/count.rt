//! Every node counts the nodes of its subtree of told parents.
ghost use Rattle.std.specs.Prelude.{◌≡◌, ◌+◌, min, ◌&&◌, if◌then◌else◌, nat_eq, nat_lt, suc};
ghost use Rattle.site.specs.Sites.{model};
ghost use Rattle.rounds.specs.Forest.{sum_over};
ghost use Rattle.protocol.specs.Count.{counter};
ghost use Rattle.protocol.specs.Layers.{children};
ghost use Rattle.protocol.specs.Outputs.{stored};
ghost use Rattle.protocol.proofs.CountLaws.{counter_laws};
ghost use Rattle.registers.specs.Blocks.{register};
ghost use Rattle.layers.specs.Below.{told, is_child};
ghost use Rattle.layers.specs.Sites.{nodes_room};

use crate::layer::{Layer, ROOM, child};
use crate::over::Over;
use protocol::Output;
use registers::Block;
use silent::Silent;
use site::site::Site;

/// The counts of subtrees: a register for each node.
pub struct Subtrees;

/// The counts of subtrees over a protocol.
pub type Count<P> = Over<P, Subtrees>;

// the count of u, if u is a child of v
fn child_count<P: Silent>(below: &P, own: &Block<ROOM>, site: &Site, u: u16, v: usize) -> u16
    ensures { result ≡ (if is_child (model site.now).nodes (told P.Silent below.now (model site.now)) v u then register own.now u else 0) }
{
    child(below, site, u, v).map_or(0, |_| own.at(u as usize))
}

// 1 for a node itself and the counts of its children, at most the number of nodes
fn new_count<P: Silent>(below: &P, own: &Block<ROOM>, site: &Site, v: usize) -> u16
    ensures { result ≡ min (model site.now).nodes (1 + sum_over (register own.now) (children (model site.now) (told P.Silent below.now (model site.now)) v)) }
{
    let n = site.nodes() as u16;
    site.ports(v).iter().fold(1, |sum: u16, u| {
        let count = child_count(below, own, site, *u, v);
        sum.saturating_add(count).min(n)
    })
}

impl Layer for Subtrees {
    ghost meaning = { counter };

    ghost room = { nodes_room };

    ghost laws = { counter_laws };

    fn size(site: &Site) -> u32 {
        site.nodes() as u32
    }

    fn turn<P: Silent>(below: &P, own: &mut Block<ROOM>, site: &Site, v: usize) -> bool {
        let count = new_count(below, own, site, v);
        own.put(v, count)
    }

    fn tell(output: Output, own: &Block<ROOM>, v: usize) -> Output {
        Output {
            count: own.at(v),
            ..output
        }
    }
}
