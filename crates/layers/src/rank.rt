//! Every node takes its number from its parent, and numbers its children.
ghost use Rattle.std.specs.Prelude.{◌≡◌, ◌+◌, ◌<◌, min};
ghost use Rattle.graph.specs.Model.{arcs, arcs_before, ports};
ghost use Rattle.site.specs.Sites.{model};
ghost use Rattle.protocol.specs.Rank.{port_to, put, ranker, rank_from, slot, slots};
ghost use Rattle.protocol.proofs.RankLaws.{ranker_laws};
ghost use Rattle.registers.specs.Blocks.{front, held, register};
ghost use Rattle.registers.specs.Lists.{Changed};
ghost use Rattle.layers.specs.Below.{told};
ghost use Rattle.layers.specs.Sites.{room};

use crate::layer::{Layer, ROOM, child};
use crate::over::Over;
use protocol::Output;
use registers::Block;
use silent::Silent;
use site::site::Site;

/// The numbers of a preorder: a rank for each node, and then a slot for each arc.
pub struct Preorder;

/// The numbers of a preorder over a protocol.
pub type Rank<P> = Over<P, Preorder>;

// the port that leads to v; how many there are if none does, as `port_to` says
fn find_port(ports: &[u16], v: usize) -> usize
    ensures { result ≡ port_to v ports.now }
{
    ports
        .iter()
        .position(|u| *u as usize == v)
        .unwrap_or(ports.len())
}

// what the slot of w for v says, at most the number of nodes
#[tactic(auto, using(crate::proofs::Sites::site_before, crate::proofs::Ranks::port_few))]
fn slot_rank(own: &Block<ROOM>, site: &Site, w: usize, v: usize) -> u16
    ensures { result ≡ min (model site.now).nodes (register own.now (slot (model site.now) w v)) }
{
    let n = site.nodes();
    let place = n + site.first_arc(w) + find_port(site.ports(w), v);
    n.min(own.at(place) as usize) as u16
}

// 0 without a told parent, else what the parent's slot says
fn new_rank<P: Silent>(below: &P, own: &Block<ROOM>, site: &Site, v: usize) -> u16
    ensures { v < (model site.now).nodes → result ≡ rank_from (model site.now) (told P.Silent below.now (model site.now) v).parent v (front ((model site.now).nodes + arcs (model site.now)) own.now) }
{
    below
        .output(site, v)
        .ok()
        .and_then(|output| output.parent)
        .map_or(0, |w| slot_rank(own, site, w as usize, v))
}

// numbers the children of v, which has this rank: whether a slot changed
#[tactic(auto, using(crate::proofs::Sites::site_before))]
fn fill<P: Silent>(below: &P, own: &mut Block<ROOM>, site: &Site, v: usize, rank: u16) -> bool
    ensures after { held own.new ≡ put (held own.old) ((model site.now).nodes + arcs_before (model site.now) v) (slots (model site.now).nodes (told P.Silent below.now (model site.now)) v (rank + 1) (ports (model site.now) v)) }
    ensures changed { Changed (held own.old) result (held own.new) }
{
    let n = site.nodes() as u16;
    let first = site.nodes() + site.first_arc(v);
    let ports = site.ports(v);
    let mut next = rank.saturating_add(1).min(n);
    let mut changed = false;
    // a loop: a fold would carry the registers, the next number and the answer together
    for (j, u) in ports.iter().enumerate() {
        let told = child(below, site, *u, v);
        let filled = own.put(first + j, told.map_or(0, |_| next));
        next = told.map_or(next, |output| next.saturating_add(output.count).min(n));
        changed |= filled;
    }
    changed
}

impl Layer for Preorder {
    ghost meaning = { ranker };

    ghost room = { room };

    ghost laws = { ranker_laws };

    #[tactic(auto, using(crate::proofs::Sites::site_room))]
    fn size(site: &Site) -> u32 {
        (site.nodes() + site.arcs()) as u32
    }

    fn turn<P: Silent>(below: &P, own: &mut Block<ROOM>, site: &Site, v: usize) -> bool {
        let rank = new_rank(below, own, site, v);
        let ranked = own.put(v, rank);
        let filled = fill(below, own, site, v, rank);
        ranked | filled
    }

    fn tell(output: Output, own: &Block<ROOM>, v: usize) -> Output {
        Output {
            rank: own.at(v),
            ..output
        }
    }
}
