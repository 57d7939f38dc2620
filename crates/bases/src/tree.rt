//! Every node keeps its distance from the root and its parent in a breadth-first tree.
ghost use Rattle.std.specs.Prelude.{◌≡◌, replicate, IfOk};
ghost use Rattle.graph.specs.Model.{Model, Proper};
ghost use Rattle.site.specs.Sites.{model};
ghost use Rattle.protocol.specs.Tree.{new_distance, new_parent, tree};
ghost use Rattle.registers.specs.Blocks.{register};
ghost use Rattle.bases.specs.Registers.{tree_registers, tree_sized};
ghost use Rattle.protocol.proofs.TreeLaws.{tree_laws};

use crate::ports::{first_with, held_node, least, value_of};
use protocol::Output;
use refusal::Refusal;
use refusal::limits::NODES;
use registers::Block;
use silent::Silent;
use site::site::Site;
use std::alloc::{AllocError, Global};

/// A breadth-first tree: the distance of each node, then the parent of each.
#[derive(Drop)]
pub struct Tree {
    distances: Block<NODES>,
    parents: Block<NODES>,
}

impl Tree {
    /// A tree whose registers are all 0.
    pub fn new(heap: Global) -> Result<Tree, AllocError>
        ensures { IfOk result (λ s. (m : Model) → Proper m → tree_registers s m ≡ replicate (tree m).size 0) }
    {
        let distances = Block::new(heap)?;
        let parents = Block::new(heap)?;
        Ok(Tree { distances, parents })
    }

    // one more than the least distance of a neighbour, but never n or more; the root has 0
    fn new_distance(&self, site: &Site, v: usize) -> u16
        ensures { result ≡ new_distance (model site.now) (register self.now.distances) v }
    {
        if v == site.root() {
            return 0;
        }
        let near = least(&self.distances, site.ports(v)) as usize;
        (near + 1).min(site.nodes() - 1) as u16
    }

    // the first neighbour that has that least; the root has none
    fn new_parent(&self, site: &Site, v: usize) -> Option<u16>
        ensures { result ≡ new_parent (model site.now) (register self.now.distances) v }
    {
        if v == site.root() {
            return None;
        }
        let ports = site.ports(v);
        first_with(&self.distances, ports, least(&self.distances, ports))
    }
}

impl Silent for Tree {
    ghost Plan = { Unit {0} };

    ghost plan = { λ _. tt };

    ghost meaning = { λ _ m. tree m };

    ghost registers = { tree_registers };

    ghost sized = { tree_sized };

    ghost laws = { λ _ m p. tree_laws m p };

    fn turn(&mut self, site: &Site, v: usize) -> Result<bool, Refusal> {
        // Each call declines by itself: a call for one comparison would say no more.
        if v >= site.nodes() {
            return Err(Refusal::Node);
        }
        let distance = self.new_distance(site, v);
        let parent = self.new_parent(site, v);
        let moved = self.distances.put(v, distance);
        let adopted = self.parents.put(v, value_of(parent));
        Ok(moved | adopted)
    }

    fn write(&mut self, site: &Site, place: u64, value: u16) -> Result<(), Refusal> {
        // Three ranges of places, so a chain of `if`s.
        let n = site.nodes() as u64;
        if place < n {
            self.distances.put(place as usize, value);
            Ok(())
        } else if place < 2 * n {
            self.parents.put((place - n) as usize, value);
            Ok(())
        } else {
            Err(Refusal::Place)
        }
    }

    fn read(&self, site: &Site, place: u64) -> Result<u16, Refusal> {
        // Three ranges of places, as in writing.
        let n = site.nodes() as u64;
        if place < n {
            Ok(self.distances.at(place as usize))
        } else if place < 2 * n {
            Ok(self.parents.at((place - n) as usize))
        } else {
            Err(Refusal::Place)
        }
    }

    fn output(&self, site: &Site, v: usize) -> Result<Output, Refusal> {
        if v >= site.nodes() {
            return Err(Refusal::Node);
        }
        Ok(Output {
            parent: held_node(site.ports(v), self.parents.at(v)),
            count: 1,
            rank: 0,
            mate: None,
        })
    }

    fn size(&self, site: &Site) -> u64 {
        2 * site.nodes() as u64
    }

    #[tactic(auto, using(crate::proofs::Sites::site_low))]
    fn bound(&self, site: &Site) -> u32 {
        site.height() as u32 + 1
    }

    #[tactic(auto, using(crate::proofs::Sites::site_low))]
    fn height(&self, site: &Site) -> u32 {
        site.height() as u32
    }
}
