//! Nodes name neighbours, and two that name each other are mates. A turn takes the first of these rules that fits.
//! M0: a node that names one that is no neighbour now names none.
//! M1: a node that names none, and that neighbours name, names the first of them.
//! M2: a node that names none names the first neighbour that names none.
//! M3: a node that names one that names another now names none.
ghost use Rattle.std.specs.Prelude.{◌≡◌, suc, ◌<◌, replicate, IfOk, if◌then◌else◌, ◌==◌};
ghost use Rattle.graph.specs.Model.{Model, Proper};
ghost use Rattle.site.specs.Sites.{model};
ghost use Rattle.protocol.specs.Matching.{mate as mate_of, matching, new_register, renewed as by_rules};
ghost use Rattle.protocol.specs.Outputs.{stored};
ghost use Rattle.registers.specs.Blocks.{register};
ghost use Rattle.bases.specs.Registers.{matching_registers, matching_sized};
ghost use Rattle.protocol.proofs.MatchingLaws.{matching_laws};

use crate::ports::{first_with, has, held_node, node_in, value_of};
use protocol::Output;
use refusal::Refusal;
use refusal::limits::NODES;
use registers::Block;
use silent::Silent;
use site::site::Site;
use std::alloc::{AllocError, Global};

/// A maximal matching: the node that each node names, if any.
#[derive(Drop)]
pub struct Matching {
    names: Block<NODES>,
}

impl Matching {
    /// A matching whose registers are all 0.
    pub fn new(heap: Global) -> Result<Matching, AllocError>
        ensures { IfOk result (λ s. (m : Model) → Proper m → matching_registers s m ≡ replicate (matching m).size 0) }
    {
        let names = Block::new(heap)?;
        Ok(Matching { names })
    }

    // the node that u names
    fn name(&self, u: usize) -> Option<u16>
        ensures { register self.now.names u ≡ stored result }
    {
        node_in(self.names.at(u))
    }

    // whether u names v
    fn names_node(&self, u: u16, v: usize) -> bool
        ensures { result ≡ (register self.now.names u == suc v) }
    {
        self.name(u as usize).is_some_and(|w| w as usize == v)
    }

    // M1 and M2: what a node that names none comes to name
    fn chosen(&self, site: &Site, v: usize) -> Option<u16>
        requires { v < (model site.now).nodes }
        ensures { stored result ≡ by_rules (model site.now) (register self.now.names) v 0 }
    {
        let ports = site.ports(v);
        first_with(&self.names, ports, v as u16 + 1).or_else(|| first_with(&self.names, ports, 0))
    }

    // M0 and M3: whether a node goes on naming u, since neither fits
    #[tactic(auto, using(crate::proofs::Scans::mem_any))]
    fn stands(&self, site: &Site, v: usize, u: u16) -> bool
        ensures { (if result then suc u else 0) ≡ by_rules (model site.now) (register self.now.names) v (suc u) }
    {
        has(site.ports(v), u) && (self.name(u as usize).is_none() || self.names_node(u, v))
    }

    // what a node names by the first rule that fits
    fn renewed(&self, site: &Site, v: usize) -> Option<u16>
        requires { v < (model site.now).nodes }
        ensures { stored result ≡ new_register (model site.now) (register self.now.names) v }
    {
        match self.name(v) {
            None => self.chosen(site, v),
            name => name.filter(|u| self.stands(site, v, *u)),
        }
    }

    // the neighbour that a node names and that names it
    fn mate(&self, site: &Site, v: usize) -> Option<u16>
        ensures { result ≡ mate_of (model site.now) (register self.now.names) v }
    {
        held_node(site.ports(v), self.names.at(v)).filter(|u| self.names_node(*u, v))
    }
}

impl Silent for Matching {
    ghost Plan = { Unit {0} };

    ghost plan = { λ _. tt };

    ghost meaning = { λ _ m. matching m };

    ghost registers = { matching_registers };

    ghost sized = { matching_sized };

    ghost laws = { λ _ m p. matching_laws m p };

    fn turn(&mut self, site: &Site, v: usize) -> Result<bool, Refusal> {
        // Each call declines by itself, as in `Tree`.
        if v >= site.nodes() {
            return Err(Refusal::Node);
        }
        let name = self.renewed(site, v);
        Ok(self.names.put(v, value_of(name)))
    }

    fn write(&mut self, site: &Site, place: u64, value: u16) -> Result<(), Refusal> {
        if place >= site.nodes() as u64 {
            return Err(Refusal::Place);
        }
        self.names.put(place as usize, value);
        Ok(())
    }

    fn read(&self, site: &Site, place: u64) -> Result<u16, Refusal> {
        if place >= site.nodes() as u64 {
            return Err(Refusal::Place);
        }
        Ok(self.names.at(place as usize))
    }

    fn output(&self, site: &Site, v: usize) -> Result<Output, Refusal> {
        if v >= site.nodes() {
            return Err(Refusal::Node);
        }
        Ok(Output {
            parent: None,
            count: 1,
            rank: 0,
            mate: self.mate(site, v),
        })
    }

    fn size(&self, site: &Site) -> u64 {
        site.nodes() as u64
    }

    fn bound(&self, site: &Site) -> u32 {
        3 * (site.nodes() / 2) as u32 + 1
    }

    fn height(&self, _site: &Site) -> u32 {
        0
    }
}
