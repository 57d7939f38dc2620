//! A layer over a protocol.
ghost use Rattle.std.specs.Prelude.{◌≡◌, ◌++◌, replicate, IfOk};
ghost use Rattle.graph.specs.Model.{Model, Proper};
ghost use Rattle.protocol.specs.Layers.{layered};
ghost use Rattle.protocol.proofs.LayerLaws.{layered_laws};
ghost use Rattle.registers.specs.Blocks.{front};
ghost use Rattle.layers.specs.Below.{layer_sized};

use crate::layer::{Layer, ROOM};
use protocol::Output;
use refusal::Refusal;
use registers::Block;
use silent::Silent;
use site::site::Site;
use std::alloc::{AllocError, Global};
use std::marker::PhantomData;

/// More registers than this are told as this many.
pub const SIZE_CLIP: u64 = 4294967296;

/// More rounds than this are told as this many.
const BOUND_CLIP: u64 = 1000001;

/// A protocol with a layer over it: its registers, and then the layer's.
#[derive(Drop)]
pub struct Over<P, L> {
    below: P,
    own: Block<ROOM>,
    layer: PhantomData<L>,
}

impl<P: Silent + Drop, L: Layer> Over<P, L> {
    /// The layer over a protocol, with registers of its own that are all 0.
    pub fn new(heap: Global, below: P) -> Result<Over<P, L>, AllocError>
        ensures plan { IfOk result (λ s. P.Silent.plan s.below ≡ P.Silent.plan below) }
        ensures registers { IfOk result (λ s. (m : Model) → Proper m → P.Silent.registers s.below m ++ front (L.Layer.meaning m).size s.own ≡ P.Silent.registers below m ++ replicate (L.Layer.meaning m).size 0) }
    {
        let own = Block::new(heap)?;
        Ok(Over {
            below,
            own,
            layer: PhantomData,
        })
    }
}

impl<P: Silent, L: Layer> Silent for Over<P, L> {
    ghost Plan = { P.Silent.Plan };

    ghost plan = { λ s. P.Silent.plan s.below };

    ghost meaning = { λ p m. layered m (L.Layer.meaning m) (P.Silent.meaning p m) };

    ghost registers = { λ s m. P.Silent.registers s.below m ++ front (L.Layer.meaning m).size s.own };

    ghost sized = { λ s m ok. layer_sized (P.Silent.meaning (P.Silent.plan s.below) m) (L.Layer.meaning m) (L.Layer.room m ok) (P.Silent.registers s.below m) s.own (P.Silent.sized s.below m ok) };

    ghost laws = { λ p m ok. layered_laws m _ _ ok (L.Layer.laws m ok) (P.Silent.laws p m ok) };

    fn turn(&mut self, site: &Site, v: usize) -> Result<bool, Refusal> {
        let moved = self.below.turn(site, v)?;
        let joined = L::turn(&self.below, &mut self.own, site, v);
        Ok(moved | joined)
    }

    // The steps of Beside over a block, which declines nothing: as a protocol it would need refusals and laws of its own.
    // Each call declines by itself: a call for one comparison would say no more.
    fn write(&mut self, site: &Site, place: u64, value: u16) -> Result<(), Refusal> {
        if place >= self.size(site) {
            return Err(Refusal::Place);
        }
        match place.checked_sub(self.below.size(site)) {
            None => self.below.write(site, place, value),
            Some(i) => {
                self.own.put(i as usize, value);
                Ok(())
            }
        }
    }

    fn read(&self, site: &Site, place: u64) -> Result<u16, Refusal> {
        if place >= self.size(site) {
            return Err(Refusal::Place);
        }
        match place.checked_sub(self.below.size(site)) {
            None => self.below.read(site, place),
            Some(i) => Ok(self.own.at(i as usize)),
        }
    }

    fn output(&self, site: &Site, v: usize) -> Result<Output, Refusal> {
        let output = self.below.output(site, v)?;
        Ok(L::tell(output, &self.own, v))
    }

    fn size(&self, site: &Site) -> u64 {
        (self.below.size(site) + L::size(site) as u64).min(SIZE_CLIP)
    }

    fn bound(&self, site: &Site) -> u32 {
        let rounds = self.below.bound(site) as u64 + self.below.height(site) as u64 + 1;
        rounds.min(BOUND_CLIP) as u32
    }

    fn height(&self, site: &Site) -> u32 {
        self.below.height(site)
    }
}
