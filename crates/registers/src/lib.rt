//! Blocks of 16-bit registers.

#![tactic(auto)]

ghost use Rattle.std.specs.Prelude.{◌≡◌, IfOk, replicate, slice_index, slice_set, vec_len};
ghost use Rattle.registers.specs.Lists.{Changed, Narrow};

use std::alloc::{AllocError, Global};
use std::mem;

/// So many registers. Each holds any 16-bit number: a fault writes any value, so none is an `Option`.
#[derive(Drop)]
pub struct Block<const ROOM: usize> {
    values: Vec<u16>,
    ghost full: { vec_len values ≡ ROOM },
    ghost narrow: { Narrow values.items },
}

impl<const ROOM: usize> Block<ROOM> {
    /// Registers that are all 0.
    pub fn new(heap: Global) -> Result<Block<ROOM>, AllocError>
        ensures { IfOk result (λ b. b.values.items ≡ replicate ROOM 0) }
    {
        let values = vec![in heap; 0u16; ROOM]?;
        Ok(Block { values })
    }

    /// The register at a place; 0 past the last.
    pub fn at(&self, i: usize) -> u16
        ensures { result ≡ slice_index self.now.values.items i }
    {
        self.values.get(i).copied().unwrap_or(0)
    }

    /// Writes the register at a place, and no other: whether it changed. Past the last it writes nothing.
    pub fn put(&mut self, i: usize, value: u16) -> bool
        ensures after { self.new.values.items ≡ slice_set self.old.values.items i value }
        ensures changed { Changed self.old.values.items result self.new.values.items }
    {
        match self.values.get_mut(i) {
            Some(register) => mem::replace(register, value) != value,
            None => false,
        }
    }
}
