//! The lines of a file's body: links, faults and turns.
ghost use Rattle.std.specs.Prelude.{[], ◌∷◌};
ghost use Rattle.std.proofs.Common.{lit≤};
ghost use Rattle.text.specs.declared.field.Field.TheVariants.{Value};
ghost use Rattle.text.specs.Fields.{pair};
ghost use Rattle.text.specs.LineKinds.{same_fault, same_link, same_turn};
ghost use Rattle.text.specs.Number.{zero_number};

use crate::field::{Field, read_two};
use crate::line::{FieldLine, ReadLine};
use crate::number::Number;

/// A link of two nodes, as `0;1`.
#[derive(Clone, Copy, PartialEq, Eq, Debug)]
pub struct LinkLine {
    /// The one end.
    pub a: Number,
    /// The other end.
    pub b: Number,
}

/// A value that a register is set to, as `12;7`.
#[derive(Clone, Copy, PartialEq, Eq, Debug)]
pub struct FaultLine {
    /// The place of the register.
    pub register: Number,
    /// The value.
    pub value: Number,
}

/// A node's turn, as `3`.
#[derive(Clone, Copy, PartialEq, Eq, Debug)]
pub struct TurnLine {
    /// The node.
    pub node: Number,
}

impl FieldLine for LinkLine {
    ghost parts = { λ x. pair x.a x.b };

    ghost few = { λ x. lit≤ tt };

    type Fields = [Field; 2];

    fn fields(&self) -> [Field; 2] {
        [self.a.into(), self.b.into()]
    }
}

impl FieldLine for FaultLine {
    ghost parts = { λ x. pair x.register x.value };

    ghost few = { λ x. lit≤ tt };

    type Fields = [Field; 2];

    fn fields(&self) -> [Field; 2] {
        [self.register.into(), self.value.into()]
    }
}

impl FieldLine for TurnLine {
    ghost parts = { λ x. Value x.node ∷ [] };

    ghost few = { λ x. lit≤ tt };

    type Fields = [Field; 1];

    fn fields(&self) -> [Field; 1] {
        [self.node.into()]
    }
}

impl ReadLine for LinkLine {
    ghost zero = { record { a = zero_number; b = zero_number } };

    ghost once = { λ x y e. same_link x y e };

    fn blank() -> LinkLine {
        LinkLine {
            a: Number::zero(),
            b: Number::zero(),
        }
    }

    fn read(line: &[u8]) -> Option<LinkLine> {
        let (a, b) = read_two(line)?;
        Some(LinkLine { a, b })
    }
}

impl ReadLine for FaultLine {
    ghost zero = { record { register = zero_number; value = zero_number } };

    ghost once = { λ x y e. same_fault x y e };

    fn blank() -> FaultLine {
        FaultLine {
            register: Number::zero(),
            value: Number::zero(),
        }
    }

    fn read(line: &[u8]) -> Option<FaultLine> {
        let (register, value) = read_two(line)?;
        Some(FaultLine { register, value })
    }
}

impl ReadLine for TurnLine {
    ghost zero = { record { node = zero_number } };

    ghost once = { λ x y e. same_turn x y e };

    fn blank() -> TurnLine {
        TurnLine {
            node: Number::zero(),
        }
    }

    fn read(line: &[u8]) -> Option<TurnLine> {
        let node = Number::read(line)?;
        Some(TurnLine { node })
    }
}
