//! What a silent protocol means at a site, and the laws that every one owes; the meaning of ours, and their proofs.

#![tactic(auto)]

ghost use Rattle.protocol.specs.Gather.{Gathering};
ghost use Rattle.protocol.specs.Layers.{Layer};
ghost use Rattle.protocol.specs.Matching.{MatchingLaws};
ghost use Rattle.protocol.specs.Protocols.{Protocol};
ghost use Rattle.protocol.specs.Stack.{LayersStand, StackStands};
ghost use Rattle.protocol.specs.Tree.{TreeLaws};

/// What a node tells.
#[derive(Clone, Copy, PartialEq, Eq, Debug)]
pub struct Output {
    /// The next node towards the root, or none.
    pub parent: Option<u16>,
    /// How many nodes are on its branch.
    pub count: u16,
    /// Its number on the tour.
    pub rank: u16,
    /// The neighbour that it is paired with, or none.
    pub mate: Option<u16>,
}

/// Any layer, any gathering and any two protocols, so that the laws of layers speak of all.
pub trait Layering: Sized {
    ghost layer: { Layer };

    ghost gathering: { Gathering };

    ghost left: { Protocol };

    ghost right: { Protocol };
}

/// Carries the laws of Tree.
pub fn tree_stands()
    ensures { TreeLaws }
{}

/// Carries the laws of the matching.
pub fn matching_stands()
    ensures { MatchingLaws }
{}

/// Carries the laws of layers over any protocol, and of any two protocols side by side.
pub fn layers_stand<X: Layering>()
    ensures { LayersStand X.Layering.layer X.Layering.gathering X.Layering.left X.Layering.right }
{}

/// Carries the theorems about the stack.
pub fn stack_stands()
    ensures { StackStands }
{}
