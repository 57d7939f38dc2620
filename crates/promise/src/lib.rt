//! What a net does with each call, and what it promises over whole runs, for every silent protocol; no code.
//! Each function carries one family of theorems.

#![tactic(auto)]

ghost use Rattle.graph.specs.Model.{Model};
ghost use Rattle.protocol.specs.Protocols.{Protocol};
ghost use Rattle.promise.specs.Cases.{TableStands};
ghost use Rattle.promise.specs.Promise.{Promised};

/// What an accepted draw answers.
#[derive(Clone, Copy, PartialEq, Eq, Debug)]
pub struct Drawn {
    /// The node that the daemon named.
    pub node: usize,
    /// Whether its turn changed a register.
    pub changed: bool,
}

/// What a granted lift answers.
#[derive(Clone, Copy, PartialEq, Eq, Debug)]
pub struct Lifted {
    /// The bound, as it is told.
    pub bound: u32,
    /// The number of the last round in which a register changed, or 0.
    pub last_change: u32,
}

/// Any site and any protocol on it, so that the promise is said of all.
pub trait Placed: Sized {
    ghost site: { Model };

    ghost protocol: { Protocol };
}

/// Carries the promise.
pub fn promise_stands<X: Placed>()
    ensures { Promised X.Placed.site X.Placed.protocol }
{}

/// Carries the worked examples.
pub fn table_stands<X: Placed>()
    ensures { TableStands X.Placed.protocol }
{}
