//! The limits that `Limit`, `Full`, `Exhausted` and `Short` speak of.

/// The most nodes of a site, and of a daemon.
pub const NODES: usize = 256;

/// The most ports of a node.
pub const PORTS: usize = 8;

/// The most links of a site: each has two of the ports.
pub const LINKS: usize = 1024;

/// The most registers that a sheet sets.
pub const FAULTS: usize = 4096;

/// The most names of a script.
pub const NAMES: usize = 1024;

/// The most bytes of a sheet.
pub const BYTES: usize = 65536;

/// The greatest value of a register.
pub const VALUE: u32 = 65_535;

/// The turns that a net grants between two faults.
pub const TURN_BUDGET: u32 = 1_000_000;
