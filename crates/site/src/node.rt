//! A node's entry in the table.

use arrayvec::ArrayVec;
use refusal::limits::PORTS;

/// A node's entry: its neighbours, port by port, how many arcs stand before its own, and its distance once it is reached.
#[derive(Clone, Default, Drop)]
pub struct Node {
    pub(crate) ports: ArrayVec<u16, PORTS>,
    pub(crate) first_arc: u16,
    pub(crate) distance: Option<u16>,
}
