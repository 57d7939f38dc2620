//! Nodes as registers hold them, and what nodes look for at their ports.
ghost use Rattle.std.specs.Prelude.{◌≡◌, ◌<◌, nat_eq};
ghost use Rattle.std.specs.List.{list_any};
ghost use Rattle.protocol.specs.First.{first, held, least as least_of};
ghost use Rattle.protocol.specs.Outputs.{stored};
ghost use Rattle.registers.specs.Blocks.{register};

use refusal::limits::NODES;
use registers::Block;

/// The node that a register of this value holds, if any.
pub fn node_in(value: u16) -> Option<u16>
    ensures { value ≡ stored result }
{
    value.checked_sub(1)
}

/// The value of a register that holds this node, or none.
pub fn value_of(node: Option<u16>) -> u16
    requires { stored node < 65536 }
    ensures { result ≡ stored node }
{
    node.map_or(0, |u| u + 1)
}

// Not `contains`: it is a call for each node of a turn, where `any` stands in line.
/// Whether a node stands in the list.
pub fn has(nodes: &[u16], u: u16) -> bool
    ensures { result ≡ list_any (λ w. nat_eq w u) nodes.now }
{
    nodes.iter().any(|w| *w == u)
}

/// The node of the list that a register of this value holds, if any.
pub fn held_node(nodes: &[u16], value: u16) -> Option<u16>
    ensures { result ≡ held nodes.now value }
{
    node_in(value).filter(|u| has(nodes, *u))
}

// 0 for no nodes, as `least_of` says.
/// The least of the registers of the nodes; 0 if there are none.
pub fn least(block: &Block<NODES>, nodes: &[u16]) -> u16
    ensures { result ≡ least_of (register block.now) nodes.now }
{
    nodes
        .iter()
        .map(|u| block.at(*u as usize))
        .min()
        .unwrap_or(0)
}

/// The first of the nodes whose register has this value.
pub fn first_with(block: &Block<NODES>, nodes: &[u16], value: u16) -> Option<u16>
    ensures { result ≡ first (λ u. nat_eq (register block.now u) value) nodes.now }
{
    nodes
        .iter()
        .copied()
        .find(|u| block.at(*u as usize) == value)
}
