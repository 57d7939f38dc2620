//! Distances level by level from the root, and the numbers of arcs.
ghost use Rattle.std.specs.Prelude.{◌≡◌, ◌<◌, ◌≤◌, length};
ghost use Rattle.std.specs.List.{list_any};
ghost use Rattle.site.specs.Levels.{Counted, Searched, Spread, Surveyed, Tallest, near, next};
ghost use Rattle.site.specs.Table.{entry};

use crate::node::Node;

/// Whether there is such a node and it is reached, at the level or nearer.
fn is_near(nodes: &[Node], v: u16, level: u16) -> bool
    ensures { result ≡ near level (entry nodes.now v) }
{
    nodes
        .get(v as usize)
        .and_then(|node| node.distance)
        .is_some_and(|distance| distance <= level)
}

/// Whether one of these nodes is reached, at the level or nearer.
fn is_any_near(nodes: &[Node], neighbours: &[u16], level: u16) -> bool
    ensures { result ≡ list_any (λ u. near level (entry nodes.now u)) neighbours.now }
{
    neighbours.iter().any(|u| is_near(nodes, *u, level))
}

/// Whether a node is not reached yet and has a neighbour at the level or nearer.
fn is_next(nodes: &[Node], v: usize, level: u16) -> bool
    requires { v < length nodes.now }
    ensures { result ≡ next level nodes.now v }
{
    let node = &nodes[v];
    node.distance.is_none() && is_any_near(nodes, &node.ports, level)
}

/// Gives each node that is next its distance; whether there was one.
fn spread(nodes: &mut [Node], level: u16) -> bool
    requires { level < 256 }
    ensures { Spread level nodes.old result nodes.new }
{
    let mut grew = false;
    // By number: each turn reads the entries of neighbours before it writes the node's own.
    for v in 0..nodes.len() {
        if is_next(nodes, v, level) {
            nodes[v].distance = Some(level + 1);
            grew = true;
        }
    }
    grew
}

/// Goes on from the root until a level adds no node.
fn search(nodes: &mut [Node])
    requires { length nodes.old ≤ 256 }
    ensures { Searched nodes.old nodes.new }
{
    // The levels are counted here, not the entries.
    for level in 0..nodes.len() as u16 {
        if !spread(nodes, level) {
            return;
        }
    }
}

/// Writes how many arcs stand before those of each node.
fn number_arcs(nodes: &mut [Node])
    requires { length nodes.old ≤ 256 }
    ensures { Counted nodes.old nodes.new }
{
    let mut total: u16 = 0;
    for node in nodes.iter_mut() {
        node.first_arc = total;
        total += node.ports.len() as u16;
    }
}

/// The greatest distance; none if a node is not reached.
fn greatest(nodes: &[Node]) -> Option<u16>
    ensures { Tallest nodes.now result }
{
    let mut top: u16 = 0;
    // A `for`: `?` ends it at a node that is not reached, and a fold over options would say no more.
    for node in nodes {
        top = top.max(node.distance?);
    }
    Some(top)
}

/// Writes the distance of each node that can be reached, and the numbers of the arcs. The greatest distance; none if a
/// node cannot be reached.
pub(crate) fn survey(nodes: &mut [Node], root: u16) -> Option<u16>
    requires rooted { root < length nodes.old }
    requires few { length nodes.old ≤ 256 }
    ensures { Surveyed root nodes.old result nodes.new }
{
    nodes[root as usize].distance = Some(0);
    search(nodes);
    number_arcs(nodes);
    greatest(nodes)
}
