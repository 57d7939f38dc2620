//! A finished site, and what is asked of it.
ghost use Rattle.std.specs.Prelude.{vec_len};
ghost use Rattle.graph.specs.Model.{Proper};
ghost use Rattle.site.specs.Kept.{Highest, Table, filled};
ghost use Rattle.site.specs.Table.{site_of};

use crate::link::Link;
use crate::node::Node;
use refusal::Refusal;

/// A finished site: every node is reached, and its ports, arcs and distances stand ready.
#[derive(Drop)]
pub struct Site {
    pub(crate) root: u16,
    pub(crate) height: u16,
    pub(crate) nodes: Vec<Node>,
    pub(crate) links: Vec<Link>,
    ghost proper: { ∥ Proper (site_of (vec_len nodes) root links.items) ∥₁ },
    ghost table: { Table filled (site_of (vec_len nodes) root links.items) nodes.items },
    ghost highest: { Highest (site_of (vec_len nodes) root links.items) height },
}

impl Site {
    ghost use Rattle.std.specs.Prelude.{◌≡◌, ◌*◌, ◌<◌, ◌≤◌, map, length, MatchOption};
    ghost use Rattle.graph.specs.Model.{Greatest, arcs, arcs_before, height, ports};
    ghost use Rattle.site.specs.Kept.{filled};
    ghost use Rattle.site.specs.Questions.{Told};
    ghost use Rattle.site.specs.Sites.{model};
    ghost use Rattle.site.specs.Table.{ends};

    /// The entry of a node, if there is one.
    fn node(&self, v: usize) -> Option<&Node>
        ensures { MatchOption result ((model self.now).nodes ≤ v) (λ node. (v < (model self.now).nodes) × (node.now ≡ filled (model self.now) v)) }
    {
        self.nodes.get(v)
    }

    /// How many nodes there are: 1 to 256.
    pub fn nodes(&self) -> usize
        ensures { result ≡ (model self.now).nodes }
    {
        self.nodes.len()
    }

    /// The root.
    pub fn root(&self) -> usize
        ensures { result ≡ (model self.now).root }
    {
        self.root as usize
    }

    /// The links, in the order in which they were entered.
    pub fn links(&self) -> &[Link]
        ensures { map ends result.now ≡ (model self.now).links }
    {
        self.links.as_slice()
    }

    /// The neighbours of a node, port by port; none for a number past the last node.
    pub fn ports(&self, v: usize) -> &[u16]
        ensures { result.now ≡ ports (model self.now) v }
    {
        self.node(v).map_or(&[], |node| node.ports.as_slice())
    }

    /// How many arcs stand before those of a node; all of them for a number past the last node.
    pub fn first_arc(&self, v: usize) -> usize
        ensures { result ≡ arcs_before (model self.now) v }
    {
        self.node(v)
            .map_or(self.arcs(), |node| node.first_arc as usize)
    }

    /// How many arcs there are: two for each link.
    pub fn arcs(&self) -> usize
        ensures arcs { result ≡ arcs (model self.now) }
        ensures links { result ≡ 2 * length (model self.now).links }
    {
        2 * self.links.len()
    }

    /// The fewest links from a node to the root; `Node` for a number past the last node.
    pub fn distance(&self, v: usize) -> Result<usize, Refusal>
        ensures { Told (model self.now) v result }
    {
        let distance = self.node(v).and_then(|node| node.distance);
        distance.map(|d| d as usize).ok_or(Refusal::Node)
    }

    /// The greatest distance.
    pub fn height(&self) -> usize
        ensures value { result ≡ height (model self.now) }
        ensures greatest { Greatest (model self.now) result }
    {
        self.height as usize
    }
}
