//! Entering links, and finishing the site.
ghost use Rattle.std.specs.Prelude.{◌≤◌, vec_len, vec_capacity};
ghost use Rattle.graph.specs.Model.{Drawn};
ghost use Rattle.site.specs.Kept.{Table, ported};
ghost use Rattle.site.specs.Table.{site_of};

use crate::levels::survey;
use crate::link::Link;
use crate::node::Node;
use crate::site::Site;
use crate::sizes::check_size;
use refusal::Refusal;
use refusal::fault::Fault;
use refusal::limits::LINKS;
use std::alloc::{AllocError, Global};

/// A site whose links are being entered. Between calls the table of nodes is that of the links.
#[derive(Drop)]
pub struct SiteBuilder {
    root: u16,
    nodes: Vec<Node>,
    links: Vec<Link>,
    ghost drawn: { ∥ Drawn (site_of (vec_len nodes) root links.items) ∥₁ },
    ghost table: { Table ported (site_of (vec_len nodes) root links.items) nodes.items },
    ghost room: { 1024 ≤ vec_capacity links },
}

impl SiteBuilder {
    ghost use Rattle.std.specs.Prelude.{◌≡◌, ◌<◌, ◌≤◌, length, Decides, IfOk};
    ghost use Rattle.refusal.specs.Checks.{Checked, Free};
    ghost use Rattle.lists.specs.Members.{Among};
    ghost use Rattle.graph.specs.Model.{ports};
    ghost use Rattle.site.specs.Entering.{Begun, Entered, Finished, bare, link_checks, with_link};
    ghost use Rattle.site.specs.Sites.{draft};

    /// A site of so many nodes with this root and no links yet, with memory for all that will be entered.
    /// Declines: `Limit` unless there are 1 to 256 nodes, then `Node` unless the root is one of them.
    pub fn new(heap: Global, nodes: usize, root: usize) -> Result<SiteBuilder, Fault>
        ensures { Begun nodes root result }
    {
        check_size(nodes, root)?;
        Ok(SiteBuilder::bare(heap, nodes, root)?)
    }

    // Two numbers here and in `narrowed`: the public calls take two.
    /// A site of so many nodes with this root and no links yet; want of memory is the only error.
    pub(crate) fn bare(heap: Global, nodes: usize, root: usize) -> Result<SiteBuilder, AllocError>
        requires sized { (1 ≤ nodes) × (nodes ≤ 256) }
        requires rooted { root < nodes }
        ensures { IfOk result (λ b. draft b ≡ bare nodes root) }
    {
        let table = vec![in heap; Node::default(); nodes]?;
        let links = Vec::with_capacity(heap, LINKS)?;
        Ok(SiteBuilder {
            root: root as u16,
            nodes: table,
            links,
        })
    }

    /// Enters the link of `a` and `b` after those that stand. Declines, and changes nothing: `Order` unless
    /// a < b < nodes, then `Repeat` if the link stood before, then `Full` if an end has eight ports.
    pub fn enter(&mut self, a: usize, b: usize) -> Result<(), Refusal>
        ensures { Entered (draft self.old) a b result (draft self.new) }
    {
        self.check(a, b)?;
        self.add(a as u16, b as u16);
        Ok(())
    }

    /// The checks of the link of `a` and `b`, in their order.
    fn check(&self, a: usize, b: usize) -> Result<(), Refusal>
        ensures { Checked (link_checks (draft self.now) a b) result }
    {
        if a >= b || b >= self.nodes.len() {
            return Err(Refusal::Order);
        }
        if self.linked(a, b) {
            return Err(Refusal::Repeat);
        }
        if self.full(a) || self.full(b) {
            return Err(Refusal::Full);
        }
        Ok(())
    }

    /// Whether the link of `a` and `b` stands already.
    fn linked(&self, a: usize, b: usize) -> bool
        requires { (a < b) × (b < (draft self.now).nodes) }
        ensures { Decides result (Among (a, b) (draft self.now).links) }
    {
        self.nodes[a].ports.contains(&(b as u16))
    }

    /// Whether a node has all the ports that it can have.
    fn full(&self, v: usize) -> bool
        requires { v < (draft self.now).nodes }
        ensures { Decides result (8 ≤ length (ports (draft self.now) v)) }
    {
        self.nodes[v].ports.is_full()
    }

    /// Adds a port to each end, and then the link.
    fn add(&mut self, a: u16, b: u16)
        requires { Free (link_checks (draft self.old) a b) }
        ensures { draft self.new ≡ with_link (draft self.old) a b }
    {
        self.nodes[a as usize].ports.push(b);
        self.nodes[b as usize].ports.push(a);
        self.links.push_reserved(Link { a, b });
    }

    /// The builder, without links, of its first nodes and with this root.
    pub(crate) fn narrowed(mut self, nodes: usize, root: usize) -> SiteBuilder
        requires unlinked { length (draft self).links ≡ 0 }
        requires some { 1 ≤ nodes }
        requires fewer { nodes ≤ (draft self).nodes }
        requires rooted { root < nodes }
        ensures { draft result ≡ bare nodes root }
    {
        self.nodes.truncate(nodes);
        self.root = root as u16;
        self
    }

    /// The finished site; `Unreached` if some node cannot be reached from the root.
    pub fn finish(self) -> Result<Site, Refusal>
        ensures { Finished (draft self) result }
    {
        let SiteBuilder {
            root,
            mut nodes,
            links,
        } = self;
        let height = survey(&mut nodes, root).ok_or(Refusal::Unreached)?;
        Ok(Site {
            root,
            height,
            nodes,
            links,
        })
    }
}
