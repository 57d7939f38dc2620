//! A site from a whole list of links.
ghost use Rattle.std.specs.Prelude.{map};
ghost use Rattle.site.specs.Entering.{Built};
ghost use Rattle.site.specs.Table.{ends};

use crate::builder::SiteBuilder;
use crate::link::Link;
use crate::site::Site;
use refusal::fault::Fault;
use std::alloc::Global;

/// A site of so many nodes with this root and these links. Declines as `SiteBuilder::new`, then as
/// `SiteBuilder::enter` at the first link that is declined, then with `Unreached` if a node is out of reach.
pub fn build(heap: Global, nodes: usize, root: usize, links: &[Link]) -> Result<Site, Fault>
    ensures { Built nodes root (map ends links.now) result }
{
    let mut builder = SiteBuilder::new(heap, nodes, root)?;
    for link in links {
        builder.enter(link.a as usize, link.b as usize)?;
    }
    Ok(builder.finish()?)
}
