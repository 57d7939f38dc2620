//! Memory for a site, had before it is wanted.
ghost use Rattle.std.specs.Prelude.{◌≡◌, length};
ghost use Rattle.site.specs.Entering.{Started};
ghost use Rattle.site.specs.Sites.{draft};

use crate::builder::SiteBuilder;
use crate::sizes::check_size;
use refusal::Refusal;
use refusal::limits::NODES;
use std::alloc::{AllocError, Global};

/// Memory for one site of any size, so that building it never wants memory.
#[derive(Drop)]
pub struct SiteRoom {
    builder: SiteBuilder,
    ghost widest: { (draft builder).nodes ≡ 256 },
    ghost unlinked: { length (draft builder).links ≡ 0 },
}

impl SiteRoom {
    /// Memory for the largest site.
    pub fn new(heap: Global) -> Result<SiteRoom, AllocError> {
        let builder = SiteBuilder::bare(heap, NODES, 0)?;
        Ok(SiteRoom { builder })
    }

    /// A builder in this memory, of so many nodes with this root and no links yet. Declines: `Limit` unless there are
    /// 1 to 256 nodes, then `Node` unless the root is one of them.
    pub fn start(self, nodes: usize, root: usize) -> Result<SiteBuilder, Refusal>
        ensures { Started nodes root result }
    {
        check_size(nodes, root)?;
        Ok(self.builder.narrowed(nodes, root))
    }
}
