//! Memory for an answer, had before it is wanted.
ghost use Rattle.std.specs.Prelude.{◌≤◌, IfOk, vec_capacity};
ghost use Rattle.report.specs.Stacks.{Blank};

use bases::matching::Matching;
use bases::tree::Tree;
use layers::beside::Beside;
use layers::count::Count;
use layers::rank::Rank;
use refusal::limits::NAMES;
use site::room::SiteRoom;
use std::alloc::{AllocError, Global};

/// The program's stack of protocols: the numbers of the tour over the counts over the tree, and the matching beside them.
pub type Stack = Beside<Rank<Count<Tree>>, Matching>;

/// The program's stack, with all registers 0.
pub fn stack(heap: Global) -> Result<Stack, AllocError>
    ensures { IfOk result Blank }
{
    let tree = Tree::new(heap)?;
    let count = Count::new(heap, tree)?;
    let rank = Rank::new(heap, count)?;
    let matching = Matching::new(heap)?;
    Ok(Beside::new(rank, matching))
}

/// Memory for one answer, whatever the sheet, so that answering never wants memory: a site, the stack with all registers 0,
/// and the names of a script.
#[derive(Drop)]
pub struct Room {
    pub(crate) site: SiteRoom,
    pub(crate) stack: Stack,
    pub(crate) names: Vec<u16>,
    ghost blank: { Blank stack },
    ghost many: { 1024 ≤ vec_capacity names },
}

impl Room {
    /// Room for an answer.
    pub fn new(heap: Global) -> Result<Room, AllocError>
        ensures { IfOk result (λ room. Blank room.stack) }
    {
        let site = SiteRoom::new(heap)?;
        let stack = stack(heap)?;
        let names = Vec::with_capacity(heap, NAMES)?;
        Ok(Room { site, stack, names })
    }
}
