//! What the number of nodes and the root must keep.
ghost use Rattle.refusal.specs.Checks.{Checked};
ghost use Rattle.site.specs.Entering.{size_checks};

use refusal::Refusal;
use refusal::limits::NODES;

// Two numbers: the public calls take two.
/// The checks of a number of nodes and a root, in their order.
pub(crate) fn check_size(nodes: usize, root: usize) -> Result<(), Refusal>
    ensures { Checked (size_checks nodes root) result }
{
    // In daemons too: the range of a constant says as much as a call for it.
    if !(1..=NODES).contains(&nodes) {
        return Err(Refusal::Limit);
    }
    if root >= nodes {
        return Err(Refusal::Node);
    }
    Ok(())
}
