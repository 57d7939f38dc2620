//! A link between two nodes.

// Nodes are numbers: these are their names in sheets and reports.
/// A link: the two nodes that it joins.
#[derive(Clone, Copy, PartialEq, Eq, Debug)]
pub struct Link {
    /// The smaller node.
    pub a: u16,
    /// The larger node.
    pub b: u16,
}
