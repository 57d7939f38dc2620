//! Silent protocols that stand over others: subtree counts, preorder ranks, and two protocols side by side.

#![tactic(auto)]

pub mod beside;
pub mod count;
pub mod layer;
pub mod over;
pub mod rank;
