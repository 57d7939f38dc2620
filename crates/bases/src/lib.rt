//! Two silent protocols that stand on a site alone.

#![tactic(auto)]

pub mod matching;
mod ports;
pub mod tree;
