//! Sites: links entered one by one into a builder, and the finished site with its ports, arcs and distances.

#![tactic(auto)]

pub mod build;
pub mod builder;
mod levels;
pub mod link;
mod node;
pub mod room;
pub mod site;
mod sizes;
