//! A net: one site and any silent protocol on it, the counters of its turns, and the promise over whole runs.

#![tactic(auto)]

mod counters;
pub mod hold;
mod marks;
pub mod net;
