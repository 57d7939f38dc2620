//! The answer to a sheet, as bytes on a page.

#![tactic(auto)]

pub mod answer;
pub mod bound;
pub mod fault;
pub mod room;
mod run;
