//! Sheets: a depot's links, faults and turns as lines of text, read and written by one description.

#![tactic(auto)]

pub mod body;
mod check;
pub mod contents;
pub mod draft;
pub mod fault;
pub mod kinds;
pub mod lent;
pub mod line;
pub mod read;
mod stages;
pub mod write;
