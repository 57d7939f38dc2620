//! Ends of sheets with the answers that reading has to give, kind of line by kind of line.
pub mod contents;
pub mod faults;
pub mod links;
pub mod turns;

use crate::desk::Answer;

/// Ends of sheets that get one answer.
pub struct Case {
    pub answer: Answer,
    pub tails: &'static [&'static [u8]],
}

/// A start of sheets, and its ends.
pub struct Table {
    pub head: &'static [u8],
    pub cases: &'static [Case],
}
