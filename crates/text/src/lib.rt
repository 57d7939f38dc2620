//! Lines of text: numbers, fields between semicolons, lines of fields, and a reader over lent bytes.

#![tactic(auto)]

pub mod contents;
pub mod fault;
pub mod field;
pub mod line;
pub mod lines;
pub mod number;
pub mod reader;
pub mod records;
pub mod report;
pub mod scan;
