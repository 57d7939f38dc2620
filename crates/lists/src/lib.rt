//! Words and lemmas on lists that several crates share; no code.

#![tactic(auto)]
