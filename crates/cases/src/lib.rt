//! Tests of the public calls on lines, sites and sheets. Every expected value is worked out by hand from the rules.

#![tactic(auto)]

#[cfg(test)]
mod desk;
#[cfg(test)]
mod drafts;
#[cfg(test)]
mod large;
#[cfg(test)]
mod lines;
#[cfg(test)]
mod reading;
#[cfg(test)]
mod sites;
#[cfg(test)]
mod tables;
#[cfg(test)]
mod writing;
