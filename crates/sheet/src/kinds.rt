//! The kinds of lines, each with its checks and with what these go by.
ghost use Rattle.std.specs.Prelude.{◌≡◌, false, length};
ghost use Rattle.site.specs.Sites.{draft};
ghost use Rattle.sheet.specs.Kinds.{contents_rules, fault_rules, least, link_rules, most, order, site_of, turn_rules};

use crate::line::SheetLine;
use refusal::Refusal;
use refusal::limits::{FAULTS, LINKS, NAMES, NODES, VALUE};
use site::builder::SiteBuilder;
use std::ops::RangeInclusive;
use text::contents::{ContentsLine, Word};
use text::records::{FaultLine, LinkLine, TurnLine};

// A struct: it moves on from line to line, and the other contexts stay. `new` and not `Default`: its contract says 0.
/// How many contents lines came before.
#[derive(Clone, Copy)]
pub struct Progress {
    lines: u32,
}

impl Progress {
    /// None so far.
    pub fn new() -> Progress
        ensures { result.lines ≡ 0 }
    {
        Progress { lines: 0 }
    }
}

// the numbers that may follow a word
fn limits(word: Word) -> RangeInclusive<u32>
    ensures { result ≡ record { start = least word; end = most word; exhausted = false } }
{
    match word {
        Word::Nodes => 1..=NODES as u32,
        Word::Links => 0..=LINKS as u32,
        Word::Faults => 0..=FAULTS as u32,
        Word::Turns => 0..=NAMES as u32,
    }
}

impl SheetLine for ContentsLine {
    type Context = Progress;

    ghost checks = { contents_rules };

    ghost Holds = { λ c k before. c.lines ≡ length before };

    fn enter(self, into: &mut Progress) -> Result<(), Refusal> {
        if self.word as u32 != into.lines {
            return Err(Refusal::Form);
        }
        if !limits(self.word).contains(&self.number.get()) {
            return Err(Refusal::Limit);
        }
        into.lines += 1;
        Ok(())
    }
}

impl SheetLine for LinkLine {
    type Context = SiteBuilder;

    ghost checks = { link_rules };

    ghost Holds = { λ b n before. draft b ≡ site_of n before };

    fn enter(self, into: &mut SiteBuilder) -> Result<(), Refusal> {
        into.enter(self.a.get() as usize, self.b.get() as usize)
    }
}

/// A fault goes by the number of registers.
impl SheetLine for FaultLine {
    type Context = u32;

    ghost checks = { fault_rules };

    ghost Holds = { λ registers k before. registers ≡ k };

    fn enter(self, registers: &mut u32) -> Result<(), Refusal> {
        if self.value.get() > VALUE {
            return Err(Refusal::Limit);
        }
        if self.register.get() >= *registers {
            return Err(Refusal::Place);
        }
        Ok(())
    }
}

/// A turn goes by the number of nodes.
impl SheetLine for TurnLine {
    type Context = u32;

    ghost checks = { turn_rules };

    ghost Holds = { λ nodes n before. nodes ≡ n };

    fn enter(self, nodes: &mut u32) -> Result<(), Refusal> {
        if self.node.get() >= *nodes {
            return Err(Refusal::Node);
        }
        Ok(())
    }
}
