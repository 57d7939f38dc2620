//! Why a call is declined: one closed list for the whole product, and the limits that it speaks of.

#![tactic(auto)]

ghost use Rattle.std.specs.Prelude.{◌≡◌};
ghost use Rattle.refusal.specs.Numbers.{number_of};

pub mod fault;
pub mod limits;

/// Why a call is declined, each case with its number. `specs/Numbers.antt` says the same numbers.
#[derive(Clone, Copy, PartialEq, Eq, Debug)]
pub enum Refusal {
    /// A line is not in its form or lacking, or bytes follow the last line.
    Form = 1,
    /// A size or a number is outside its limits.
    Limit = 2,
    /// A link does not join nodes a < b < n.
    Order = 3,
    /// The link stood before.
    Repeat = 4,
    /// An end of the link has eight ports.
    Full = 5,
    /// A node cannot be reached from the root.
    Unreached = 6,
    /// A register's place is past the last.
    Place = 7,
    /// A node is not below the number of nodes.
    Node = 8,
    /// A node is missing from a script.
    Missing = 9,
    /// The net has had its turns since the latest fault.
    Exhausted = 10,
    /// Fewer rounds than the bound are complete.
    Early = 11,
    /// A hold is open.
    Held = 12,
    /// The hold has another net's mark, or no hold is open.
    Foreign = 13,
    /// A page or a list is too short.
    Short = 14,
    /// The daemon is made for another number of nodes.
    Mismatch = 15,
}

impl Refusal {
    /// The number by which reports name the refusal.
    pub fn number(self) -> u8
        ensures { result ≡ number_of self }
    {
        self as u8
    }
}
