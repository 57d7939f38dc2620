//! Rounds of a list of turns, runs that settle, and forests of parents; no code.
//! Each function carries one family of laws.

#![tactic(auto)]

ghost use Rattle.std.specs.Prelude.{ℕ};
ghost use Rattle.rounds.specs.Changes as C;
ghost use Rattle.rounds.specs.Forest as F;
ghost use Rattle.rounds.specs.Marks as M;
ghost use Rattle.rounds.specs.Patience as W;
ghost use Rattle.rounds.specs.Preorder as P;
ghost use Rattle.rounds.specs.Rounds as R;
ghost use Rattle.rounds.specs.Runs as U;
ghost use Rattle.rounds.specs.Views as V;

/// Any states with any turns, and any view of them with turns of its own,
/// so that what is said of runs holds of all.
pub trait Turns: Sized {
    // the states
    ghost State: { Type 0 };

    // what a turn of a node makes of a state
    ghost step: { ℕ → State → State };

    // predicates of a state
    ghost holds: { ℕ → State → Type 0 };

    // predicates of a node in a state
    ghost good: { ℕ → ℕ → State → Type 0 };

    // what is seen of states
    ghost Seen: { Type 0 };

    // what is seen of a state
    ghost view: { State → Seen };

    // what a turn of a node makes of what is seen
    ghost acts: { ℕ → Seen → Seen };

    // predicates of what is seen
    ghost shows: { ℕ → Seen → Type 0 };

    // a predicate of a state over what is seen
    ghost over: { Seen → State → Type 0 };
}

/// Carries the laws of rounds.
pub fn rounds_stand()
    ensures { R.Laws }
{}

/// Carries the principles of runs that settle.
pub fn runs_stand<X: Turns>()
    ensures { U.Laws X.Turns.State X.Turns.step X.Turns.holds X.Turns.good }
{}

/// Carries the laws of forests.
pub fn forests_stand()
    ensures { F.Laws }
{}

/// Carries the laws of preorder listings and ranks.
pub fn preorders_stand()
    ensures { P.Laws }
{}

/// Carries the laws of the counter of rounds.
pub fn counters_stand()
    ensures { M.Laws }
{}

/// Carries the laws of the last turn that changed the state.
pub fn changes_stand<X: Turns>()
    ensures { C.Laws X.Turns.State X.Turns.step X.Turns.holds }
{}

/// Carries the laws of turns that leave no node out for long.
pub fn patience_stands()
    ensures { W.Laws }
{}

/// Carries the laws of views of a state.
pub fn views_stand<X: Turns>()
    ensures { V.Laws X.Turns.State X.Turns.Seen X.Turns.step X.Turns.acts X.Turns.view X.Turns.holds X.Turns.shows X.Turns.over }
{}
