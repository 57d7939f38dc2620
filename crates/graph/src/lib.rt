//! Sites as plain data, with the laws of ports, walks and distances; no code but what the laws stand on.

#![tactic(auto)]

ghost use Rattle.graph.specs.Laws.{Laws};

/// Carries the laws of sites.
pub fn laws_stand()
    ensures { Laws }
{}
