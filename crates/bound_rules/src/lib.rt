// Sheets that are sure to finish. The rules are in specs/; here is their theorem as the promise of a function that does nothing, so
// that it can't go unproved.
#![tactic(auto)]

ghost use Rattle.bound_rules.specs.Sure.{Sure};

// What the bound says of every run.
pub fn sure()
    ensures { Sure }
{}
