// Who holds what. The rules are in specs/; here are the type that the report answers with, and the rules' theorems as promises
// of functions that do nothing, so that none can go unproved.
#![tactic(auto)]

ghost use Rattle.authority_rules.specs.Guarantee.{Guaranteed};
ghost use Rattle.authority_rules.specs.GroupGain.{GroupGuaranteed};
ghost use Rattle.authority_rules.specs.Origin.{Originates};

use machine_rules::RunAnswer;

// What the report answers: the run's answer, and how many numbers it wrote.
#[derive(Clone, Copy, Debug, PartialEq, Eq)]
pub struct Reported {
    pub answer: RunAnswer,
    pub count: u32,
}

// The guarantee: every accepted text, every number of steps.
pub fn guaranteed()
    ensures { Guaranteed }
{}

// The same for a group of holders.
pub fn group_guaranteed()
    ensures { GroupGuaranteed }
{}

// Where whatever is held comes from.
pub fn originates()
    ensures { Originates }
{}
