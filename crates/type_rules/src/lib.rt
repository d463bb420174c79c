// Fit and typing. The rules are in specs/; the rest of the types that they share with the code is in sheet_rules.
#![tactic(auto)]

use sheet_rules::{FitAnswer, Refusal};

// Where a walk along two rows ends: fit's answer, and how many members of the first row were passed.
#[derive(Clone, Copy, Debug, PartialEq, Eq)]
pub struct Walk {
    pub answer: FitAnswer,
    pub passed: usize,
}

// What the fit question tells: its answer or a refusal, and beside it how many members of the first row the walk passed, none if it is
// refused.
#[derive(Clone, Copy, Debug, PartialEq, Eq)]
pub struct FitTold {
    pub reply: Result<FitAnswer, Refusal>,
    pub passed: u32,
}
