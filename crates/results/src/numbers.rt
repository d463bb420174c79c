// The numbers of the refusals and of what they say is lacking, and of the outcomes.
ghost use Rattle.std.specs.Prelude.{◌≡◌};
ghost use Rattle.sheet_rules.specs.Answers.{number_of, reason_lack, lack_number, lack_name};
ghost use Rattle.machine_rules.specs.Steps.{outcome_number};

use machine_rules::Outcome;
use sheet_rules::{Lack, Reason};

// The number of a refusal.
pub fn number_of(reason: Reason) -> u32
    ensures { result ≡ number_of reason }
{
    match reason {
        Reason::BufferTooShort => 1,
        Reason::TextTooLong => 2,
        Reason::Malformed => 3,
        Reason::OutOfLimit => 4,
        Reason::NotAscending => 5,
        Reason::DuplicateRow => 6,
        Reason::NotDefined => 7,
        Reason::ImpureForm => 8,
        Reason::NoSuchMember => 9,
        Reason::Misfit { .. } => 10,
        Reason::NoHolder => 11,
        Reason::CircularCall => 12,
        Reason::BeyondCount => 13,
        Reason::WrongDevice => 14,
    }
}

// What a refusal says is lacking: 0 nothing, 1 count, 2 kind, 3 a member.
pub fn lack_of(reason: Reason) -> u32
    ensures { result ≡ lack_number (reason_lack reason) }
{
    match reason {
        Reason::Misfit { lack: Lack::Count } => 1,
        Reason::Misfit {
            lack: Lack::WrongKind,
        } => 2,
        Reason::Misfit {
            lack: Lack::Unmet { .. },
        } => 3,
        _ => 0,
    }
}

// The name of the member that is lacking, or 0.
pub fn name_of(reason: Reason) -> u32
    ensures { result ≡ lack_name (reason_lack reason) }
{
    match reason {
        Reason::Misfit {
            lack: Lack::Unmet { name },
        } => name as u32,
        _ => 0,
    }
}

// The number of an outcome.
pub fn outcome_number(outcome: Outcome) -> u32
    ensures { result ≡ outcome_number outcome }
{
    match outcome {
        Outcome::Done => 0,
        Outcome::Spent => 1,
        Outcome::StoreFull => 2,
        Outcome::StackFull => 3,
    }
}
