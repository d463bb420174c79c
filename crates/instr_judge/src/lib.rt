// The judgement of an instruction line: its place, its name, and what it refers to.
#![tactic(auto)]

ghost use Rattle.std.specs.Prelude.{◌≡◌, ◌<◌, ◌↔◌, leb, drop, All, IsTrue};
ghost use Rattle.sheet_rules.specs.Limits.{name_limit};
ghost use Rattle.sheet_rules.specs.Keys.{operation_of};
ghost use Rattle.sheet_rules.specs.Reader.{good};
ghost use Rattle.sheet_rules.specs.FormLines.{all_below, instr_of, instr_line};
ghost use Rattle.lexer.specs.Told.{list_of, Fitting};
ghost use Rattle.line_judges.specs.Told.{line_told};
ghost use Rattle.instr_judge.specs.Named.{name_in, exist_in};

use lexer::numbers::Numbers;
use line_judges::{NAME_LIMIT, demand, same_place};
use sheet_rules::{Operation, Place, Reason};

// What a key of an instruction's place does.
pub fn operation_of(place: Place) -> Operation
    ensures { result ≡ operation_of place }
{
    match place {
        Place::Instruction { operation } => operation,
        _ => Operation::Copy,
    }
}

// The name that an instruction has is within its limit.
#[tactic(auto, unfolding(crate::specs::Named::name_in))]
fn name_allowed(operation: Operation, numbers: Numbers) -> bool
    ensures { result ≡ leb (name_in operation numbers) name_limit }
{
    match operation {
        Operation::Call => numbers.values[1] <= NAME_LIMIT,
        Operation::Get | Operation::Put => numbers.values[0] <= NAME_LIMIT,
        Operation::New | Operation::Copy => true,
    }
}

// Every number is below the bound.
fn all_below(numbers: &[u16], bound: u16) -> bool
    ensures { IsTrue result ↔ All (λ n. n < bound) numbers.now }
{
    numbers.iter().all(|&n| n < bound)
}

// All numbers after the first name filled slots.
fn slots_below(filled: u16, numbers: Numbers) -> bool
    ensures { result ≡ all_below filled (drop 1 (list_of numbers)) }
{
    let [_, slots @ ..] = numbers.as_slice() else {
        return true;
    };
    all_below(slots, filled)
}

// What the instruction refers to exists: the operation is matched to its operands.
#[tactic(auto, unfolding(crate::specs::Named::exist_in))]
fn names_exist(forms: u16, filled: u16, operation: Operation, numbers: Numbers) -> bool
    ensures { result ≡ exist_in forms filled operation numbers }
{
    let [first, second, third, ..] = numbers.values;
    match operation {
        Operation::New => first < forms && slots_below(filled, numbers),
        Operation::Call => first < filled && third < filled,
        Operation::Get => true,
        Operation::Put => second < filled,
        Operation::Copy => first < filled,
    }
}

// An instruction line, in a sheet of `forms` forms, where `filled` slots are filled.
pub fn instr_line(forms: u16, filled: u16, place: Place, numbers: Numbers) -> Result<(), Reason>
    requires { Fitting place numbers }
    ensures { line_told result (good (instr_of (operation_of place) (list_of numbers))) ≡ instr_line forms filled place (list_of numbers) }
{
    let instruction = Place::Instruction {
        operation: Operation::New,
    };
    demand(same_place(place, instruction), Reason::Malformed)?;
    let operation = operation_of(place);
    demand(name_allowed(operation, numbers), Reason::OutOfLimit)?;
    demand(
        names_exist(forms, filled, operation, numbers),
        Reason::NotDefined,
    )
}
