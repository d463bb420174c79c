// The bounded run: the machine steps until it is finished, its budget is spent, or the store or the stack is full.
#![tactic(auto)]

ghost use Rattle.std.specs.Prelude.{◌≡◌, pred, ◌≤◌, ◌<◌, length};
ghost use Rattle.sheet_rules.specs.Sheet.{new, call};
ghost use Rattle.machine_rules.specs.State.{last_of};
ghost use Rattle.machine_rules.specs.Steps.{ended, value_of, answer_of};
ghost use Rattle.table.specs.Told.{new_slots};
ghost use Rattle.table.specs.View.{sheet_in};
ghost use Rattle.table.specs.Whole.{Whole};
ghost use Rattle.accepted.specs.Accepted.{AcceptedIn};
ghost use Rattle.machine_state.specs.Held.{slots_in, state_in};
ghost use Rattle.machine_steps.specs.Running.{Running, Facing};
ghost use Rattle.machine.specs.Runs.{Tried, Moved, Able, start_top, device_put, DevicesPut, Ready, SheetRun, SheetAnswered};

use machine_rules::{Outcome, RunAnswer, Tally};
use machine_state::{Top, narrow};
use machine_steps::creation::new_step;
use machine_steps::frames::{call_step, return_step};
use machine_steps::{copy_step, get_step, put_step};
use table::instrs::Instruction;
use table::rows::wide;

// The value of a run that is not finished.
const NO_VALUE: u16 = 65535;

// Where a run stands: the frame in hand, and the counts.
type Stand = (Top, Tally);

// How a run halted: why, where the frame in hand stands, and the counts.
#[derive(Clone, Copy, Debug, PartialEq, Eq)]
pub struct Halt {
    pub outcome: Outcome,
    pub top: Top,
    pub tally: Tally,
}

// `new`, if the store has a place.
fn try_new(work: &mut [u16], top: Top, tally: Tally, form: u16) -> Result<Stand, Outcome>
    requires { Facing work.old top tally (new form (new_slots work.old top.next)) × (tally.steps < 4294967295) }
    ensures { Tried work.old top tally work.new result }
{
    if Tally::PLACES <= tally.objects {
        return Err(Outcome::StoreFull);
    }
    Ok((new_step(work, top, tally, form), tally.with_object()))
}

// `call`, if the stack has room for a frame.
fn try_call(
    work: &mut [u16],
    top: Top,
    tally: Tally,
    v: usize,
    n: usize,
    a: usize,
) -> Result<Stand, Outcome>
    requires { Facing work.old top tally (call v n a) × (tally.steps < 4294967295) }
    ensures { Tried work.old top tally work.new result }
{
    if Tally::STACK <= tally.frames {
        return Err(Outcome::StackFull);
    }
    Ok((call_step(work, top, tally, v, n, a), tally.with_frame()))
}

// The next instruction, matched to its step.
fn take_instr(work: &mut [u16], top: Top, tally: Tally) -> Result<Stand, Outcome>
    requires { Running work.old top tally × (top.next < top.end) × (tally.steps < 4294967295) }
    ensures { Tried work.old top tally work.new result }
{
    match table::instrs::instr_placed(work, top.next) {
        Instruction::New { form } => try_new(work, top, tally, form),
        Instruction::Call {
            object,
            name,
            argument,
        } => try_call(work, top, tally, wide(object), wide(name), wide(argument)),
        Instruction::Get { name } => Ok((
            get_step(work, top, tally, wide(name)),
            tally.with_step(),
        )),
        Instruction::Put { name, value } => Ok((
            put_step(work, top, tally, wide(name), wide(value)),
            tally.with_step(),
        )),
        Instruction::Copy { slot } => Ok((
            copy_step(work, top, tally, wide(slot)),
            tally.with_step(),
        )),
    }
}

// One step, or why there is none, asked in this order: finished, spent, store full, stack full.
fn advance(work: &mut [u16], top: Top, tally: Tally, most: usize) -> Result<Stand, Outcome>
    requires { Running work.old top tally × (tally.steps ≤ most) × (most < 4294967296) }
    ensures { Moved most work.old top tally work.new result }
{
    if top.next < top.end {
        if tally.steps == most {
            return Err(Outcome::Spent);
        }
        return take_instr(work, top, tally);
    }
    if tally.frames <= 1 {
        return Err(Outcome::Done);
    }
    if tally.steps == most {
        return Err(Outcome::Spent);
    }
    Ok((return_step(work, top, tally), tally.without_frame()))
}

// Puts device d into the store, and into main's slot of its number.
fn put_device(work: &mut [u16], d: usize)
    requires { Whole work.old × (d < length (sheet_in work.old).devices) }
    ensures { work.new ≡ device_put work.old d }
{
    let form = table::devices::device_form(work, d);
    machine_state::put_form(work, d, form);
    machine_state::put_slot(work, 0, d, narrow(d));
}

// Puts all devices there.
fn put_devices(work: &mut [u16])
    requires { Whole work.old }
    ensures { DevicesPut work.old work.new }
{
    let count = wide(table::devices::device_count(work));
    for d in 0..count {
        put_device(work, d);
    }
}

// Where main's frame stands at the start: its first slots have the devices.
fn start_top(work: &[u16]) -> Top
    requires { Able work.now }
    ensures { result ≡ start_top work.now }
{
    let start = wide(table::instrs::main_start(work));
    Top {
        own: 0,
        filled: wide(table::devices::device_count(work)),
        next: start,
        end: start + table::instrs::main_count(work),
    }
}

// The run within a budget, from the start: step after step, until there is none.
fn run(work: &mut [u16], budget: u32) -> Halt
    requires { Ready work.old }
    ensures { SheetRun work.old budget work.new result }
{
    let most = budget as usize;
    let mut top = start_top(work);
    let mut tally = Tally::start(top.filled);
    loop {
        match advance(work, top, tally, most) {
            Ok((frame, counts)) => {
                top = frame;
                tally = counts;
            }
            Err(outcome) => {
                return Halt {
                    outcome,
                    top,
                    tally,
                };
            }
        }
    }
}

// The run of the sheet that the buffer holds: its members are located first, and its devices put in their places.
pub fn run_sheet(work: &mut [u16], budget: u32) -> Halt
    requires { AcceptedIn work.old }
    ensures { SheetRun work.old budget work.new result }
{
    machine_places::locate(work);
    put_devices(work);
    run(work, budget)
}

// The last slot of the frame in hand; 0 if none is filled.
fn last_slot(work: &[u16], top: Top, tally: Tally) -> u16
    requires { Running work.now top tally }
    ensures { result ≡ last_of (slots_in work.now (pred tally.frames) top.filled) }
{
    if top.filled == 0 {
        return 0;
    }
    machine_state::slot(work, tally.frames - 1, top.filled - 1)
}

// The value of a run: main's last slot where it is finished.
fn value_of(work: &[u16], outcome: Outcome, top: Top, tally: Tally) -> u16
    requires { Running work.now top tally }
    ensures { result ≡ value_of outcome (state_in (sheet_in work.now) work.now top tally) }
{
    match outcome {
        Outcome::Done => last_slot(work, top, tally),
        _ => NO_VALUE,
    }
}

// What a run that halted so answers.
pub fn answer(work: &[u16], outcome: Outcome, top: Top, tally: Tally) -> RunAnswer
    requires { Running work.now top tally × (tally.steps < 4294967296) }
    ensures { result ≡ answer_of (ended outcome tally.steps (state_in (sheet_in work.now) work.now top tally)) }
{
    RunAnswer {
        outcome,
        steps: tally.steps as u32,
        value: value_of(work, outcome, top, tally),
        objects: narrow(tally.objects),
    }
}

// The run of the sheet that the buffer holds, and its answer.
pub fn answer_sheet(work: &mut [u16], budget: u32) -> RunAnswer
    requires { AcceptedIn work.old }
    ensures { SheetAnswered work.old budget work.new result }
{
    let halt = run_sheet(work, budget);
    answer(work, halt.outcome, halt.top, halt.tally)
}
