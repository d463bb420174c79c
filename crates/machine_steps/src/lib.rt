// One step of the machine, in the work buffer: a function for each instruction, and the return. None of them tests what typing
// has settled: that slots are filled, objects made, and members there.
#![tactic(auto)]

ghost use Rattle.std.specs.Prelude.{◌≡◌, pred, ◌≤◌, ◌<◌, length, set};
ghost use Rattle.sheet_rules.specs.Sheet.{copy, get, put};
ghost use Rattle.machine_rules.specs.Steps.{worked};
ghost use Rattle.table.specs.Layout.{work_size, slot_address};
ghost use Rattle.machine_state.specs.Held.{past, filled as filled_top};
ghost use Rattle.machine_steps.specs.Running.{Facing, Took};

use machine_rules::Tally;
use machine_state::{Top, field, form_of, put_field, put_slot, slot};

pub mod creation;
pub mod frames;

// A form keeps at most 8 values, and its row has at most 8 members. The loops over them go up to these, so that the compiler can
// unroll them.
const KEEP_LIMIT: usize = 8;

const MEMBER_LIMIT: usize = 8;

// The number of the frame in hand.
fn frame_of(tally: Tally) -> usize
    requires { 1 ≤ tally.frames }
    ensures { result ≡ pred tally.frames }
{
    tally.frames - 1
}

// Takes the next instruction of frame f, which yields v: the frame's next slot is filled.
fn fill_slot(work: &mut [u16], f: usize, top: Top, v: u16) -> Top
    requires { (f < 64) × (top.filled < 42) × (top.next < 1024) × (work_size ≤ length work.old) }
    ensures { (result ≡ filled_top (past top)) × (work.new ≡ set work.old (slot_address f top.filled) v) }
{
    put_slot(work, f, top.filled, v);
    Top {
        filled: top.filled + 1,
        next: top.next + 1,
        ..top
    }
}

// `copy`: the value of a slot.
pub fn copy_step(work: &mut [u16], top: Top, tally: Tally, v: usize) -> Top
    requires { Facing work.old top tally (copy v) }
    ensures { Took work.old top tally work.new result (worked tally) }
{
    let f = frame_of(tally);
    let value = slot(work, f, v);
    fill_slot(work, f, top, value)
}

// `get`: the own object's field of name n.
pub fn get_step(work: &mut [u16], top: Top, tally: Tally, n: usize) -> Top
    requires { Facing work.old top tally (get n) }
    ensures { Took work.old top tally work.new result (worked tally) }
{
    let o = top.own - 1;
    let place = machine_places::place(work, form_of(work, o), n);
    let value = field(work, o, place);
    fill_slot(work, frame_of(tally), top, value)
}

// `put`: the own object's field of name n becomes the value of a slot.
pub fn put_step(work: &mut [u16], top: Top, tally: Tally, n: usize, v: usize) -> Top
    requires { Facing work.old top tally (put n v) }
    ensures { Took work.old top tally work.new result (worked tally) }
{
    let f = frame_of(tally);
    let o = top.own - 1;
    let place = machine_places::place(work, form_of(work, o), n);
    let value = slot(work, f, v);
    put_field(work, o, place, value);
    fill_slot(work, f, top, value)
}
