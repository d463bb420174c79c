// The instructions that the work buffer holds, read by their place in the pool, and the rows of a body's slots.
ghost use Rattle.std.specs.Prelude.{◌≡◌, ◌≤◌, ◌<◌, ◌+◌, min, length, get_or, set};
ghost use Rattle.table.specs.Layout.{main_start_at, main_count_at, instr_address, slot_row_address, work_size};
ghost use Rattle.table.specs.Told.{new_slots, instr_told, ToldFrom, slot_rows_in};
ghost use Rattle.table.specs.View.{cell as cell_of, instr_in};
ghost use Rattle.table.specs.Whole.{Whole};

use crate::layout::{
    INSTR_SIZE, INSTRS, MAIN_COUNT_AT, MAIN_START_AT, NUMBER_COUNT, NUMBERS, POOL_SIZE, SLOT_ROWS,
};
use crate::rows::wide;

// One instruction. The slots of a `new` are read by number.
#[derive(Clone, Copy, Debug, PartialEq, Eq)]
pub enum Instruction {
    New {
        form: u16,
    },
    Call {
        object: u16,
        name: u16,
        argument: u16,
    },
    Get {
        name: u16,
    },
    Put {
        name: u16,
        value: u16,
    },
    Copy {
        slot: u16,
    },
}

// A place in the pool, within its 1,024.
pub fn within_pool(p: usize) -> usize
    ensures { result ≡ min p 1023 }
{
    p.min(POOL_SIZE - 1)
}

// Where the instruction at place p of the pool stands.
pub fn instr_address(p: usize) -> usize
    requires { p < 1024 }
    ensures { (result ≡ instr_address p) × (result ≤ 15877) }
{
    INSTRS + INSTR_SIZE * p
}

// The instruction whose numbers begin at a place: its operation's code first.
fn instr_from(work: &[u16], at: usize) -> Instruction
    requires { at + 11 ≤ length work.now }
    ensures { ToldFrom work.now at result }
{
    match work[at] {
        0 => Instruction::New { form: work[at + 2] },
        1 => Instruction::Call {
            object: work[at + 2],
            name: work[at + 3],
            argument: work[at + 4],
        },
        2 => Instruction::Get { name: work[at + 2] },
        3 => Instruction::Put {
            name: work[at + 2],
            value: work[at + 3],
        },
        _ => Instruction::Copy { slot: work[at + 2] },
    }
}

// The instruction at place p of the pool.
#[tactic(auto, using(crate::proofs::InstrLaws::slots_within, crate::proofs::InstrLaws::instr_within))]
pub fn instr_at(work: &[u16], p: usize) -> Instruction
    requires { work_size ≤ length work.now }
    ensures { instr_told (new_slots work.now p) result ≡ instr_in work.now p }
{
    instr_placed(work, within_pool(p))
}

// The same for a place that is known to be in the pool: nothing is tested.
pub fn instr_placed(work: &[u16], p: usize) -> Instruction
    requires { (p < 1024) × (work_size ≤ length work.now) }
    ensures { instr_told (new_slots work.now p) result ≡ instr_in work.now p }
{
    instr_from(work, instr_address(p))
}

// Where main's instructions begin.
pub fn main_start(work: &[u16]) -> u16
    requires { work_size ≤ length work.now }
    ensures { result ≡ cell_of work.now main_start_at }
{
    work[MAIN_START_AT]
}

// How many instructions main has.
#[tactic(auto, using(crate::proofs::SheetLaws::main_few))]
pub fn main_count(work: &[u16]) -> usize
    requires { Whole work.now }
    ensures { (result ≡ cell_of work.now main_count_at) × (result ≤ 32) }
{
    wide(work[MAIN_COUNT_AT])
}

// How many slots the `new` at place p of the pool names.
#[tactic(auto, using(crate::proofs::InstrLaws::slots_length))]
pub fn new_slot_count(work: &[u16], p: usize) -> usize
    requires { work_size ≤ length work.now }
    ensures { (result ≡ length (new_slots work.now p)) × (result ≤ 8) }
{
    let count = wide(work[instr_address(within_pool(p)) + 1]);
    count.min(NUMBER_COUNT).saturating_sub(1)
}

// Slot k that the `new` at place p of the pool names.
#[tactic(auto, using(crate::proofs::InstrLaws::slots_within, crate::proofs::InstrLaws::slot_missing))]
pub fn new_slot(work: &[u16], p: usize, k: usize) -> u16
    requires { work_size ≤ length work.now }
    ensures { result ≡ get_or (new_slots work.now p) k 0 }
{
    if new_slot_count(work, p) <= k {
        return 0;
    }
    slot_named(work, within_pool(p), k)
}

// The same for a slot that is known to be named: nothing is tested.
#[tactic(auto, using(crate::proofs::InstrLaws::slot_there))]
pub fn slot_named(work: &[u16], p: usize, k: usize) -> u16
    requires { (p < 1024) × (k < length (new_slots work.now p)) × (k < 8) × (work_size ≤ length work.now) }
    ensures { result ≡ get_or (new_slots work.now p) k 0 }
{
    work[instr_address(p) + (NUMBERS + 1 + k)]
}

// Where the row of slot v stands.
fn slot_row_address(v: usize) -> usize
    requires { v < 64 }
    ensures { result ≡ slot_row_address v }
{
    SLOT_ROWS + v
}

// The row of slot v, where `filled` slots are filled.
#[tactic(auto, using(crate::proofs::InstrLaws::slot_row_there, crate::proofs::InstrLaws::slot_row_missing))]
pub fn slot_row(work: &[u16], filled: usize, v: usize) -> u16
    requires { (filled ≤ 64) × (work_size ≤ length work.now) }
    ensures { result ≡ get_or (slot_rows_in work.now filled) v 0 }
{
    if filled <= v {
        return 0;
    }
    work[slot_row_address(v)]
}

// Sets the row of slot v.
pub fn put_slot_row(work: &mut [u16], v: usize, row: u16)
    requires { (v < 64) × (work_size ≤ length work.old) }
    ensures { work.new ≡ set work.old (slot_row_address v) row }
{
    crate::put(work, slot_row_address(v), row);
}
