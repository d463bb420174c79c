// Notes on the slots that code names, in the work buffer's spare room: of a code, and of each form's bodies.
#![tactic(auto)]

ghost use Rattle.std.specs.Prelude.{◌≡◌, ◌-◌, ◌≤◌, ◌<◌, eqb, length};
ghost use Rattle.lists.specs.Contains.{contains};
ghost use Rattle.sheet_rules.specs.Sheet.{named_slots, code_names, part_names, form_names, form_at};
ghost use Rattle.table.specs.Layout.{form_notes_address, work_size};
ghost use Rattle.table.specs.Told.{new_slots};
ghost use Rattle.table.specs.View.{instr_in, instrs_in, part_in, sheet_in};
ghost use Rattle.table.specs.Whole.{Whole};
ghost use Rattle.slot_notes.specs.Noted.{Room, NotesCleared, Noted, NotedAfresh, CodeNoted, FormsNotedIn};

use table::forms::PartPlace;
use table::instrs::Instruction;
use table::layout::{CODE_NOTES, FORM_NOTES, SLOT_COUNT};
use table::rows::wide;

// Where the notes of form f begin.
pub fn form_notes(f: usize) -> usize
    requires { f < 64 }
    ensures { (result ≡ form_notes_address f) × (result ≤ 30544) }
{
    FORM_NOTES + SLOT_COUNT * f
}

// No slot is noted.
fn clear_notes(work: &mut [u16], at: usize)
    requires { Room at work.old }
    ensures { NotesCleared at work.old work.new }
{
    work[at..at + SLOT_COUNT].fill(0);
}

// Notes slot v, if it is one that a frame can have.
fn note(work: &mut [u16], at: usize, v: usize)
    requires { Room at work.old }
    ensures { Noted at work.old (eqb v) work.new }
{
    if v < SLOT_COUNT {
        work[at + v] = 1;
    }
}

// Notes the slots that the `new` at place p of the pool names.
fn note_new(work: &mut [u16], at: usize, p: usize)
    requires { Room at work.old × (p < 1024) }
    ensures { Noted at work.old (contains (new_slots work.old p)) work.new }
{
    let count = table::instrs::new_slot_count(work, p);
    for k in 0..count {
        let v = wide(table::instrs::slot_named(work, p, k));
        note(work, at, v);
    }
}

// Notes the slots that the instruction at place p names, for a place that is known to be in the pool.
fn note_placed(work: &mut [u16], at: usize, p: usize)
    requires { Room at work.old × (p < 1024) }
    ensures { Noted at work.old (contains (named_slots (instr_in work.old p))) work.new }
{
    match table::instrs::instr_placed(work, p) {
        Instruction::New { .. } => note_new(work, at, p),
        Instruction::Call {
            object,
            argument,
            ..
        } => {
            note(work, at, wide(object));
            note(work, at, wide(argument));
        }
        Instruction::Get { .. } => {}
        Instruction::Put { value, .. } => note(work, at, wide(value)),
        Instruction::Copy { slot } => note(work, at, wide(slot)),
    }
}

// The same for any place.
fn note_instr(work: &mut [u16], at: usize, p: usize)
    requires { Room at work.old }
    ensures { Noted at work.old (contains (named_slots (instr_in work.old p))) work.new }
{
    note_placed(work, at, table::instrs::within_pool(p));
}

// Notes the slots that the instructions from place p of the pool to its end name.
fn note_instrs(work: &mut [u16], at: usize, p: usize, end: usize)
    requires { Room at work.old }
    ensures { Noted at work.old (code_names (instrs_in work.old p (end - p))) work.new }
{
    for q in p..end {
        note_instr(work, at, q);
    }
}

// Notes the slots that some code names, and no others.
pub fn note_code(work: &mut [u16], p: usize, end: usize)
    requires { work_size ≤ length work.old }
    ensures { CodeNoted work.old (instrs_in work.old p (end - p)) work.new }
{
    clear_notes(work, CODE_NOTES);
    note_instrs(work, CODE_NOTES, p, end);
}

// Notes the slots that part j of form f names.
fn note_part(work: &mut [u16], at: usize, f: usize, j: usize)
    requires { Room at work.old × (f < 64) × (j < 8) }
    ensures { Noted at work.old (part_names (part_in work.old f j)) work.new }
{
    match table::forms::part(work, f, j) {
        PartPlace::Init { .. } => {}
        PartPlace::Body { start, count } => {
            note_instrs(work, at, wide(start), wide(start) + wide(count))
        }
    }
}

// Notes the slots that the bodies of form f name.
fn note_parts(work: &mut [u16], at: usize, f: usize)
    requires { Room at work.old × Whole work.old × (f < length (sheet_in work.old).forms) }
    ensures { Noted at work.old (form_names (form_at (sheet_in work.old) f)) work.new }
{
    let count = table::forms::part_count(work, f);
    for j in 0..count {
        note_part(work, at, f, j);
    }
}

// Notes the slots that the bodies of form f name, and no others, where that form's notes stand.
fn note_form(work: &mut [u16], f: usize)
    requires { Whole work.old × (f < length (sheet_in work.old).forms) }
    ensures { NotedAfresh (form_notes_address f) work.old (form_names (form_at (sheet_in work.old) f)) work.new }
{
    let at = form_notes(f);
    clear_notes(work, at);
    note_parts(work, at, f);
}

// Notes of each form which slots its bodies name.
pub fn note_forms(work: &mut [u16])
    requires { Whole work.old }
    ensures { FormsNotedIn work.old (length (sheet_in work.old).forms) work.new }
{
    let count = table::forms::form_count(work);
    for f in 0..count {
        note_form(work, f);
    }
}
