// The forms that the work buffer holds, read by number. A number that is not there is answered as the rules answer it.
ghost use Rattle.std.specs.Prelude.{◌≡◌, ◌≤◌, ◌<◌, ◌+◌, length, get_or};
ghost use Rattle.sheet_rules.specs.Sheet.{form_at};
ghost use Rattle.table.specs.Layout.{form_address, keep_address, part_address, work_size};
ghost use Rattle.table.specs.Layout.{part_count_address, body_start_address, body_size_address};
ghost use Rattle.table.specs.Told.{part_told};
ghost use Rattle.table.specs.View.{cell as cell_of, part_in, sheet_in};
ghost use Rattle.table.specs.Whole.{Whole};

use crate::layout::{FORM_COUNT_AT, FORM_SIZE, FORMS, KEEPS, PART_SIZE, PARTS};
use crate::rows::wide;

// A part of a form: the kept value of an `init`, or where a body's instructions stand and how many they are.
#[derive(Clone, Copy, Debug, PartialEq, Eq)]
pub enum PartPlace {
    Init { kept: u16 },
    Body { start: u16, count: u16 },
}

// Where form f stands.
pub fn form_address(f: usize) -> usize
    requires { f < 64 }
    ensures { result ≡ form_address f }
{
    FORMS + FORM_SIZE * f
}

// Where part j of form f stands.
pub fn part_address(f: usize, j: usize) -> usize
    requires { (f < 64) × (j < 8) }
    ensures { result ≡ part_address f j }
{
    form_address(f) + (PARTS + PART_SIZE * j)
}

// How many forms the sheet has.
pub fn form_count(work: &[u16]) -> usize
    requires { Whole work.now }
    ensures { (result ≡ length (sheet_in work.now).forms) × (result ≤ 64) }
{
    wide(work[FORM_COUNT_AT])
}

// The row of form f.
#[tactic(auto, unfolding(crate::specs::View::form_in), using(crate::proofs::SheetLaws::form_there))]
pub fn form_row(work: &[u16], f: usize) -> u16
    requires { Whole work.now }
    ensures { result ≡ (form_at (sheet_in work.now) f).row }
{
    if form_count(work) <= f {
        return 0;
    }
    work[form_address(f)]
}

// How many values form f keeps, for a form that is known to be there: nothing is tested.
#[tactic(auto, using(crate::proofs::SheetLaws::keeps_counted, crate::proofs::SheetLaws::keeps_few))]
pub fn keeps_of(work: &[u16], f: usize) -> usize
    requires { Whole work.now × (f < length (sheet_in work.now).forms) }
    ensures { (result ≡ length (form_at (sheet_in work.now) f).keeps) × (result ≤ 8) }
{
    wide(work[form_address(f) + 1])
}

// The row of kept value j of form f, for one that is known to be there: nothing is tested.
#[tactic(auto, using(crate::proofs::SheetLaws::kept_form, crate::proofs::SheetLaws::kept_small))]
pub fn kept(work: &[u16], f: usize, j: usize) -> u16
    requires { Whole work.now × (j < length (form_at (sheet_in work.now) f).keeps) }
    ensures { result ≡ get_or (form_at (sheet_in work.now) f).keeps j 0 }
{
    work[keep_address(f) + j]
}

// Where the kept rows of form f stand.
pub fn keep_address(f: usize) -> usize
    requires { f < 64 }
    ensures { result ≡ keep_address f 0 }
{
    form_address(f) + KEEPS
}

// Part j of form f.
#[tactic(auto, unfolding(crate::specs::View::part_in), using(std::proofs::lemmas::Bool::Decides::nat_tests))]
pub fn part(work: &[u16], f: usize, j: usize) -> PartPlace
    requires { (f < 64) × (j < 8) × (work_size ≤ length work.now) }
    ensures { part_told work.now result ≡ part_in work.now f j }
{
    let at = part_address(f, j);
    let first = work[at + 1];
    if work[at] == 0 {
        return PartPlace::Init { kept: first };
    }
    PartPlace::Body {
        start: first,
        count: work[at + 2],
    }
}

// How many parts form f has.
pub fn part_count(work: &[u16], f: usize) -> usize
    requires { (f < 64) × (work_size ≤ length work.now) }
    ensures { result ≡ cell_of work.now (part_count_address f) }
{
    wide(work[form_address(f) + 2])
}

// Where the instructions of part j of form f begin, if it is a body.
pub fn body_start(work: &[u16], f: usize, j: usize) -> usize
    requires { (f < 64) × (j < 8) × (work_size ≤ length work.now) }
    ensures { result ≡ cell_of work.now (body_start_address f j) }
{
    wide(work[part_address(f, j) + 1])
}

// How many they are.
pub fn body_count(work: &[u16], f: usize, j: usize) -> usize
    requires { (f < 64) × (j < 8) × (work_size ≤ length work.now) }
    ensures { result ≡ cell_of work.now (body_size_address f j) }
{
    wide(work[part_address(f, j) + 2])
}
