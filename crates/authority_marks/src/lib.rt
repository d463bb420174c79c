// Marks on numbers below 256, in the work buffer's spare room: which objects a holder can reach.
#![tactic(auto)]

ghost use Rattle.std.specs.Prelude.{◌≡◌, ◌<◌, ◌+◌, ◌≤◌, [], ◌∷◌, eqb, length, set};
ghost use Rattle.table.specs.Layout.{state_end, mark_address, code_notes_at, work_size};
ghost use Rattle.table.specs.View.{cell};
ghost use Rattle.authority_marks.specs.Marked.{is_marked, MarksCleared, Added, MarkedIf, numbers_from, noted_from, Small};

use table::layout::{MARK_COUNT, MARKS};
use table::rows::wide;

// No number is marked.
pub fn clear_marks(work: &mut [u16])
    requires { work_size ≤ length work.old }
    ensures { MarksCleared work.old work.new }
{
    work[MARKS..MARKS + MARK_COUNT].fill(0);
}

// Sets the mark of a number.
fn put_mark(work: &mut [u16], v: usize)
    requires { (v < 256) × (work_size ≤ length work.old) }
    ensures { work.new ≡ set work.old (mark_address v) 1 }
{
    work[MARKS + v] = 1;
}

// Marks the numbers that stand in `count` places from `at` on.
pub fn mark_all(work: &mut [u16], at: usize, count: usize)
    requires { (at + count ≤ state_end) × Small work.old at count × (work_size ≤ length work.old) }
    ensures { Added work.old (numbers_from work.old at count) work.new }
{
    for i in 0..count {
        let v = wide(work[at + i]);
        mark(work, v);
    }
}

// Marks the number at a place, if its note, which stands at `note`, is set.
fn mark_if_noted(work: &mut [u16], at: usize, note: usize)
    requires { (at < state_end) × (cell work.old at < 256) × (note < work_size) × (work_size ≤ length work.old) }
    ensures { MarkedIf (eqb (cell work.old note) 1) work.old (cell work.old at) work.new }
{
    if work[note] == 1 {
        let v = wide(work[at]);
        put_mark(work, v);
    }
}

// Marks those of the numbers in `count` places from `at` on whose notes are set; the first one's note stands at `notes`.
pub fn mark_noted(work: &mut [u16], at: usize, count: usize, notes: usize)
    requires { (at + count ≤ state_end) × Small work.old at count × (code_notes_at ≤ notes) × (notes + count ≤ work_size) × (work_size ≤ length work.old) }
    ensures { Added work.old (noted_from work.old at notes count) work.new }
{
    for i in 0..count {
        mark_if_noted(work, at + i, notes + i);
    }
}

// Marks one number.
pub fn mark(work: &mut [u16], v: usize)
    requires { (v < 256) × (work_size ≤ length work.old) }
    ensures { Added work.old (v ∷ []) work.new }
{
    put_mark(work, v);
}

// Whether a number is marked.
pub fn is_marked(work: &[u16], v: usize) -> bool
    requires { (v < 256) × (work_size ≤ length work.now) }
    ensures { result ≡ is_marked work.now v }
{
    work[MARKS + v] == 1
}
