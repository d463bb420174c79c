// Who holds what, in the state that a run left in the work buffer: what a holder can still use is marked, frame by frame.
#![tactic(auto)]

ghost use Rattle.std.specs.Prelude.{◌≡◌, ◌<◌, ◌≤◌, length};
ghost use Rattle.authority_rules.specs.Authority.{is_resource, frame_holder};
ghost use Rattle.table.specs.Layout.{work_size};
ghost use Rattle.table.specs.View.{sheet_in};
ghost use Rattle.machine_state.specs.Held.{objects_in, own_from};
ghost use Rattle.authority_marks.specs.Marked.{Added};
ghost use Rattle.authority.specs.Laid.{Stored, Slots, FrameMarked, last_slot, TopMarked, Below, BelowMarked};

use authority_marks::{mark, mark_noted};
use machine_state::{Top, form_of, restore, slot, slot_at};
use sheet_rules::Kind;
use table::layout::CODE_NOTES;
use table::rows::wide;
use table::sheet::Sheet;

pub mod collect;
pub mod every;
pub mod group;
pub mod own;
pub mod reach;

// Main's number as a holder: that after the last place of the store.
pub const MAIN_HOLDER: usize = 256;

// Whether number o is a resource object, among n objects.
pub fn is_resource(work: &[u16], n: usize, o: usize) -> bool
    requires { Stored work.now n }
    ensures { result ≡ is_resource (sheet_in work.now) (objects_in (sheet_in work.now) work.now n) o }
{
    if n <= o {
        return false;
    }
    let sheet = Sheet::of(work);
    let row = sheet.form_row(form_of(work, o));
    matches!(sheet.kind_at(wide(row)), Kind::Resource)
}

// Whose a frame is, by its receiver's number plus one (0 in main) and the holder of the frame beneath.
fn frame_holder(work: &[u16], n: usize, own: usize, beneath: usize) -> usize
    requires { Stored work.now n }
    ensures { result ≡ frame_holder (sheet_in work.now) (objects_in (sheet_in work.now) work.now n) (own_from own) beneath }
{
    if own == 0 {
        return MAIN_HOLDER;
    }
    if is_resource(work, n, own - 1) {
        return own - 1;
    }
    beneath
}

// Marks the slots of frame f that the instructions not yet taken name, if it is h's; answers whose it is.
fn mark_frame(work: &mut [u16], n: usize, f: usize, frame: Top, beneath: usize, h: usize) -> usize
    requires { Stored work.old n × (f < 64) × Slots work.old f frame.filled }
    ensures { FrameMarked work.old n f frame beneath h work.new result }
{
    let holder = frame_holder(work, n, frame.own, beneath);
    if holder != h {
        return holder;
    }
    slot_notes::note_code(work, frame.next, frame.end);
    mark_noted(work, slot_at(f, 0), frame.filled, CODE_NOTES);
    holder
}

// Marks the last slot of frame f, if no instruction is left to take.
fn mark_last(work: &mut [u16], f: usize, frame: Top)
    requires { (f < 64) × Slots work.old f frame.filled × (work_size ≤ length work.old) }
    ensures { Added work.old (last_slot work.old f frame) work.new }
{
    if frame.next < frame.end {
        return;
    }
    if frame.filled == 0 {
        return;
    }
    let last = slot(work, f, frame.filled - 1);
    mark(work, wide(last));
}

// Marks the slots of frame f that count on top, if it is h's.
fn mark_top(work: &mut [u16], n: usize, f: usize, frame: Top, beneath: usize, h: usize)
    requires { Stored work.old n × (f < 64) × Slots work.old f frame.filled }
    ensures { TopMarked work.old n f frame beneath h work.new }
{
    let holder = mark_frame(work, n, f, frame, beneath, h);
    if holder == h {
        mark_last(work, f, frame);
    }
}

// Marks the slots that count of those of the first d frames that are h's, all waiting; answers whose the last of them is (main's if
// there is none).
fn mark_below(work: &mut [u16], n: usize, d: usize, h: usize) -> usize
    requires { Stored work.old n × (d < 64) × Below work.old d }
    ensures { BelowMarked work.old n h d work.new result }
{
    let mut holder = MAIN_HOLDER;
    for f in 0..d {
        let frame = restore(work, f);
        holder = mark_frame(work, n, f, frame, holder, h);
    }
    holder
}
