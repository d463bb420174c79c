// The machine's state in the work buffer: what it holds is in specs/Held. All reads and writes of objects and frames go through
// here, and none of them is tested: the numbers are known to be in range.
#![tactic(auto)]

ghost use Rattle.std.specs.Prelude.{◌≡◌, ◌≤◌, ◌<◌, length, set};
ghost use Rattle.table.specs.Layout.{object_address, frame_address, work_size, slot_address, kept_address, field_address};
ghost use Rattle.table.specs.View.{cell as cell_of};
ghost use Rattle.machine_state.specs.Held.{top_in, saved_put};

use table::layout::{FIELDS, FRAME_SIZE, FRAMES, KEPT, OBJECT_SIZE, OBJECTS, SLOTS};
use table::rows::wide;

// Where the frame in hand stands: its receiver's number plus one (0 in main), how many of its slots are filled, the place of its
// next instruction in the pool, and the place where its code ends.
#[derive(Clone, Copy, Debug, PartialEq, Eq)]
pub struct Top {
    pub own: usize,
    pub filled: usize,
    pub next: usize,
    pub end: usize,
}

// A number, to be stored.
pub fn narrow(x: usize) -> u16
    requires { x < 65536 }
    ensures { result ≡ x }
{
    x as u16
}

// Where the numbers of object o begin.
pub fn object_at(o: usize) -> usize
    requires { o < 256 }
    ensures { result ≡ object_address o }
{
    OBJECTS + OBJECT_SIZE * o
}

// Where the numbers of frame f begin.
pub fn frame_at(f: usize) -> usize
    requires { f < 64 }
    ensures { result ≡ frame_address f }
{
    FRAMES + FRAME_SIZE * f
}

// Where slot v of frame f stands.
pub fn slot_at(f: usize, v: usize) -> usize
    requires { (f < 64) × (v < 44) }
    ensures { result ≡ slot_address f v }
{
    frame_at(f) + (SLOTS + v)
}

// Where kept value i of object o stands.
pub fn kept_at(o: usize, i: usize) -> usize
    requires { (o < 256) × (i < 8) }
    ensures { result ≡ kept_address o i }
{
    object_at(o) + (KEPT + i)
}

// Where field i of object o stands, counted among its fields.
pub fn field_at(o: usize, i: usize) -> usize
    requires { (o < 256) × (i < 8) }
    ensures { result ≡ field_address o i }
{
    object_at(o) + (FIELDS + i)
}

// The reads and stores below write their address out: by `slot_at` and its fellows a creation takes 1.26 times as long as in C.

// Slot v of frame f.
pub fn slot(work: &[u16], f: usize, v: usize) -> u16
    requires { (f < 64) × (v < 44) × (work_size ≤ length work.now) }
    ensures { result ≡ cell_of work.now (slot_address f v) }
{
    work[frame_at(f) + (SLOTS + v)]
}

// Sets slot v of frame f.
pub fn put_slot(work: &mut [u16], f: usize, v: usize, x: u16)
    requires { (f < 64) × (v < 44) × (work_size ≤ length work.old) }
    ensures { work.new ≡ set work.old (slot_address f v) x }
{
    work[frame_at(f) + (SLOTS + v)] = x;
}

// The form of object o.
pub fn form_of(work: &[u16], o: usize) -> usize
    requires { (o < 256) × (work_size ≤ length work.now) }
    ensures { result ≡ cell_of work.now (object_address o) }
{
    wide(work[object_at(o)])
}

// Sets the form of object o.
pub fn put_form(work: &mut [u16], o: usize, f: u16)
    requires { (o < 256) × (work_size ≤ length work.old) }
    ensures { work.new ≡ set work.old (object_address o) f }
{
    work[object_at(o)] = f;
}

// Kept value i of object o.
pub fn kept(work: &[u16], o: usize, i: usize) -> u16
    requires { (o < 256) × (i < 8) × (work_size ≤ length work.now) }
    ensures { result ≡ cell_of work.now (kept_address o i) }
{
    work[object_at(o) + (KEPT + i)]
}

// Sets kept value i of object o.
pub fn put_kept(work: &mut [u16], o: usize, i: usize, x: u16)
    requires { (o < 256) × (i < 8) × (work_size ≤ length work.old) }
    ensures { work.new ≡ set work.old (kept_address o i) x }
{
    work[object_at(o) + (KEPT + i)] = x;
}

// Field i of object o, counted among its fields.
pub fn field(work: &[u16], o: usize, i: usize) -> u16
    requires { (o < 256) × (i < 8) × (work_size ≤ length work.now) }
    ensures { result ≡ cell_of work.now (field_address o i) }
{
    work[object_at(o) + (FIELDS + i)]
}

// Sets field i of object o.
pub fn put_field(work: &mut [u16], o: usize, i: usize, x: u16)
    requires { (o < 256) × (i < 8) × (work_size ≤ length work.old) }
    ensures { work.new ≡ set work.old (field_address o i) x }
{
    work[object_at(o) + (FIELDS + i)] = x;
}

// Keeps where frame f stands, while frames above it run.
#[tactic(auto, unfolding(crate::specs::Held::saved_put))]
pub fn save(work: &mut [u16], f: usize, top: Top)
    requires { (f < 64) × (top.own < 65536) × (top.filled < 65536) × (top.next < 65536) × (top.end < 65536) × (work_size ≤ length work.old) }
    ensures { work.new ≡ saved_put work.old f top }
{
    let at = frame_at(f);
    work[at] = narrow(top.own);
    work[at + 1] = narrow(top.filled);
    work[at + 2] = narrow(top.next);
    work[at + 3] = narrow(top.end);
}

// Where frame f stood when it was kept.
pub fn restore(work: &[u16], f: usize) -> Top
    requires { (f < 64) × (work_size ≤ length work.now) }
    ensures { result ≡ top_in work.now f }
{
    let at = frame_at(f);
    Top {
        own: wide(work[at]),
        filled: wide(work[at + 1]),
        next: wide(work[at + 2]),
        end: wide(work[at + 3]),
    }
}
