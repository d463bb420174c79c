// The steps that change the stack: a call, which puts a frame on it, and the return, which takes one away.
ghost use Rattle.std.specs.Prelude.{◌≤◌, ◌<◌, length};
ghost use Rattle.sheet_rules.specs.Sheet.{call};
ghost use Rattle.machine_rules.specs.Steps.{called, returned};
ghost use Rattle.table.specs.Layout.{work_size};
ghost use Rattle.machine_steps.specs.Entered.{KeptCopied, Entered};
ghost use Rattle.machine_steps.specs.Running.{Running, Facing, Took};

use crate::{KEEP_LIMIT, frame_of};
use machine_rules::Tally;
use machine_state::{Top, form_of, kept, put_slot, restore, save, slot};
use table::rows::wide;

// The return: the last slot of the frame in hand fills the next slot of the frame below.
pub fn return_step(work: &mut [u16], top: Top, tally: Tally) -> Top
    requires { Running work.old top tally × (top.end ≤ top.next) × (1 < tally.frames) }
    ensures { Took work.old top tally work.new result (returned tally) }
{
    let f = frame_of(tally);
    let value = slot(work, f, top.filled - 1);
    let below = restore(work, f - 1);
    put_slot(work, f - 1, below.filled, value);
    Top {
        filled: below.filled + 1,
        ..below
    }
}

// Copies the first values that object o keeps to the slots of frame f, after its first two.
fn copy_kept(work: &mut [u16], f: usize, o: usize, count: usize)
    requires { (f < 64) × (o < 256) × (count ≤ 8) × (work_size ≤ length work.old) }
    ensures { KeptCopied work.old work.new f o count }
{
    for i in 0..KEEP_LIMIT {
        if count <= i {
            return;
        }
        let value = kept(work, o, i);
        put_slot(work, f, 2 + i, value);
    }
}

// The first slots of frame f: the own object, the argument, and the kept values in order.
fn enter(work: &mut [u16], f: usize, own: u16, argument: u16, count: usize)
    requires { (f < 64) × (own < 256) × (count ≤ 8) × (work_size ≤ length work.old) }
    ensures { Entered work.old work.new f own argument count }
{
    put_slot(work, f, 0, own);
    put_slot(work, f, 1, argument);
    copy_kept(work, f, wide(own), count);
}

// `call`: a frame for the body of method n of the object in slot v, with the object in slot a.
pub fn call_step(work: &mut [u16], top: Top, tally: Tally, v: usize, n: usize, a: usize) -> Top
    requires { Facing work.old top tally (call v n a) × (tally.frames < 64) }
    ensures { Took work.old top tally work.new result (called tally) }
{
    let f = frame_of(tally);
    let own = slot(work, f, v);
    let argument = slot(work, f, a);
    let form = form_of(work, wide(own));
    let part = machine_places::place(work, form, n);
    let start = table::forms::body_start(work, form, part);
    let end = start + table::forms::body_count(work, form, part);
    let count = table::forms::keeps_of(work, form);
    save(
        work,
        f,
        Top {
            next: top.next + 1,
            ..top
        },
    );
    enter(work, f + 1, own, argument, count);
    Top {
        own: wide(own) + 1,
        filled: 2 + count,
        next: start,
        end,
    }
}
