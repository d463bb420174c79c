// Every holder's authority in the state that a run left, one entry after another: the holder, how many it holds, and which.
ghost use Rattle.std.specs.Prelude.{◌+◌, ◌≤◌, [], ◌∷◌, T, length};
ghost use Rattle.authority_rules.specs.Authority.{is_holder};
ghost use Rattle.table.specs.View.{sheet_in};
ghost use Rattle.machine_state.specs.Held.{objects_in};
ghost use Rattle.authority.specs.Laid.{Prepared};
ghost use Rattle.authority.specs.Every.{every_size, EntriesWritten, if_resource, EveryWritten};

use crate::group::write_group;
use crate::{MAIN_HOLDER, is_resource};
use machine_rules::Tally;
use machine_state::{Top, narrow};

// Writes holder h's entry at a place; answers the place after it.
fn write_entry(
    work: &mut [u16],
    top: Top,
    tally: Tally,
    h: usize,
    res: &mut [u16],
    at: usize,
) -> usize
    requires { Prepared work.old top tally × T (is_holder (sheet_in work.old) (objects_in (sheet_in work.old) work.old tally.objects) h) × (at + 258 ≤ every_size) × (every_size ≤ length res.old) }
    ensures { EntriesWritten work.old top tally (h ∷ []) work.new at res.old res.new result }
{
    let from = at + 2;
    let listed: [u16; 1] = [narrow(h)];
    let count = write_group(work, top, tally, &listed, &mut res[from..]);
    res[at] = listed[0];
    res[at + 1] = narrow(count);
    from + count
}

// Writes object b's entry at a place, if it is a resource; answers the place after it.
fn write_object(
    work: &mut [u16],
    top: Top,
    tally: Tally,
    b: usize,
    res: &mut [u16],
    at: usize,
) -> usize
    requires { Prepared work.old top tally × (at + 258 ≤ every_size) × (every_size ≤ length res.old) }
    ensures { EntriesWritten work.old top tally (if_resource work.old top tally b) work.new at res.old res.new result }
{
    if !is_resource(work, tally.objects, b) {
        return at;
    }
    write_entry(work, top, tally, b, res, at)
}

// Writes every holder's entry, main's first, then the resource objects' in ascending order; answers how many numbers they are.
pub fn write_every(work: &mut [u16], top: Top, tally: Tally, res: &mut [u16]) -> usize
    requires { Prepared work.old top tally × (every_size ≤ length res.old) }
    ensures { EveryWritten work.old top tally work.new res.old res.new result }
{
    let n = tally.objects;
    let mut at = write_entry(work, top, tally, MAIN_HOLDER, res, 0);
    for b in 0..n {
        at = write_object(work, top, tally, b, res, at);
    }
    at
}
