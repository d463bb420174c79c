// What a holder can still use in the state that a run left, marked.
ghost use Rattle.std.specs.Prelude.{◌≡◌, T};
ghost use Rattle.authority_rules.specs.Counted.{usable};
ghost use Rattle.authority_rules.specs.Authority.{is_holder, reached_by};
ghost use Rattle.table.specs.View.{sheet_in};
ghost use Rattle.machine_state.specs.Held.{objects_in};
ghost use Rattle.authority_marks.specs.Marked.{Added};
ghost use Rattle.authority.specs.Laid.{Stored, Prepared};
ghost use Rattle.authority.specs.Members.{held_state};

use crate::own::mark_own;
use crate::{MAIN_HOLDER, is_resource, mark_below, mark_top};
use machine_rules::Tally;
use machine_state::Top;

// Whether number h is a holder, among n objects: main, or a resource object.
pub fn is_holder(work: &[u16], n: usize, h: usize) -> bool
    requires { Stored work.now n }
    ensures { result ≡ is_holder (sheet_in work.now) (objects_in (sheet_in work.now) work.now n) h }
{
    h == MAIN_HOLDER || is_resource(work, n, h)
}

// Marks what holder h can reach, beside what is marked: what is its own, and the slots that count of its frames.
pub fn mark_reached(work: &mut [u16], top: Top, tally: Tally, h: usize)
    requires { Prepared work.old top tally × T (is_holder (sheet_in work.old) (objects_in (sheet_in work.old) work.old tally.objects) h) }
    ensures { Added work.old (reached_by usable (sheet_in work.old) (held_state work.old top tally) h) work.new }
{
    let n = tally.objects;
    let d = tally.frames - 1;
    let beneath = mark_below(work, n, d, h);
    mark_top(work, n, d, top, beneath, h);
    if h == MAIN_HOLDER {
        return;
    }
    mark_own(work, n, h);
}
