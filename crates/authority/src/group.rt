// A group's authority in the state that a run left: what its members can reach is marked, and the resources among it are written.
ghost use Rattle.std.specs.Prelude.{◌≡◌, ◌≤◌, T, length};
ghost use Rattle.lists.specs.AnyAll.{all};
ghost use Rattle.authority_rules.specs.Authority.{is_holder};
ghost use Rattle.authority_rules.specs.Group.{is_group};
ghost use Rattle.table.specs.View.{sheet_in};
ghost use Rattle.machine_state.specs.Held.{objects_in};
ghost use Rattle.authority.specs.Laid.{Stored, Prepared};
ghost use Rattle.authority.specs.Members.{MembersMarked, GroupWritten};

use crate::collect::write_reached;
use crate::reach::{is_holder, mark_reached};
use machine_rules::Tally;
use machine_state::Top;
use table::rows::wide;

// How many holders a group has at most.
const GROUP_LIMIT: usize = 16;

// Whether every number on a list is a holder, among n objects.
fn are_holders(work: &[u16], n: usize, holders: &[u16]) -> bool
    requires { Stored work.now n }
    ensures { result ≡ all (is_holder (sheet_in work.now) (objects_in (sheet_in work.now) work.now n)) holders.now }
{
    holders.iter().all(|&h| is_holder(work, n, wide(h)))
}

// Whether a list is a group, among n objects: at most 16 numbers, every one a holder.
pub fn is_group(work: &[u16], n: usize, holders: &[u16]) -> bool
    requires { Stored work.now n }
    ensures { result ≡ is_group (sheet_in work.now) (objects_in (sheet_in work.now) work.now n) holders.now }
{
    holders.len() <= GROUP_LIMIT && are_holders(work, n, holders)
}

// Marks what each of some holders can reach, beside what is marked.
fn mark_members(work: &mut [u16], top: Top, tally: Tally, holders: &[u16])
    requires { Prepared work.old top tally × T (all (is_holder (sheet_in work.old) (objects_in (sheet_in work.old) work.old tally.objects)) holders.now) }
    ensures { MembersMarked work.old top tally holders.now work.new }
{
    for &h in holders {
        mark_reached(work, top, tally, wide(h));
    }
}

// Writes what some holders hold together, ascending; answers how many they are.
pub fn write_group(
    work: &mut [u16],
    top: Top,
    tally: Tally,
    holders: &[u16],
    res: &mut [u16],
) -> usize
    requires { Prepared work.old top tally × T (all (is_holder (sheet_in work.old) (objects_in (sheet_in work.old) work.old tally.objects)) holders.now) × (256 ≤ length res.old) }
    ensures { GroupWritten work.old top tally holders.now work.new res.old res.new result }
{
    authority_marks::clear_marks(work);
    mark_members(work, top, tally, holders);
    write_reached(work, tally.objects, res)
}
