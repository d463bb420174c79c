// The marked resources, written to the result buffer in ascending order.
ghost use Rattle.std.specs.Prelude.{◌≡◌, ◌<◌, ◌≤◌, length};
ghost use Rattle.authority.specs.Laid.{Stored, is_reached, Kept, Written};

use crate::is_resource;
use authority_marks::is_marked;
use machine_state::narrow;

// Whether object b is a resource that is marked.
fn is_reached(work: &[u16], n: usize, b: usize) -> bool
    requires { Stored work.now n × (b < n) }
    ensures { result ≡ is_reached work.now n b }
{
    is_marked(work, b) && is_resource(work, n, b)
}

// Writes b after `count` numbers, if it is a marked resource; answers how many there are then.
fn write_one(work: &[u16], n: usize, b: usize, res: &mut [u16], count: usize) -> usize
    requires { Stored work.now n × (b < n) × (count ≤ b) × (256 ≤ length res.old) }
    ensures { Kept (is_reached work.now n b) b count res.old res.new result }
{
    if !is_reached(work, n, b) {
        return count;
    }
    res[count] = narrow(b);
    count + 1
}

// Writes the marked resources among n objects, ascending; answers how many they are.
pub fn write_reached(work: &[u16], n: usize, res: &mut [u16]) -> usize
    requires { Stored work.now n × (256 ≤ length res.old) }
    ensures { Written (is_reached work.now n) n res.old res.new result }
{
    let mut count: usize = 0;
    for b in 0..n {
        count = write_one(work, n, b, res, count);
    }
    count
}
