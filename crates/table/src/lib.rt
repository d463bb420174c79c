// The table in the work buffer: its layout is in specs/Layout, what it holds in specs/View. All reads and writes of the sheet go
// through here.
#![tactic(auto)]

ghost use Rattle.std.specs.Prelude.{◌≡◌, ◌<◌, length, set};

pub mod devices;
pub mod forms;
pub mod instrs;
pub mod layout;
pub mod rows;
pub mod sheet;
pub mod stores;

// Sets the number at a place that is there.
pub fn put(work: &mut [u16], at: usize, v: u16)
    requires { at < length work.old }
    ensures { work.new ≡ set work.old at v }
{
    work[at] = v;
}
