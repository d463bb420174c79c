// The devices of the sheet that the work buffer holds: the forms of the objects that are there at the start.
ghost use Rattle.std.specs.Prelude.{◌≡◌, ◌<◌, ◌≤◌, length, set};
ghost use Rattle.sheet_rules.specs.Sheet.{device_at};
ghost use Rattle.table.specs.Layout.{device_count_at, device_address, work_size};
ghost use Rattle.table.specs.View.{cell as cell_of, sheet_in};
ghost use Rattle.table.specs.Whole.{Whole};

use crate::layout::{DEVICE_COUNT_AT, DEVICES};

// How many devices the sheet has.
pub fn device_count(work: &[u16]) -> u16
    requires { work_size ≤ length work.now }
    ensures { result ≡ cell_of work.now device_count_at }
{
    work[DEVICE_COUNT_AT]
}

// The form of device i.
#[tactic(auto, using(crate::proofs::SheetLaws::device_there, crate::proofs::SheetLaws::devices_few))]
pub fn device_form(work: &[u16], i: usize) -> u16
    requires { Whole work.now × (i < length (sheet_in work.now).devices) }
    ensures { result ≡ device_at (sheet_in work.now) i }
{
    work[DEVICES + i]
}

// Sets how many devices there are.
pub fn put_device_count(work: &mut [u16], count: u16)
    requires { work_size ≤ length work.old }
    ensures { work.new ≡ set work.old device_count_at count }
{
    crate::put(work, DEVICE_COUNT_AT, count);
}

// Where the forms of the devices stand.
pub fn device_address() -> usize
    ensures { result ≡ device_address 0 }
{
    DEVICES
}
