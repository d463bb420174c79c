// The lines of the devices, judged; the rows of main's first slots are put on the way.
ghost use Rattle.std.specs.Prelude.{◌≡◌, ◌+◌, ◌≤◌};
ghost use Rattle.type_rules.specs.SlotRows.{main_rows};
ghost use Rattle.type_rules.specs.Typing.{is_device};
ghost use Rattle.table.specs.View.{sheet_in};
ghost use Rattle.table.specs.Whole.{Whole};
ghost use Rattle.code_typing.specs.Walk.{line_limit};
ghost use Rattle.code_typing.specs.Told.{CodeJudged};
ghost use Rattle.typing.specs.Told.{device_faults_in, devices_faults_in};

use sheet_rules::{Reason, Refusal};
use table::rows::wide;
use table::sheet::Sheet;

// Whether a form may be a device's: it keeps nothing, and is a resource.
fn is_device(sheet: &Sheet<'_>, f: usize) -> bool
    ensures { result ≡ is_device (sheet_in sheet.now) f }
{
    sheet.keep_count(f) == 0 && !form_typing::is_pure(sheet, wide(sheet.form_row(f)))
}

// The `device` lines, from line `first` on.
fn judge_each(work: &mut [u16], first: u32) -> Result<u32, Refusal>
    requires { Whole work.old × (first + 8 ≤ line_limit) }
    ensures { CodeJudged (device_faults_in work.old) (main_rows (sheet_in work.old)) first work.old work.new result }
{
    let count = wide(table::devices::device_count(work));
    for d in 0..count {
        let sheet = Sheet::of(work);
        let form = wide(sheet.device_form(d));
        if !is_device(&sheet, form) {
            return Err(Refusal {
                reason: Reason::WrongDevice,
                line: first + d as u32,
            });
        }
        let row = sheet.form_row(form);
        table::instrs::put_slot_row(work, d, row);
    }
    Ok(first + count as u32)
}

// The `devices` line and the `device` lines; a sheet without devices has none of them.
pub fn judge_devices(work: &mut [u16], line: u32) -> Result<u32, Refusal>
    requires { Whole work.old × (line + 9 ≤ line_limit) }
    ensures { CodeJudged (devices_faults_in work.old) (main_rows (sheet_in work.old)) line work.old work.new result }
{
    if table::devices::device_count(work) == 0 {
        return Ok(line);
    }
    judge_each(work, line + 1)
}
