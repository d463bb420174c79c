// The sheet in the table, judged: its forms, its devices, then main.
#![tactic(auto)]

ghost use Rattle.std.specs.Prelude.{◌≡◌, ◌+◌, ◌≤◌, ◌<◌};
ghost use Rattle.sheet_rules.specs.Answers.{verdict_from};
ghost use Rattle.type_rules.specs.SlotRows.{main_rows};
ghost use Rattle.type_rules.specs.Typing.{first_form_line};
ghost use Rattle.table.specs.Layout.{device_count_at};
ghost use Rattle.table.specs.Told.{slot_rows_in};
ghost use Rattle.table.specs.View.{cell, sheet_in};
ghost use Rattle.table.specs.Whole.{Whole};
ghost use Rattle.code_typing.specs.Walk.{line_limit};
ghost use Rattle.code_typing.specs.Told.{CodeJudged};
ghost use Rattle.typing.specs.Told.{main_faults_in, main_slot_rows, FormsJudged, SheetJudged};

use sheet_rules::{Refusal, Verdict};
use table::rows::wide;
use table::sheet::Sheet;

mod devices;

// The line of the first form: after the `types` line, the rows and the `forms` line.
pub fn first_form_line(sheet: &Sheet<'_>) -> u32
    ensures { (result ≡ first_form_line (sheet_in sheet.now)) × (result + 17514 ≤ line_limit) }
{
    let count = sheet.row_count();
    let mut line: u32 = 3;
    for a in 0..count {
        line += 1 + sheet.members_at(a) as u32;
    }
    line
}

// The lines of all forms.
fn judge_forms(work: &mut [u16], first: u32) -> Result<u32, Refusal>
    requires { Whole work.old × (first + 17472 ≤ line_limit) }
    ensures { FormsJudged first work.old work.new result }
{
    let count = Sheet::of(work).form_count();
    let mut line = first;
    for f in 0..count {
        line = form_typing::judge_form(work, f, line)?;
    }
    Ok(line)
}

// The `main` line and main's instructions, where the devices have their slots.
fn judge_main(work: &mut [u16], line: u32) -> Result<u32, Refusal>
    requires { Whole work.old × (line + 33 ≤ line_limit) × (slot_rows_in work.old (cell work.old device_count_at) ≡ main_rows (sheet_in work.old)) }
    ensures { CodeJudged (main_faults_in work.old) (main_slot_rows work.old) line work.old work.new result }
{
    let sheet = Sheet::of(work);
    let filled = wide(sheet.device_count());
    let start = sheet.main_start();
    let count = sheet.main_count();
    code_typing::judge_code(work, None, None, filled, start, count, line + 1)
}

// The lines of the sheet in the table, where the fit table is filled; answers the line after the last.
fn judge_lines(work: &mut [u16]) -> Result<u32, Refusal>
    requires { Whole work.old }
    ensures { SheetJudged work.old work.new (verdict_from result) }
{
    let forms = first_form_line(&Sheet::of(work));
    let devices = judge_forms(work, forms)?;
    let main = devices::judge_devices(work, devices)?;
    judge_main(work, main)
}

// The verdict on the sheet in the table, where the fit table is filled.
pub fn judge_sheet(work: &mut [u16]) -> Verdict
    requires { Whole work.old }
    ensures { SheetJudged work.old work.new result }
{
    judge_lines(work).into()
}
