// The lines of a body, judged over the table one after another.
#![tactic(auto)]

ghost use Rattle.std.specs.Prelude.{◌≡◌, ◌≤◌, ◌+◌};
ghost use Rattle.table.specs.View.{instr_in};
ghost use Rattle.table.specs.Whole.{Whole};
ghost use Rattle.instr_typing.specs.Told.{row_found};
ghost use Rattle.code_typing.specs.Walk.{line_limit};
ghost use Rattle.code_typing.specs.Told.{line_judged, CodeJudged, code_faults_in, code_slot_rows};

use sheet_rules::{Reason, Refusal};
use table::rows::wide;
use table::sheet::Sheet;

// The instruction at place p, with the body's declared result if it is the last.
fn judge_line(
    sheet: &Sheet<'_>,
    own: Option<u16>,
    wanted: Option<u16>,
    filled: usize,
    p: usize,
    last: bool,
) -> Result<u16, Reason>
    requires { filled ≤ 64 }
    ensures { result ≡ line_judged sheet.now (row_found own) (row_found wanted) filled (instr_in sheet.now p) last }
{
    let row = instr_typing::judge_instr(sheet, own, filled, p)?;
    match wanted {
        Some(declared) if last => instr_typing::judge_fit(sheet, row, declared, row),
        _ => Ok(row),
    }
}

// `count` instructions of a body or of main, from place `start` of the pool on; their slots' rows are put after the first `filled`.
// Answers the line after them.
pub fn judge_code(
    work: &mut [u16],
    own: Option<u16>,
    wanted: Option<u16>,
    filled: usize,
    start: u16,
    count: usize,
    first: u32,
) -> Result<u32, Refusal>
    requires { Whole work.old × (filled + count ≤ 64) × (first + count ≤ line_limit) }
    ensures { CodeJudged (code_faults_in work.old (row_found own) (row_found wanted) filled start count) (code_slot_rows work.old (row_found own) filled start count) first work.old work.new result }
{
    for j in 0..count {
        let last = j + 1 == count;
        let row = match judge_line(
            &Sheet::of(work),
            own,
            wanted,
            filled + j,
            wide(start) + j,
            last,
        ) {
            Ok(row) => row,
            Err(reason) => {
                return Err(Refusal {
                    reason,
                    line: first + j as u32,
                });
            }
        };
        table::instrs::put_slot_row(work, filled + j, row);
    }
    Ok(first + count as u32)
}
