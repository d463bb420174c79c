// Circular calls, looked for over the table: a body of method N may call only methods with names below N.
ghost use Rattle.std.specs.Prelude.{◌≡◌, ◌≤◌, ◌<◌, ◌+◌, length};
ghost use Rattle.sheet_rules.specs.Sheet.{called_name};
ghost use Rattle.table.specs.View.{instr_in, instrs_in, sheet_in};
ghost use Rattle.table.specs.Told.{part_told};
ghost use Rattle.code_typing.specs.Walk.{line_limit, walk};
ghost use Rattle.bound_rules.specs.Strict.{calls_below, strictness};
ghost use Rattle.form_typing.specs.Told.{PlaceSmall};
ghost use Rattle.bound.specs.Told.{code_calls, part_calls, parts_calls, forms_calls};

use sheet_rules::{Member, Reason, Refusal, Verdict};
use table::forms::PartPlace;
use table::rows::wide;
use table::sheet::Sheet;

// The instruction at place p calls nothing, or a method of a name below.
fn calls_below(sheet: &Sheet<'_>, name: u16, p: usize) -> bool
    ensures { result ≡ calls_below name (called_name (instr_in sheet.now p)) }
{
    crate::called_at(sheet, p).is_none_or(|called| called < name)
}

// The `count` instructions of a body of method `name`, from place `start` of the pool on.
fn judge_code(
    sheet: &Sheet<'_>,
    name: u16,
    start: u16,
    count: usize,
    first: u32,
) -> Result<u32, Refusal>
    requires { (count ≤ 32) × (first + count ≤ line_limit) }
    ensures { result ≡ walk first (code_calls name (instrs_in sheet.now start count)) }
{
    for j in 0..count {
        if !calls_below(sheet, name, wide(start) + j) {
            return Err(Refusal {
                reason: Reason::CircularCall,
                line: first + j as u32,
            });
        }
    }
    Ok(first + count as u32)
}

// The lines of a form's part for a member of its row.
fn judge_part(
    sheet: &Sheet<'_>,
    member: Member,
    place: PartPlace,
    line: u32,
) -> Result<u32, Refusal>
    requires { PlaceSmall place × (line + 33 ≤ line_limit) }
    ensures { result ≡ walk line (part_calls member (part_told sheet.now place)) }
{
    match (member, place) {
        (Member::Method { name, .. }, PartPlace::Body { start, count }) => {
            judge_code(sheet, name, start, wide(count), line + 1)
        }
        (Member::Field { .. }, PartPlace::Init { .. }) => Ok(line + 1),
        _ => Ok(line),
    }
}

// The lines of the parts of form f.
fn judge_parts(sheet: &Sheet<'_>, f: usize, first: u32) -> Result<u32, Refusal>
    requires { (f < length (sheet_in sheet.now).forms) × (first + 264 ≤ line_limit) }
    ensures { result ≡ walk first (parts_calls (sheet_in sheet.now) f) }
{
    let row = wide(sheet.form_row(f));
    let mut line = first;
    for j in 0..sheet.members_at(row) {
        let member = sheet.member(row, j);
        let place = sheet.part(f, j);
        line = judge_part(sheet, member, place, line)?;
    }
    Ok(line)
}

// The lines of all forms: of each its heading and its `keep` lines, which are passed over, and its parts.
fn judge_forms(sheet: &Sheet<'_>, first: u32) -> Result<u32, Refusal>
    requires { first + 17505 ≤ line_limit }
    ensures { result ≡ walk first (forms_calls (sheet_in sheet.now)) }
{
    let mut line = first;
    for f in 0..sheet.form_count() {
        let keeps = sheet.keeps_of(f);
        line = judge_parts(sheet, f, line + 1 + keeps as u32)?;
    }
    Ok(line)
}

// Whether the sheet in the table is of the stricter kind, or its first line against it. Main may call any method.
pub fn judge_calls(sheet: &Sheet<'_>) -> Verdict
    ensures { result ≡ strictness (sheet_in sheet.now) }
{
    let first = typing::first_form_line(sheet);
    judge_forms(sheet, first).into()
}
