// The lines of a form, judged over the table: its heading, its `keep` lines, and its parts.
#![tactic(auto)]

ghost use Rattle.std.specs.Prelude.{◌≡◌, not, ◌&&◌, [], ◌∷◌, ◌+◌, ◌≤◌, ◌<◌, length};
ghost use Rattle.sheet_rules.specs.Sheet.{row_at, form_at};
ghost use Rattle.type_rules.specs.SlotRows.{members_at};
ghost use Rattle.type_rules.specs.Typing.{init_fault, is_pure, has_field, form_fault};
ghost use Rattle.table.specs.View.{sheet_in};
ghost use Rattle.table.specs.Whole.{Whole};
ghost use Rattle.fit_answer.specs.Told.{answers};
ghost use Rattle.code_typing.specs.Walk.{line_limit, walk};
ghost use Rattle.code_typing.specs.Told.{LinesJudged, CodeJudged};
ghost use Rattle.form_typing.specs.Told.{KeepsPut, SlotsFilled, PlaceSmall, body_faults, body_slot_rows, part_faults_in, parts_faults_in, keep_faults_in, form_faults_in};

use sheet_rules::{Kind, Member, Reason, Refusal};
use table::forms::PartPlace;
use table::rows::wide;
use table::sheet::Sheet;

// The kept rows of form f, as the rows of the slots after the first two.
fn put_keeps(work: &mut [u16], f: usize, count: usize)
    requires { Whole work.old × (count ≤ 8) }
    ensures { KeepsPut f count work.old work.new }
{
    for k in 0..count {
        let row = Sheet::of(work).keep(f, k);
        table::instrs::put_slot_row(work, 2 + k, row);
    }
}

// The rows of the first slots of a body of form f: the own object, the argument, the kept values. Answers how many they are.
fn put_slots(work: &mut [u16], f: usize, argument: u16) -> usize
    requires { Whole work.old }
    ensures { SlotsFilled f argument work.old work.new result }
{
    let sheet = Sheet::of(work);
    let row = sheet.form_row(f);
    let count = sheet.keep_count(f);
    table::instrs::put_slot_row(work, 0, row);
    table::instrs::put_slot_row(work, 1, argument);
    put_keeps(work, f, count);
    2 + count
}

// A body of form f, from its `body` line on, for a method of an argument row and a result row.
fn judge_body(
    work: &mut [u16],
    f: usize,
    argument: u16,
    res: u16,
    start: u16,
    count: u16,
    line: u32,
) -> Result<u32, Refusal>
    requires { Whole work.old × (count ≤ 32) × (line + 33 ≤ line_limit) }
    ensures { CodeJudged (body_faults work.old f argument res start count) (body_slot_rows work.old f argument start count) line work.old work.new result }
{
    let own = Sheet::of(work).form_row(f);
    let filled = put_slots(work, f, argument);
    code_typing::judge_code(
        work,
        Some(own),
        Some(res),
        filled,
        start,
        wide(count),
        line + 1,
    )
}

// An `init` line of form f: the kept value fits the field's row.
fn judge_init(sheet: &Sheet<'_>, f: usize, kept: u16, row: u16, line: u32) -> Result<u32, Refusal>
    requires { line < line_limit }
    ensures { result ≡ walk line (init_fault (answers sheet.now) (form_at (sheet_in sheet.now) f) row kept ∷ []) }
{
    let given = sheet.keep(f, wide(kept));
    match instr_typing::judge_fit(sheet, given, row, row) {
        Ok(_) => Ok(line + 1),
        Err(reason) => Err(Refusal { reason, line }),
    }
}

// A part of form f, for a member of its row.
#[tactic(auto, using(crate::proofs::PartLaws::part_none_init, crate::proofs::PartLaws::part_none_body))]
fn judge_part(
    work: &mut [u16],
    f: usize,
    member: Member,
    place: PartPlace,
    line: u32,
) -> Result<u32, Refusal>
    requires { Whole work.old × PlaceSmall place × (line + 33 ≤ line_limit) }
    ensures { LinesJudged (part_faults_in work.old f member place) line work.old work.new result }
{
    match (member, place) {
        (
            Member::Method {
                argument,
                result,
                ..
            },
            PartPlace::Body { start, count },
        ) => judge_body(work, f, argument, result, start, count, line),
        (Member::Field { row, .. }, PartPlace::Init { kept }) => {
            judge_init(&Sheet::of(work), f, kept, row, line)
        }
        _ => Ok(line),
    }
}

// The parts of form f.
fn judge_parts(work: &mut [u16], f: usize, first: u32) -> Result<u32, Refusal>
    requires { Whole work.old × (f < length (sheet_in work.old).forms) × (first + 264 ≤ line_limit) }
    ensures { LinesJudged (parts_faults_in work.old f) first work.old work.new result }
{
    let sheet = Sheet::of(work);
    let row = wide(sheet.form_row(f));
    let count = sheet.members_at(row);
    let mut line = first;
    for j in 0..count {
        let sheet = Sheet::of(work);
        let member = sheet.member(row, j);
        let place = sheet.part(f, j);
        line = judge_part(work, f, member, place, line)?;
    }
    Ok(line)
}

// Row a of the sheet is pure.
pub fn is_pure(sheet: &Sheet<'_>, a: usize) -> bool
    ensures { result ≡ is_pure (row_at (sheet_in sheet.now).rows a).kind }
{
    sheet.kind_at(a) == Kind::Pure
}

// A member is a field.
#[tactic(auto, unfolding(type_rules::specs::Typing::has_field))]
fn is_field(m: Member) -> bool
    ensures { result ≡ has_field (m ∷ []) }
{
    matches!(m, Member::Field { .. })
}

// Row a of the sheet has a field.
fn has_field(sheet: &Sheet<'_>, a: usize) -> bool
    ensures { result ≡ has_field (members_at (sheet_in sheet.now) a) }
{
    for j in 0..sheet.members_at(a) {
        if is_field(sheet.member(a, j)) {
            return true;
        }
    }
    false
}

// The `form` line of a form of row a: a pure row has no field.
fn judge_head(sheet: &Sheet<'_>, a: usize, line: u32) -> Result<u32, Refusal>
    requires { line < line_limit }
    ensures { result ≡ walk line (form_fault (row_at (sheet_in sheet.now).rows a) ∷ []) }
{
    if is_pure(sheet, a) && has_field(sheet, a) {
        return Err(Refusal {
            reason: Reason::ImpureForm,
            line,
        });
    }
    Ok(line + 1)
}

// A form that is pure, or not, may keep row k: a pure one keeps pure rows alone.
fn may_keep(sheet: &Sheet<'_>, pure: bool, k: usize) -> bool
    ensures { result ≡ not (pure && not (is_pure (row_at (sheet_in sheet.now).rows k).kind)) }
{
    !pure || is_pure(sheet, k)
}

// The `keep` lines of form f.
fn judge_keeps(sheet: &Sheet<'_>, f: usize, first: u32) -> Result<u32, Refusal>
    requires { first + 8 ≤ line_limit }
    ensures { result ≡ walk first (keep_faults_in sheet.now f) }
{
    let pure = is_pure(sheet, wide(sheet.form_row(f)));
    let count = sheet.keep_count(f);
    for j in 0..count {
        if !may_keep(sheet, pure, wide(sheet.keep(f, j))) {
            return Err(Refusal {
                reason: Reason::ImpureForm,
                line: first + j as u32,
            });
        }
    }
    Ok(first + count as u32)
}

// The lines of form f.
pub fn judge_form(work: &mut [u16], f: usize, line: u32) -> Result<u32, Refusal>
    requires { Whole work.old × (f < length (sheet_in work.old).forms) × (line + 273 ≤ line_limit) }
    ensures { LinesJudged (form_faults_in work.old f) line work.old work.new result }
{
    let sheet = Sheet::of(work);
    let row = wide(sheet.form_row(f));
    let keeps = judge_head(&sheet, row, line)?;
    let parts = judge_keeps(&sheet, f, keeps)?;
    judge_parts(work, f, parts)
}
