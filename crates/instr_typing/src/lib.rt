// One instruction, judged over the table: the members that it names are there, and its values fit where they go.
#![tactic(auto)]

ghost use Rattle.std.specs.Prelude.{◌≡◌, [], ◌∷◌, ◌≤◌, get_or};
ghost use Rattle.type_rules.specs.SlotRows.{method_in, field_in, members_at, own_field};
ghost use Rattle.table.specs.View.{instr_in, sheet_in};
ghost use Rattle.table.specs.Told.{new_slots, slot_rows_in};
ghost use Rattle.table.specs.Whole.{Whole};
ghost use Rattle.fit_answer.specs.Told.{answers};
ghost use Rattle.instr_typing.specs.Found.{FirstOf};
ghost use Rattle.instr_typing.specs.Told.{row_found, method_found, fit_judged, new_judged, call_judged, get_judged, put_judged, instr_judged};

use sheet_rules::{FitAnswer, Lack, Member, Reason};
use table::instrs::Instruction;
use table::rows::wide;
use table::sheet::Sheet;

// A method's argument row and result row.
#[derive(Clone, Copy, Debug, PartialEq, Eq)]
pub struct MethodRows {
    pub argument: u16,
    pub result: u16,
}

// The row of slot v, where `filled` slots are filled.
fn slot_row(sheet: &Sheet<'_>, filled: usize, v: u16) -> u16
    requires { filled ≤ 64 }
    ensures { result ≡ get_or (slot_rows_in sheet.now filled) v 0 }
{
    table::instrs::slot_row(sheet.numbers(), filled, wide(v))
}

// What the first member of row a that answers says.
fn find_member<T: Drop, F: Fn(Member) -> Option<T>>(sheet: &Sheet<'_>, a: u16, find: F) -> Option<T>
    requires { F.IsAlwaysCallable find }
    ensures { FirstOf (λ m r. F.post find m r) (members_at (sheet_in sheet.now) a) result }
{
    let row = wide(a);
    for j in 0..sheet.members_at(row) {
        if let Some(found) = find(sheet.member(row, j)) {
            return Some(found);
        }
    }
    None
}

// A member as method `name`.
#[tactic(auto, unfolding(type_rules::specs::SlotRows::method_in), using(std::proofs::lemmas::Bool::Decides::nat_tests))]
fn method_of(m: Member, name: u16) -> Option<MethodRows>
    ensures { method_found result ≡ method_in (m ∷ []) name }
{
    match m {
        Member::Method {
            name: n,
            argument,
            result,
        } if n == name => Some(MethodRows { argument, result }),
        _ => None,
    }
}

// Method `name` of row a.
fn method_in(sheet: &Sheet<'_>, a: u16, name: u16) -> Option<MethodRows>
    ensures { method_found result ≡ method_in (members_at (sheet_in sheet.now) a) name }
{
    find_member(
        sheet,
        a,
        |m: Member| -> Option<MethodRows>
            ensures { method_found result ≡ method_in (m ∷ []) name }
        { method_of(m, name) },
    )
}

// A member as field `name`.
#[tactic(auto, unfolding(type_rules::specs::SlotRows::field_in), using(std::proofs::lemmas::Bool::Decides::nat_tests))]
fn field_of(m: Member, name: u16) -> Option<u16>
    ensures { row_found result ≡ field_in (m ∷ []) name }
{
    match m {
        Member::Field { name: n, row } if n == name => Some(row),
        _ => None,
    }
}

// The row of field `name` of row a.
fn field_in(sheet: &Sheet<'_>, a: u16, name: u16) -> Option<u16>
    ensures { row_found result ≡ field_in (members_at (sheet_in sheet.now) a) name }
{
    find_member(
        sheet,
        a,
        |m: Member| -> Option<u16>
            ensures { row_found result ≡ field_in (m ∷ []) name }
        { field_of(m, name) },
    )
}

// The row of the own object's field `name`; main has no own object.
fn own_field(sheet: &Sheet<'_>, own: Option<u16>, name: u16) -> Option<u16>
    ensures { row_found result ≡ own_field (sheet_in sheet.now) (row_found own) name }
{
    field_in(sheet, own?, name)
}

// What the fit table says of rows a and b. It has the yes; only a misfit costs a walk along the two rows.
#[tactic(auto, unfolding(fit_answer::specs::Told::answers))]
fn table_answer(sheet: &Sheet<'_>, a: usize, b: usize) -> FitAnswer
    ensures answer { result ≡ answers sheet.now a b }
    ensures whole { Whole sheet.now }
{
    if fit::fits_in(sheet.numbers(), a, b) {
        return FitAnswer::Yes;
    }
    fit_answer::answer(sheet, a, b)
}

// A value of row `given` goes where row `wanted` is declared: the row of the slot that is filled then, or the misfit.
pub fn judge_fit(sheet: &Sheet<'_>, given: u16, wanted: u16, row: u16) -> Result<u16, Reason>
    ensures { result ≡ fit_judged (answers sheet.now given wanted) row }
{
    let lack = match table_answer(sheet, wide(given), wide(wanted)) {
        FitAnswer::Yes => return Ok(row),
        FitAnswer::WrongKind => Lack::WrongKind,
        FitAnswer::Unmet { name } => Lack::Unmet { name: name as u8 },
    };
    Err(Reason::Misfit { lack })
}

// The `new` at place p of an object of a form: one slot for each kept value, and then each slot fits.
fn judge_new(sheet: &Sheet<'_>, filled: usize, p: usize, form: usize) -> Result<u16, Reason>
    requires { filled ≤ 64 }
    ensures { result ≡ new_judged sheet.now filled (new_slots sheet.now p) form }
{
    let count = sheet.new_slot_count(p);
    if count != sheet.keep_count(form) {
        return Err(Reason::Misfit { lack: Lack::Count });
    }
    let row = sheet.form_row(form);
    for k in 0..count {
        let given = slot_row(sheet, filled, sheet.new_slot(p, k));
        judge_fit(sheet, given, sheet.keep(form, k), row)?;
    }
    Ok(row)
}

// `call`: the object's row has the method, and the argument fits.
fn judge_call(
    sheet: &Sheet<'_>,
    filled: usize,
    object: u16,
    name: u16,
    argument: u16,
) -> Result<u16, Reason>
    requires { filled ≤ 64 }
    ensures { result ≡ call_judged (answers sheet.now) (method_in (members_at (sheet_in sheet.now) (get_or (slot_rows_in sheet.now filled) object 0)) name) (get_or (slot_rows_in sheet.now filled) argument 0) }
{
    let row = slot_row(sheet, filled, object);
    let method = method_in(sheet, row, name).ok_or(Reason::NoSuchMember)?;
    let given = slot_row(sheet, filled, argument);
    judge_fit(sheet, given, method.argument, method.result)
}

// `get`: the own object has the field.
fn judge_get(sheet: &Sheet<'_>, own: Option<u16>, name: u16) -> Result<u16, Reason>
    ensures { result ≡ get_judged (own_field (sheet_in sheet.now) (row_found own) name) }
{
    own_field(sheet, own, name).ok_or(Reason::NoSuchMember)
}

// `put`: the own object has the field, and the value, of a row, fits it.
fn judge_put(sheet: &Sheet<'_>, own: Option<u16>, name: u16, given: u16) -> Result<u16, Reason>
    ensures { result ≡ put_judged (answers sheet.now) (own_field (sheet_in sheet.now) (row_found own) name) given }
{
    let row = own_field(sheet, own, name).ok_or(Reason::NoSuchMember)?;
    judge_fit(sheet, given, row, row)
}

// The instruction at place p, in a body whose own object has a row, or in main, where `filled` slots are filled.
pub fn judge_instr(
    sheet: &Sheet<'_>,
    own: Option<u16>,
    filled: usize,
    p: usize,
) -> Result<u16, Reason>
    requires { filled ≤ 64 }
    ensures { result ≡ instr_judged sheet.now (row_found own) filled (instr_in sheet.now p) }
{
    match sheet.instr_at(p) {
        Instruction::New { form } => judge_new(sheet, filled, p, wide(form)),
        Instruction::Call {
            object,
            name,
            argument,
        } => judge_call(sheet, filled, object, name, argument),
        Instruction::Get { name } => judge_get(sheet, own, name),
        Instruction::Put { name, value } => judge_put(
            sheet,
            own,
            name,
            slot_row(sheet, filled, value),
        ),
        Instruction::Copy { slot } => Ok(slot_row(sheet, filled, slot)),
    }
}
