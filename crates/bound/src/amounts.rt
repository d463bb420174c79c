// The most steps that names and main can need, over the table. Amounts of names are cut off at 4,294,967,295: a call adds a step of its
// own, so that whoever calls a name that was cut off is over the limit, as it is by the name's own amount.
ghost use Rattle.std.specs.Prelude.{◌≡◌, ◌≤◌, ◌<◌, min, max, length, get_or};
ghost use Rattle.sheet_rules.specs.Sheet.{called_name};
ghost use Rattle.table.specs.Told.{part_told};
ghost use Rattle.table.specs.View.{instr_in, instrs_in, sheet_in};
ghost use Rattle.bound_rules.specs.Amount.{amount_at, called_amount, code_amount, body_amount, main_amount};
ghost use Rattle.bound_rules.specs.BoundQuestion.{amount_limit, counted};
ghost use Rattle.bound.specs.Told.{sum_limit, code_of, members_below, Passed, FormTold, NameTold, Zeros, Filled};
ghost use Rattle.form_typing.specs.Told.{PlaceSmall};

use table::forms::PartPlace;
use table::rows::wide;
use table::sheet::Sheet;

// The amount of a name; 0 for one beyond the list.
fn amount_of(amounts: &[u32; 64], name: usize) -> u32
    ensures { result ≡ amount_at amounts.now name }
{
    amounts.get(name).copied().unwrap_or(0)
}

// What the instruction at place p adds by its call.
fn called_amount(sheet: &Sheet<'_>, amounts: &[u32; 64], p: usize) -> u32
    ensures { result ≡ called_amount amounts.now (called_name (instr_in sheet.now p)) }
{
    crate::called_at(sheet, p).map_or(0, |name| amount_of(amounts, wide(name)))
}

// The amount of `count` instructions, from place `start` of the pool on.
fn code_amount(sheet: &Sheet<'_>, amounts: &[u32; 64], start: u16, count: usize) -> u64
    requires { count ≤ 32 }
    ensures { (result ≡ code_amount amounts.now (instrs_in sheet.now start count)) × (result ≤ sum_limit) }
{
    let mut amount: u64 = 0;
    for j in 0..count {
        let added = called_amount(sheet, amounts, wide(start) + j);
        amount += 1 + added as u64;
    }
    amount
}

// An amount, cut off at the limit.
fn cut(amount: u64) -> u32
    ensures { result ≡ min amount amount_limit }
{
    amount.min(u32::MAX as u64) as u32
}

// The amount of a body, with one for the return; 0 of an `init`.
fn part_amount(sheet: &Sheet<'_>, amounts: &[u32; 64], place: PartPlace) -> u32
    requires { PlaceSmall place }
    ensures { result ≡ min (body_amount amounts.now (code_of (part_told sheet.now place))) amount_limit }
{
    match place {
        PartPlace::Body { start, count } => {
            cut(code_amount(sheet, amounts, start, wide(count)) + 1)
        }
        PartPlace::Init { .. } => 0,
    }
}

// The amount of form f's body of a name, cut off at the limit; 0 if it has none. `next` has for each form the number of its members with
// lower names; names ascend, so only the member after these can have the name, and then it is passed.
fn form_amount(
    sheet: &Sheet<'_>,
    amounts: &[u32; 64],
    next: &mut [u16; 64],
    f: usize,
    name: usize,
) -> u32
    requires { (f < length (sheet_in sheet.now).forms) × (get_or next.old f 0 ≡ members_below (sheet_in sheet.now) f name) }
    ensures { FormTold (sheet_in sheet.now) amounts.now f name next.old next.new result }
{
    let row = wide(sheet.form_row(f));
    let count = sheet.members_at(row);
    let passed = next[f];
    let j = wide(passed);
    if count <= j || wide(sheet.member_name(row, j)) != name {
        return 0;
    }
    next[f] = passed + 1;
    part_amount(sheet, amounts, sheet.part(f, j))
}

// The amount of a name, by those of the others, cut off at the limit: the largest over its bodies. The members of the name are passed.
fn name_amount(sheet: &Sheet<'_>, amounts: &[u32; 64], next: &mut [u16; 64], name: usize) -> u32
    requires { Passed (sheet_in sheet.now) name next.old }
    ensures { NameTold (sheet_in sheet.now) amounts.now name next.new result }
{
    let mut largest: u32 = 0;
    for f in 0..sheet.form_count() {
        largest = largest.max(form_amount(sheet, amounts, next, f, name));
    }
    largest
}

// The amounts of all names, cut off at the limit, in ascending order: in a sheet of the stricter kind a body calls lower names alone.
fn fill_amounts(sheet: &Sheet<'_>, amounts: &mut [u32; 64], next: &mut [u16; 64])
    requires { Zeros amounts.old × Zeros next.old }
    ensures { Filled (sheet_in sheet.now) amounts.new next.new }
{
    for name in 0..64 {
        let amount = name_amount(sheet, amounts, next, name);
        amounts[name] = amount;
    }
}

// Main's amount, or a number over the limit where main's amount is over it.
pub fn main_amount(sheet: &Sheet<'_>) -> u64
    ensures { counted result ≡ counted (main_amount (sheet_in sheet.now)) }
{
    let mut amounts: [u32; 64] = [0; 64];
    let mut next: [u16; 64] = [0; 64];
    fill_amounts(sheet, &mut amounts, &mut next);
    let start = sheet.main_start();
    let count = sheet.main_count();
    code_amount(sheet, &amounts, start, count)
}
