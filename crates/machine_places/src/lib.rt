// The table by form and name, filled once before a run: where the body of each method stands, and the place of each field.
#![tactic(auto)]

ghost use Rattle.std.specs.Prelude.{◌≡◌, ◌≤◌, ◌<◌, length};
ghost use Rattle.type_rules.specs.SlotRows.{members_at};
ghost use Rattle.table.specs.Layout.{place_address, work_size};
ghost use Rattle.table.specs.View.{cell as cell_of, sheet_in};
ghost use Rattle.table.specs.Whole.{Whole};
ghost use Rattle.machine_places.specs.Located.{PlacesFilled};
ghost use Rattle.machine_places.specs.Placed.{fields_after, member_placed, members_placed};

use sheet_rules::Member;
use table::rows::{fit_address, fit_place, wide};

// Stores the number of a member of form f's row, where j members come before it, `fields` of them fields: a method's number is
// that of its part, a field's its place among the fields. Answers how many fields there are up to it.
fn place_member(work: &mut [u16], f: usize, m: Member, j: usize, fields: usize) -> usize
    requires { (j < 8) × (fields ≤ j) × (work_size ≤ length work.old) }
    ensures { (result ≡ fields_after m fields) × (work.new ≡ member_placed work.old f m j fields) }
{
    match m {
        Member::Method { name, .. } => {
            table::put(work, fit_address(f, wide(name)), j as u16);
            fields
        }
        Member::Field { name, .. } => {
            table::put(work, fit_address(f, wide(name)), fields as u16);
            fields + 1
        }
    }
}

// Stores the numbers of the members of form f's row.
fn locate_form(work: &mut [u16], f: usize, row: usize)
    requires { Whole work.old }
    ensures { work.new ≡ members_placed work.old f (members_at (sheet_in work.old) row) 0 0 }
{
    let count = table::rows::members_at(work, row);
    let mut fields: usize = 0;
    for j in 0..count {
        let m = table::rows::member(work, row, j);
        fields = place_member(work, f, m, j, fields);
    }
}

// Fills the table for every form of the sheet.
pub fn locate(work: &mut [u16])
    requires { Whole work.old }
    ensures { PlacesFilled work.old work.new }
{
    let count = table::forms::form_count(work);
    for f in 0..count {
        let row = wide(table::forms::form_row(work, f));
        locate_form(work, f, row);
    }
}

// The number of the member of name n in form f's row, as it was stored.
pub fn place(work: &[u16], f: usize, n: usize) -> usize
    requires { (f < 64) × (n < 64) × (work_size ≤ length work.now) }
    ensures { result ≡ cell_of work.now (place_address f n) }
{
    wide(work[fit_place(f, n)])
}
