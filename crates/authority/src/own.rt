// What a resource object adds to its own authority: itself, its kept values that some body names, and its fields.
ghost use Rattle.std.specs.Prelude.{◌≡◌, ◌<◌, ◌≤◌, length};
ghost use Rattle.authority_rules.specs.Counted.{usable};
ghost use Rattle.authority_rules.specs.Authority.{own_values};
ghost use Rattle.machine_rules.specs.State.{object_at};
ghost use Rattle.table.specs.View.{sheet_in};
ghost use Rattle.machine_places.specs.Placed.{fields_after};
ghost use Rattle.machine_state.specs.Held.{objects_in, field_count};
ghost use Rattle.slot_notes.specs.Noted.{FormsNoted};
ghost use Rattle.authority_marks.specs.Marked.{Added};
ghost use Rattle.authority.specs.Laid.{Stored, OwnSmall};

use authority_marks::{mark, mark_all, mark_noted};
use machine_state::{field_at, form_of, kept_at};
use sheet_rules::Member;
use table::rows::wide;
use table::sheet::Sheet;

// The fields up to a member, where `fields` come before it.
fn fields_with(m: Member, fields: usize) -> usize
    requires { fields < 8 }
    ensures { result ≡ fields_after m fields }
{
    match m {
        Member::Method { .. } => fields,
        Member::Field { .. } => fields + 1,
    }
}

// How many fields an object of a form has.
fn field_count(sheet: &Sheet<'_>, form: usize) -> usize
    requires { form < length (sheet_in sheet.now).forms }
    ensures { (result ≡ field_count (sheet_in sheet.now) form) × (result ≤ 8) }
{
    let row = wide(sheet.form_row(form));
    let count = sheet.members_at(row);
    let mut fields: usize = 0;
    for j in 0..count {
        fields = fields_with(sheet.member(row, j), fields);
    }
    fields
}

// Marks what resource object h has of its own.
pub fn mark_own(work: &mut [u16], n: usize, h: usize)
    requires { Stored work.old n × (h < n) × OwnSmall work.old h × FormsNoted work.old }
    ensures { Added work.old (own_values usable (sheet_in work.old) h (object_at (objects_in (sheet_in work.old) work.old n) h)) work.new }
{
    let form = form_of(work, h);
    let kept = table::forms::keeps_of(work, form);
    let fields = field_count(&Sheet::of(work), form);
    mark(work, h);
    mark_noted(work, kept_at(h, 0), kept, slot_notes::form_notes(form) + 2);
    mark_all(work, field_at(h, 0), fields);
}
