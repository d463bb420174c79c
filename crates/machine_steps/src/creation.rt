// An object made in the work buffer, by `new`: its form, its kept values from slots, and its fields from the kept values.
ghost use Rattle.std.specs.Prelude.{◌≡◌, ◌<◌, ◌+◌};
ghost use Rattle.sheet_rules.specs.Sheet.{new};
ghost use Rattle.machine_rules.specs.Steps.{created};
ghost use Rattle.table.specs.Layout.{part_count_address};
ghost use Rattle.table.specs.View.{cell as cell_of, part_in, parts_in};
ghost use Rattle.table.specs.Told.{new_slots};
ghost use Rattle.machine_steps.specs.Running.{Facing, Took};
ghost use Rattle.machine_steps.specs.Created.{Keepable, KeptFrom, PartStarts, FormStarts, start_put, start_count, fields_started};

use crate::{KEEP_LIMIT, MEMBER_LIMIT, fill_slot, frame_of};
use machine_rules::Tally;
use machine_state::{Top, kept, narrow, put_field, put_form, put_kept, slot};
use table::forms::{PartPlace, keeps_of, part, part_count};
use table::instrs::slot_named;
use table::rows::wide;

// Keeps in object o the value of each slot of frame f that the `new` at place p names, `count` of them.
fn keep_values(work: &mut [u16], f: usize, p: usize, o: usize, count: usize)
    requires { Keepable work.old f p o count }
    ensures { KeptFrom work.old f p o work.new }
{
    for k in 0..KEEP_LIMIT {
        if count <= k {
            return;
        }
        let value = slot(work, f, wide(slot_named(work, p, k)));
        put_kept(work, o, k, value);
    }
}

// Does part j of object o's form, where `fields` fields come before it: an `init` puts its kept value into the next field.
// Answers how many fields there are up to it.
fn start_field(work: &mut [u16], form: usize, o: usize, j: usize, fields: usize) -> usize
    requires { PartStarts work.old form o j fields }
    ensures { (result ≡ start_count (part_in work.old form j) fields) × (work.new ≡ start_put work.old o (part_in work.old form j) fields) }
{
    match part(work, form, j) {
        PartPlace::Init { kept: k } => {
            let value = kept(work, o, wide(k));
            put_field(work, o, fields, value);
            fields + 1
        }
        PartPlace::Body { .. } => fields,
    }
}

// Starts the fields of object o.
fn start_fields(work: &mut [u16], form: usize, o: usize)
    requires { FormStarts work.old form o }
    ensures { work.new ≡ fields_started work.old o (parts_in work.old form (cell_of work.old (part_count_address form))) 0 }
{
    let count = part_count(work, form);
    let mut fields: usize = 0;
    for j in 0..MEMBER_LIMIT {
        if count <= j {
            return;
        }
        fields = start_field(work, form, o, j, fields);
    }
}

// `new`: an object of a form, with a slot for each kept value.
pub fn new_step(work: &mut [u16], top: Top, tally: Tally, form: u16) -> Top
    requires { Facing work.old top tally (new form (new_slots work.old top.next)) × (tally.objects < 256) }
    ensures { Took work.old top tally work.new result (created tally) }
{
    let o = tally.objects;
    let f = frame_of(tally);
    let count = keeps_of(work, wide(form));
    put_form(work, o, form);
    keep_values(work, f, top.next, o, count);
    start_fields(work, wide(form), o);
    fill_slot(work, f, top, narrow(o))
}
