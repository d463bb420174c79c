// The forms of a sheet, read into the table.
#![tactic(auto)]

ghost use Rattle.std.specs.Prelude.{◌≡◌, ◌≤◌, ◌<◌, ◌+◌};
ghost use Rattle.sheet_rules.specs.Reader.{nth};
ghost use Rattle.line_reader.specs.Told.{Room};
ghost use Rattle.table.specs.Ready.{Ready};
ghost use Rattle.table.specs.View.{row_in, rows_in};
ghost use Rattle.form_reader.specs.Reads.{PartsReady, part_item, PartsRead, form_rest, form_reader, FormRead, FormsRead};

use line_reader::{Cursor, TakenLine};
use part_reader::PartAt;
use sheet_rules::{Place, Refusal};
use table::rows::wide;

// Which form is read: form f, in a sheet of `rows` rows and `forms` forms.
#[derive(Clone, Copy, Debug, PartialEq, Eq)]
pub struct FormAt {
    pub f: usize,
    pub rows: u16,
    pub forms: u16,
    pub ghost form: { f < 64 },
}

// The parts of a form, one for each of the `count` members of its row; the form keeps `keeps` values.
fn read_parts(
    text: &[u8],
    work: &mut [u16],
    form: FormAt,
    row: usize,
    count: usize,
    keeps: u16,
    from: Cursor,
) -> Result<Cursor, Refusal>
    requires { Room text.now from × PartsReady work.old form.f row count keeps }
    ensures { PartsRead text.now form.f count (part_item (row_in work.old row).members form.forms keeps from.used) from work.old work.new result }
{
    let mut here = from;
    for j in 0..count {
        let m = table::rows::member(work, row, j);
        let part = PartAt {
            f: form.f,
            j,
            keeps,
            forms: form.forms,
        };
        here = part_reader::read_part(text, work, part, m, here)?;
    }
    Ok(here)
}

// Stores the heading of a form, and reads its kept rows and its parts.
fn keep_form(
    text: &[u8],
    work: &mut [u16],
    form: FormAt,
    head: TakenLine,
) -> Result<Cursor, Refusal>
    requires { Room text.now head.next × ((nth head.numbers.values 0) < form.rows) × (nth head.numbers.values 1 ≤ 8) × Ready form.rows work.old }
    ensures { FormRead text.now form.f (form_rest (rows_in work.old form.rows) form.forms head.next.used (record { row = nth head.numbers.values 0; count = nth head.numbers.values 1 })) head.next work.old work.new result }
{
    let [row, keeps, ..] = head.numbers.values;
    let parts = table::rows::member_count(work, wide(row));
    table::stores::put_heading(work, form.f, row, keeps, parts as u16);
    let here = number_reader::read_keeps(text, work, form.f, wide(keeps), form.rows, head.next)?;
    read_parts(text, work, form, wide(row), parts, keeps, here)
}

// A form.
fn read_form(text: &[u8], work: &mut [u16], form: FormAt, from: Cursor) -> Result<Cursor, Refusal>
    requires { Room text.now from × Ready form.rows work.old }
    ensures { FormRead text.now form.f (form_reader (rows_in work.old form.rows) form.forms from.used) from work.old work.new result }
{
    let head = line_reader::take_line(text, from, Place::Form, form.rows as u32)?;
    keep_form(text, work, form, head)
}

// The forms of a sheet of `rows` rows, as many as its `forms` line says.
pub fn read_forms(
    text: &[u8],
    work: &mut [u16],
    rows: u16,
    forms: u16,
    from: Cursor,
) -> Result<Cursor, Refusal>
    requires { Room text.now from × (from.used ≡ 0) × (forms ≤ 64) × Ready rows work.old }
    ensures { FormsRead text.now rows forms from work.old work.new result }
{
    let mut here = from;
    for f in 0..wide(forms) {
        here = read_form(text, work, FormAt { f, rows, forms }, here)?;
    }
    Ok(here)
}
