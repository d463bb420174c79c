// The parts of forms, read into the table: a field's `init`, or a method's body with its instructions.
#![tactic(auto)]

ghost use Rattle.std.specs.Prelude.{◌≤◌, ◌<◌, ◌+◌, length};
ghost use Rattle.sheet_rules.specs.FormLines.{read_part};
ghost use Rattle.line_reader.specs.Told.{Room};
ghost use Rattle.table.specs.Layout.{work_size};
ghost use Rattle.part_reader.specs.Reads.{PartRead, field_part, method_part, body_rest};

use line_reader::Cursor;
use sheet_rules::{Member, Place, Refusal};
use table::rows::wide;

// Which part is read: part j of form f, which keeps `keeps` values, in a sheet of `forms` forms.
#[derive(Clone, Copy, Debug, PartialEq, Eq)]
pub struct PartAt {
    pub f: usize,
    pub j: usize,
    pub keeps: u16,
    pub forms: u16,
    pub ghost form: { f < 64 },
    pub ghost part: { j < 8 },
    pub ghost few: { keeps ≤ 8 },
}

// A part for a field: which of the form's kept values it starts as.
fn read_field(text: &[u8], work: &mut [u16], part: PartAt, from: Cursor) -> Result<Cursor, Refusal>
    requires { Room text.now from × (work_size ≤ length work.old) }
    ensures { PartRead text.now part.f part.j (field_part part.keeps) from work.old work.new result }
{
    let line = line_reader::take_line(text, from, Place::Init, part.keeps as u32)?;
    table::stores::put_part(work, part.f, part.j, 0, line.numbers.values[0], 0);
    Ok(line.next)
}

// Stores a body of `count` instructions as the part, and reads them into the pool.
fn keep_body(
    text: &[u8],
    work: &mut [u16],
    part: PartAt,
    count: u16,
    from: Cursor,
) -> Result<Cursor, Refusal>
    requires { Room text.now from × (1 ≤ count) × (from.used + count ≤ 1024) × (work_size ≤ length work.old) }
    ensures { PartRead text.now part.f part.j (body_rest part.forms part.keeps count) from work.old work.new result }
{
    table::stores::put_part(work, part.f, part.j, 1, from.used, count);
    instr_reader::read_instrs(text, work, wide(count), part.forms, part.keeps + 2, from)
}

// A part for a method: its body.
fn read_method(text: &[u8], work: &mut [u16], part: PartAt, from: Cursor) -> Result<Cursor, Refusal>
    requires { Room text.now from × (work_size ≤ length work.old) }
    ensures { PartRead text.now part.f part.j (method_part part.forms part.keeps from.used) from work.old work.new result }
{
    let head = line_reader::take_line(text, from, Place::Body, from.used as u32)?;
    keep_body(text, work, part, head.numbers.values[0], head.next)
}

// A part, for a member of its form's row.
pub fn read_part(
    text: &[u8],
    work: &mut [u16],
    part: PartAt,
    member: Member,
    from: Cursor,
) -> Result<Cursor, Refusal>
    requires { Room text.now from × (work_size ≤ length work.old) }
    ensures { PartRead text.now part.f part.j (read_part part.forms part.keeps from.used member) from work.old work.new result }
{
    match member {
        Member::Method { .. } => read_method(text, work, part, from),
        Member::Field { .. } => read_field(text, work, part, from),
    }
}
