// Lines of one number each, of something that is there, read into the table: the rows that a form keeps, and the devices.
#![tactic(auto)]

ghost use Rattle.std.specs.Prelude.{◌<◌, ◌≤◌, ◌+◌, length};
ghost use Rattle.number_reader.specs.Reads.{Existing, NumberRead, NumbersRead, KeepsRead, DevicesRead};
ghost use Rattle.line_reader.specs.Told.{Room};
ghost use Rattle.table.specs.Layout.{work_size};

use line_reader::Cursor;
use sheet_rules::{Place, Refusal};
use table::rows::wide;

// A list of such lines: their place, how many of the things there are, where in the buffer the first number goes, and how many lines.
#[derive(Clone, Copy, Debug, PartialEq, Eq)]
pub struct Listed {
    pub wanted: Place,
    pub bound: u16,
    pub at: usize,
    pub count: usize,
}

// One number, stored j places after the first.
fn read_number(
    text: &[u8],
    work: &mut [u16],
    list: Listed,
    j: usize,
    from: Cursor,
) -> Result<Cursor, Refusal>
    requires { Room text.now from × Existing list.wanted × (list.at + j < length work.old) }
    ensures { NumberRead text.now list j from work.old work.new result }
{
    let line = line_reader::take_line(text, from, list.wanted, list.bound as u32)?;
    table::put(work, list.at + j, line.numbers.values[0]);
    Ok(line.next)
}

// The numbers of a list.
fn read_numbers(
    text: &[u8],
    work: &mut [u16],
    list: Listed,
    from: Cursor,
) -> Result<Cursor, Refusal>
    requires { Room text.now from × Existing list.wanted × (list.at + list.count ≤ length work.old) }
    ensures { NumbersRead text.now list from work.old work.new result }
{
    let mut here = from;
    for j in 0..list.count {
        here = read_number(text, work, list, j, here)?;
    }
    Ok(here)
}

// The kept rows of form f, as many as its `form` line says, in a sheet of `rows` rows.
pub fn read_keeps(
    text: &[u8],
    work: &mut [u16],
    f: usize,
    count: usize,
    rows: u16,
    from: Cursor,
) -> Result<Cursor, Refusal>
    requires { Room text.now from × (f < 64) × (count ≤ 8) × (work_size ≤ length work.old) }
    ensures { KeepsRead text.now f count rows from work.old work.new result }
{
    let list = Listed {
        wanted: Place::Keep,
        bound: rows,
        at: table::forms::keep_address(f),
        count,
    };
    read_numbers(text, work, list, from)
}

// The devices, from the `devices` line on, in a sheet of `forms` forms.
pub fn read_devices(
    text: &[u8],
    work: &mut [u16],
    forms: u16,
    from: Cursor,
) -> Result<Cursor, Refusal>
    requires { Room text.now from × (work_size ≤ length work.old) }
    ensures { DevicesRead text.now forms from work.old work.new result }
{
    let head = line_reader::take_line(text, from, Place::Devices, 0)?;
    let count = head.numbers.values[0];
    table::devices::put_device_count(work, count);
    let list = Listed {
        wanted: Place::Device,
        bound: forms,
        at: table::devices::device_address(),
        count: wide(count),
    };
    read_numbers(text, work, list, head.next)
}
