// A sheet's text, read into the table of the work buffer. What the table then holds is `sheet_in` of the buffer (table, View);
// the crates above see that and the table's accessors, and never the bytes.
#![tactic(auto)]

ghost use Rattle.std.specs.Prelude.{◌≡◌, ◌≤◌, ◌<◌, length};
ghost use Rattle.sheet_rules.specs.Answers.{verdict_from};
ghost use Rattle.sheet_rules.specs.Reading.{read_sheet};
ghost use Rattle.line_reader.specs.Told.{Room};
ghost use Rattle.table.specs.Layout.{device_count_at, work_size};
ghost use Rattle.table.specs.Ready.{Ready};
ghost use Rattle.table.specs.View.{cell, rows_in, forms_in, devices_in};
ghost use Rattle.form_reader.specs.Reads.{FormsUsed};
ghost use Rattle.reader.specs.Reads.{text_start, main_rest, devices_rest, rows_rest, RestRead, SheetRead};

use line_reader::Cursor;
use sheet_rules::{Place, Reason, Refusal, Verdict};
use table::layout::WORK_SIZE;
use table::rows::wide;

// The bytes of a text at the most.
const TEXT_LIMIT: usize = 65535;

// Main, to the text's end, in a sheet of `rows` rows and of `forms` forms, after its devices.
fn read_main(
    text: &[u8],
    work: &mut [u16],
    rows: u16,
    forms: u16,
    from: Cursor,
) -> Result<(), Refusal>
    requires { Room text.now from × (forms ≤ 64) × Ready rows work.old × FormsUsed work.old forms from.used × (cell work.old device_count_at ≤ 8) }
    ensures { RestRead text.now (main_rest (rows_in work.old rows) forms (forms_in work.old forms) (devices_in work.old (cell work.old device_count_at))) from work.old work.new (verdict_from result) }
{
    let head = line_reader::take_line(text, from, Place::Main, from.used as u32)?;
    let count = head.numbers.values[0];
    let filled = table::devices::device_count(work);
    table::stores::put_counts(work, rows, forms, head.next.used, count);
    let end = instr_reader::read_instrs(text, work, wide(count), forms, filled, head.next)?;
    if end.at < text.len() {
        return Err(Refusal {
            reason: Reason::Malformed,
            line: end.line,
        });
    }
    Ok(())
}

// Devices and main, in a sheet of `rows` rows and of `forms` forms. Where the next line is no `devices` line, there are none.
fn read_after_forms(
    text: &[u8],
    work: &mut [u16],
    rows: u16,
    forms: u16,
    from: Cursor,
) -> Result<(), Refusal>
    requires { Room text.now from × (forms ≤ 64) × Ready rows work.old × FormsUsed work.old forms from.used }
    ensures { RestRead text.now (devices_rest (rows_in work.old rows) forms (forms_in work.old forms)) from work.old work.new (verdict_from result) }
{
    if !line_reader::is_next(text, from, Place::Devices) {
        table::devices::put_device_count(work, 0);
        return read_main(text, work, rows, forms, from);
    }
    let here = number_reader::read_devices(text, work, forms, from)?;
    read_main(text, work, rows, forms, here)
}

// Forms, devices and main, from the `forms` line on, in a sheet of `rows` rows.
fn read_after_rows(text: &[u8], work: &mut [u16], rows: u16, from: Cursor) -> Result<(), Refusal>
    requires { Room text.now from × (from.used ≡ 0) × Ready rows work.old }
    ensures { RestRead text.now (rows_rest (rows_in work.old rows)) from work.old work.new (verdict_from result) }
{
    let head = line_reader::take_line(text, from, Place::Forms, 0)?;
    let forms = head.numbers.values[0];
    let here = form_reader::read_forms(text, work, rows, forms, head.next)?;
    read_after_forms(text, work, rows, forms, here)
}

// A whole sheet, from its `types` line on.
fn read_from_types(text: &[u8], work: &mut [u16]) -> Result<(), Refusal>
    requires { (length text.now ≤ 65535) × (work_size ≤ length work.old) }
    ensures { RestRead text.now read_sheet text_start work.old work.new (verdict_from result) }
{
    let from = Cursor {
        at: 0,
        line: 1,
        used: 0,
    };
    let head = line_reader::take_line(text, from, Place::Types, 0)?;
    let rows = head.numbers.values[0];
    let here = row_reader::read_rows(text, work, wide(rows), head.next)?;
    read_after_rows(text, work, rows, here)
}

// Reads a sheet into the table: accepted so far, or refused with a reason from 1 to 7.
pub fn read_sheet(text: &[u8], work: &mut [u16]) -> Verdict
    ensures { SheetRead text.now work.old work.new result }
{
    if work.len() < WORK_SIZE {
        return Verdict::Refused {
            reason: Reason::BufferTooShort,
            line: 0,
        };
    }
    if text.len() > TEXT_LIMIT {
        return Verdict::Refused {
            reason: Reason::TextTooLong,
            line: 0,
        };
    }
    read_from_types(text, work).into()
}
