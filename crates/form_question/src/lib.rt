// One form's lines: where they stand in the text, and the lines themselves as a part of the text.
#![tactic(auto)]

ghost use Rattle.std.specs.Prelude.{◌≡◌, ◌≤◌, length};
ghost use Rattle.sheet_rules.specs.Stretch.{form_in, form_reply};
ghost use Rattle.table.specs.Layout.{work_size};
ghost use Rattle.table.specs.View.{sheet_in};
ghost use Rattle.question.specs.Asked.{ToldAlone};
ghost use Rattle.form_question.specs.Asked.{PlaceAsked, FormAsked};

use form_scan::find_border;
use sheet_rules::{FormLines, Reason, Refusal};
use table::sheet::Sheet;

// Where a form's lines stand in a text, for the sheet of that text, which the table holds.
fn place_in(text: &[u8], form: usize, sheet: &Sheet<'_>) -> Result<FormLines, Refusal>
    ensures { result ≡ form_in text.now (sheet_in sheet.now) form }
{
    if sheet.form_count() <= form {
        return Err(Reason::NotDefined.at(0));
    }
    let start = find_border(text, 0, form);
    // From there on the form's own border is number 0, and the next one number 1.
    let end = find_border(text, start, 1);
    Ok(FormLines {
        start,
        length: end - start,
    })
}

// Where a form's lines stand in a text, from its `form` line to the last one before the next form or `main`; or a refusal from 1 to 7
// with its line. The sheet only has to be readable.
pub fn ask_place(text: &[u8], form: usize, work: &mut [u16]) -> Result<FormLines, Refusal>
    ensures { PlaceAsked text.now form work.old work.new result }
{
    let short = Err(Reason::BufferTooShort.at(0));
    question::ask(
        work,
        short,
        |work: &mut [u16]| -> Result<FormLines, Refusal>
            requires { work_size ≤ length work.now }
            ensures { ToldAlone (form_reply text.entry.now form) work.entry.now work.exit.now result }
        {
            reader::read_sheet(text, work).told()?;
            place_in(text, form, &Sheet::of(work))
        },
    )
}

// A form's lines as that part of the text itself, with 0 and 0 in the two numbers; after a refusal an empty part, at the text's
// start, with the refusal's number and line in them.
pub fn ask_form<'a>(
    text: &'a [u8],
    form: usize,
    work: &mut [u16],
    refusal: &mut u32,
    line: &mut u32,
) -> &'a [u8]
    ensures { FormAsked text.entry form work.old work.new refusal.new line.new result }
{
    let told = results::form_result(ask_place(text, form, work));
    *refusal = told.refusal;
    *line = told.line;
    let start = told.start;
    let end = start + told.length;
    &text[start..end]
}
