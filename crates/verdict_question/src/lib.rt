// The typing verdict on a text: its sheet is read, the fit table is filled, and its forms and main are judged.
#![tactic(auto)]

ghost use Rattle.std.specs.Prelude.{◌≤◌, length};
ghost use Rattle.table.specs.Layout.{work_size};
ghost use Rattle.type_rules.specs.Typing.{verdict};
ghost use Rattle.question.specs.Asked.{ToldAlone};
ghost use Rattle.verdict_question.specs.Asked.{TextJudged, VerdictAsked};

use sheet_rules::{Reason, Verdict};

// The verdict on a text, in a work buffer that is long enough. Where it accepts, the table holds the sheet.
pub fn judge_text(text: &[u8], work: &mut [u16]) -> Verdict
    requires { work_size ≤ length work.old }
    ensures { TextJudged text.now work.old work.new result }
{
    let read = reader::read_sheet(text, work);
    let Verdict::Accepted = read else {
        return read;
    };
    let rows = table::rows::row_count(work);
    fit::fill(work, rows);
    typing::judge_sheet(work)
}

// The verdict on a text: accepted, or a refusal from 1 to 10 with its line.
pub fn ask_verdict(text: &[u8], work: &mut [u16]) -> Verdict
    ensures { VerdictAsked text.now work.old work.new result }
{
    let short = Verdict::Refused {
        reason: Reason::BufferTooShort,
        line: 0,
    };
    question::ask(
        work,
        short,
        |work: &mut [u16]| -> Verdict
            requires { work_size ≤ length work.now }
            ensures { ToldAlone (verdict text.entry.now) work.entry.now work.exit.now result }
        { judge_text(text, work) },
    )
}
