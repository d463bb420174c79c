// The report: one reading, one verdict and one run answer what the run answers and what every holder holds.
ghost use Rattle.std.specs.Prelude.{◌≤◌, length};
ghost use Rattle.std.specs.declared.result.Result.TheVariants.{Ok};
ghost use Rattle.machine_rules.specs.Steps.{run};
ghost use Rattle.authority_rules.specs.Report.{report_of, report};
ghost use Rattle.table.specs.Layout.{work_size};
ghost use Rattle.table.specs.View.{sheet_in};
ghost use Rattle.accepted.specs.Accepted.{AcceptedIn};
ghost use Rattle.authority.specs.Every.{every_size};
ghost use Rattle.authority_question.specs.Asked.{ReportTold, ReportAsked};

use crate::run_noted;
use authority_rules::Reported;
use sheet_rules::{Reason, Refusal};
use verdict_question::judge_text;

// The report on the sheet that the buffer holds.
fn report_in(work: &mut [u16], budget: u32, res: &mut [u16]) -> Reported
    requires { AcceptedIn work.old × (every_size ≤ length res.old) }
    ensures { ReportTold (report_of (sheet_in work.old) (run (sheet_in work.old) budget)) work.old res.old work.new res.new (Ok result) }
{
    let halt = run_noted(work, budget);
    let answer = machine::answer(work, halt.outcome, halt.top, halt.tally);
    let count = authority::every::write_every(work, halt.top, halt.tally, res);
    Reported {
        answer,
        count: count as u32,
    }
}

// The run's answer, and every holder with what it holds, written one after another to the result buffer: the holder, how many,
// and which; with the count of all these numbers. Or a refusal from 1 to 10 with its line, and nothing written.
pub fn ask_report(
    text: &[u8],
    budget: u32,
    work: &mut [u16],
    res: &mut [u16],
) -> Result<Reported, Refusal>
    ensures { ReportAsked text.now budget work.old res.old work.new res.new result }
{
    let short = Err(Reason::BufferTooShort.at(0));
    question::ask_into(
        work,
        res,
        66306,
        short,
        |work: &mut [u16], res: &mut [u16]| -> Result<Reported, Refusal>
            requires { (work_size ≤ length work.now) × (every_size ≤ length res.now) }
            ensures { ReportTold (report text.entry.now budget) work.entry.now res.entry.now work.exit.now res.exit.now result }
        {
            judge_text(text, work).told()?;
            Ok(report_in(work, budget, res))
        },
    )
}
