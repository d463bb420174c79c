// The run question: a text is judged, and if its sheet is accepted, it is run within a budget. The bound question: if it is also sure to
// finish, the most steps that a run can need.
#![tactic(auto)]

ghost use Rattle.std.specs.Prelude.{◌≤◌, length};
ghost use Rattle.bound_rules.specs.BoundQuestion.{bound_reply};
ghost use Rattle.machine_rules.specs.Steps.{run_reply};
ghost use Rattle.table.specs.Layout.{work_size};
ghost use Rattle.question.specs.Asked.{ToldAlone};
ghost use Rattle.run_question.specs.Asked.{RunAsked, BoundAsked};

use machine_rules::RunAnswer;
use sheet_rules::{Reason, Refusal};
use table::sheet::Sheet;
use verdict_question::judge_text;

// The run of a text's sheet within a budget: its answer, or a refusal from 1 to 10 with its line.
pub fn ask_run(text: &[u8], budget: u32, work: &mut [u16]) -> Result<RunAnswer, Refusal>
    ensures { RunAsked text.now budget work.old work.new result }
{
    let short = Err(Reason::BufferTooShort.at(0));
    question::ask(
        work,
        short,
        |work: &mut [u16]| -> Result<RunAnswer, Refusal>
            requires { work_size ≤ length work.now }
            ensures { ToldAlone (run_reply text.entry.now budget) work.entry.now work.exit.now result }
        {
            judge_text(text, work).told()?;
            Ok(machine::answer_sheet(work, budget))
        },
    )
}

// The most steps that a run of a text's sheet can need, or a refusal, 1 to 10, 12 or 13, with its line.
pub fn ask_bound(text: &[u8], work: &mut [u16]) -> Result<u32, Refusal>
    ensures { BoundAsked text.now work.old work.new result }
{
    let short = Err(Reason::BufferTooShort.at(0));
    question::ask(
        work,
        short,
        |work: &mut [u16]| -> Result<u32, Refusal>
            requires { work_size ≤ length work.now }
            ensures { ToldAlone (bound_reply text.entry.now) work.entry.now work.exit.now result }
        {
            judge_text(text, work).told()?;
            bound::bound_sheet(&Sheet::of(work))
        },
    )
}
