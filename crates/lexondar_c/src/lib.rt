// The library that a terminal links: lexondar's questions, exported for C.
#![tactic(auto)]

ghost use Rattle.sheet_rules.specs.declared.Reason.TheVariants.{BufferTooShort};
ghost use Rattle.sheet_rules.specs.declared.Verdict.{Verdict as VerdictGiven};
ghost use Rattle.sheet_rules.specs.Answers.{turned_away};
ghost use Rattle.sheet_rules.specs.Stretch.{form_reply};
ghost use Rattle.type_rules.specs.FitQuestion.{fit_told, told_refused};
ghost use Rattle.type_rules.specs.Typing.{verdict};
ghost use Rattle.bound_rules.specs.BoundQuestion.{bound_reply};
ghost use Rattle.machine_rules.specs.Steps.{run_reply};
ghost use Rattle.authority_rules.specs.AuthorityQuestion.{authority_held};
ghost use Rattle.authority_rules.specs.Group.{group_held};
ghost use Rattle.authority_rules.specs.Report.{report};
ghost use Rattle.question.specs.Asked.{Asked, AskedAlone};
ghost use Rattle.authority.specs.Every.{every_size};
ghost use Rattle.authority_question.specs.Asked.{held_reply, held_numbers, report_reply, report_numbers};
ghost use Rattle.results.specs.Results.{fit_result, verdict_result, run_result, authority_result, report_result, form_result, bound_result};

use results::{
    AuthorityResult, BoundResult, FitResult, FormResult, ReportResult, RunResult, VerdictResult,
};

// Whether row a of a text's sheet fits row b, what is lacking if not, and how many members of row a the walk passed.
#[unsafe(no_mangle)]
pub extern "C" fn lexondar_fit(text: &[u8], a: usize, b: usize, work: &mut [u16]) -> FitResult
    ensures { AskedAlone (fit_result (fit_told text.now a b)) (fit_result (told_refused BufferTooShort 0)) work.old work.new result }
{
    lexondar::lexondar_fit(text, a, b, work)
}

// The verdict on a text's sheet.
#[unsafe(no_mangle)]
pub extern "C" fn lexondar_verdict(text: &[u8], work: &mut [u16]) -> VerdictResult
    ensures { AskedAlone (verdict_result (verdict text.now)) (verdict_result (VerdictGiven.Refused BufferTooShort 0)) work.old work.new result }
{
    lexondar::lexondar_verdict(text, work)
}

// The run of a text's sheet within a budget.
#[unsafe(no_mangle)]
pub extern "C" fn lexondar_run(text: &[u8], budget: u32, work: &mut [u16]) -> RunResult
    ensures { AskedAlone (run_result (run_reply text.now budget)) (run_result (turned_away BufferTooShort 0)) work.old work.new result }
{
    lexondar::lexondar_run(text, budget, work)
}

// The authority of a holder after the run of a text's sheet within a budget.
#[unsafe(no_mangle)]
pub extern "C" fn lexondar_authority(
    text: &[u8],
    budget: u32,
    h: usize,
    work: &mut [u16],
    res: &mut [u16],
) -> AuthorityResult
    ensures { Asked 256 (authority_result (held_reply (authority_held text.now budget h))) (authority_result (turned_away BufferTooShort 0)) (held_numbers (authority_held text.now budget h)) work.old res.old work.new res.new result }
{
    lexondar::lexondar_authority(text, budget, h, work, res)
}

// What a list of holders holds together after the run of a text's sheet within a budget.
#[unsafe(no_mangle)]
pub extern "C" fn lexondar_group(
    text: &[u8],
    budget: u32,
    holders: &[u16],
    work: &mut [u16],
    res: &mut [u16],
) -> AuthorityResult
    ensures { Asked 256 (authority_result (held_reply (group_held text.now budget holders.now))) (authority_result (turned_away BufferTooShort 0)) (held_numbers (group_held text.now budget holders.now)) work.old res.old work.new res.new result }
{
    lexondar::lexondar_group(text, budget, holders, work, res)
}

// The run of a text's sheet within a budget, and every holder's authority after it.
#[unsafe(no_mangle)]
pub extern "C" fn lexondar_report(
    text: &[u8],
    budget: u32,
    work: &mut [u16],
    res: &mut [u16],
) -> ReportResult
    ensures { Asked every_size (report_result (report_reply (report text.now budget))) (report_result (turned_away BufferTooShort 0)) (report_numbers (report text.now budget)) work.old res.old work.new res.new result }
{
    lexondar::lexondar_report(text, budget, work, res)
}

// Where the lines of a form of a text's sheet stand in the text.
#[unsafe(no_mangle)]
pub extern "C" fn lexondar_form(text: &[u8], form: usize, work: &mut [u16]) -> FormResult
    ensures { AskedAlone (form_result (form_reply text.now form)) (form_result (turned_away BufferTooShort 0)) work.old work.new result }
{
    lexondar::lexondar_form(text, form, work)
}

// The most steps that a run of a text's sheet can need, if it is sure to finish.
#[unsafe(no_mangle)]
pub extern "C" fn lexondar_bound(text: &[u8], work: &mut [u16]) -> BoundResult
    ensures { AskedAlone (bound_result (bound_reply text.now)) (bound_result (turned_away BufferTooShort 0)) work.old work.new result }
{
    lexondar::lexondar_bound(text, work)
}
