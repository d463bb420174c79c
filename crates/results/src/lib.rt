// The questions' replies in numbers, as a caller in C has them. Every result begins with the same four: a refusal's number and line,
// and what is lacking, with the name if it is a member.
#![tactic(auto)]

ghost use Rattle.std.specs.Prelude.{◌≡◌, cond};
ghost use Rattle.sheet_rules.specs.Answers.{answer_lack, is_yes, lack_name, lack_number, verdict_from};
ghost use Rattle.results.specs.Results.{fit_result, verdict_result, run_result, authority_result, counted_result, report_result, form_result, bound_result};

use authority_rules::Reported;
use machine_rules::RunAnswer;
use numbers::{lack_of, name_of, number_of, outcome_number};
use sheet_rules::{FitAnswer, FormLines, Refusal, Verdict};
use type_rules::FitTold;

pub mod numbers;

// The answer of the fit question: a refusal's numbers, or 0, 0, what is lacking, its name, whether row a fits row b, and how many
// members of row a the walk passed.
#[repr(C)]
#[derive(Clone, Copy, Debug, PartialEq, Eq)]
pub struct FitResult {
    pub refusal: u32,
    pub line: u32,
    pub lack: u32,
    pub name: u32,
    pub fits: u32,
    pub passed: u32,
}

// The verdict on a sheet: four times 0, or a refusal's numbers.
#[repr(C)]
#[derive(Clone, Copy, Debug, PartialEq, Eq)]
pub struct VerdictResult {
    pub refusal: u32,
    pub line: u32,
    pub lack: u32,
    pub name: u32,
}

// The run of a sheet: a refusal's numbers, or four times 0 and the run's outcome, steps, value and number of objects.
#[repr(C)]
#[derive(Clone, Copy, Debug, PartialEq, Eq)]
pub struct RunResult {
    pub refusal: u32,
    pub line: u32,
    pub lack: u32,
    pub name: u32,
    pub outcome: u32,
    pub steps: u32,
    pub value: u32,
    pub objects: u32,
}

// A holder's authority: a refusal's numbers, or four times 0 and how many numbers were written.
#[repr(C)]
#[derive(Clone, Copy, Debug, PartialEq, Eq)]
pub struct AuthorityResult {
    pub refusal: u32,
    pub line: u32,
    pub lack: u32,
    pub name: u32,
    pub count: u32,
}

// The report: a refusal's numbers, or four times 0 and the run's outcome, steps, value and number of objects, and how many numbers
// were written.
#[repr(C)]
#[derive(Clone, Copy, Debug, PartialEq, Eq)]
pub struct ReportResult {
    pub refusal: u32,
    pub line: u32,
    pub lack: u32,
    pub name: u32,
    pub outcome: u32,
    pub steps: u32,
    pub value: u32,
    pub objects: u32,
    pub count: u32,
}

// One form's lines: a refusal's numbers, or four times 0 and where the lines begin in the text and how many bytes they have.
#[repr(C)]
#[derive(Clone, Copy, Debug, PartialEq, Eq)]
pub struct FormResult {
    pub refusal: u32,
    pub line: u32,
    pub lack: u32,
    pub name: u32,
    pub start: usize,
    pub length: usize,
}

// The most steps that a run can need: a refusal's numbers, or four times 0 and the steps.
#[repr(C)]
#[derive(Clone, Copy, Debug, PartialEq, Eq)]
pub struct BoundResult {
    pub refusal: u32,
    pub line: u32,
    pub lack: u32,
    pub name: u32,
    pub steps: u32,
}

// A verdict in numbers.
pub fn verdict_result(given: Verdict) -> VerdictResult
    ensures { result ≡ verdict_result given }
{
    match given {
        Verdict::Accepted => VerdictResult {
            refusal: 0,
            line: 0,
            lack: 0,
            name: 0,
        },
        Verdict::Refused { reason, line } => VerdictResult {
            refusal: number_of(reason),
            line,
            lack: lack_of(reason),
            name: name_of(reason),
        },
    }
}

// The four numbers with which every result begins: of a refusal, or four times 0.
fn head<T: Drop>(reply: Result<T, Refusal>) -> VerdictResult
    ensures { result ≡ verdict_result (verdict_from reply) }
{
    verdict_result(reply.into())
}

// Fit's answer in numbers: whether it is yes, what is lacking, and its name.
fn answered(answer: FitAnswer) -> (u32, u32, u32)
    ensures { result ≡ (cond (is_yes answer) 1 0, lack_number (answer_lack answer), lack_name (answer_lack answer)) }
{
    match answer {
        FitAnswer::Yes => (1, 0, 0),
        FitAnswer::WrongKind => (0, 2, 0),
        FitAnswer::Unmet { name } => (0, 3, name as u32),
    }
}

// What the fit question tells, in numbers.
pub fn fit_result(told: FitTold) -> FitResult
    ensures { result ≡ fit_result told }
{
    let VerdictResult {
        refusal,
        line,
        lack,
        name,
    } = head(told.reply);
    let (fits, lack, name) = match told.reply {
        Ok(answer) => answered(answer),
        Err(_) => (0, lack, name),
    };
    FitResult {
        refusal,
        line,
        lack,
        name,
        fits,
        passed: told.passed,
    }
}

// The run question's reply in numbers.
pub fn run_result(reply: Result<RunAnswer, Refusal>) -> RunResult
    ensures { result ≡ run_result reply }
{
    let VerdictResult {
        refusal,
        line,
        lack,
        name,
    } = head(reply);
    let (outcome, steps, value, objects) = match reply {
        Ok(answer) => (
            outcome_number(answer.outcome),
            answer.steps,
            answer.value as u32,
            answer.objects as u32,
        ),
        Err(_) => (0, 0, 0, 0),
    };
    RunResult {
        refusal,
        line,
        lack,
        name,
        outcome,
        steps,
        value,
        objects,
    }
}

// The authority question's reply in numbers.
pub fn authority_result(reply: Result<u16, Refusal>) -> AuthorityResult
    ensures { result ≡ authority_result reply }
{
    let VerdictResult {
        refusal,
        line,
        lack,
        name,
    } = head(reply);
    let count = reply.unwrap_or(0) as u32;
    AuthorityResult {
        refusal,
        line,
        lack,
        name,
        count,
    }
}

// The report's reply in numbers.
pub fn report_result(reply: Result<Reported, Refusal>) -> ReportResult
    ensures { result ≡ report_result reply }
{
    match reply {
        Ok(Reported { answer, count }) => counted(run_result(Ok(answer)), count),
        Err(refusal) => counted(run_result(Err(refusal)), 0),
    }
}

// A run's numbers, and how many numbers were written.
fn counted(run: RunResult, count: u32) -> ReportResult
    ensures { result ≡ counted_result run count }
{
    let RunResult {
        refusal,
        line,
        lack,
        name,
        outcome,
        steps,
        value,
        objects,
    } = run;
    ReportResult {
        refusal,
        line,
        lack,
        name,
        outcome,
        steps,
        value,
        objects,
        count,
    }
}

// The reply of the question for one form's lines, in numbers.
pub fn form_result(reply: Result<FormLines, Refusal>) -> FormResult
    ensures { result ≡ form_result reply }
{
    let VerdictResult {
        refusal,
        line,
        lack,
        name,
    } = head(reply);
    let FormLines { start, length } = reply.unwrap_or(FormLines {
        start: 0,
        length: 0,
    });
    FormResult {
        refusal,
        line,
        lack,
        name,
        start,
        length,
    }
}

// The bound question's reply in numbers.
pub fn bound_result(reply: Result<u32, Refusal>) -> BoundResult
    ensures { result ≡ bound_result reply }
{
    let VerdictResult {
        refusal,
        line,
        lack,
        name,
    } = head(reply);
    let steps = reply.unwrap_or(0);
    BoundResult {
        refusal,
        line,
        lack,
        name,
        steps,
    }
}
