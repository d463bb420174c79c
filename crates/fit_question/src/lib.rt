// The fit question: whether row a of a sheet fits row b, what is lacking if not, and how many members of row a the walk passed.
#![tactic(auto)]

ghost use Rattle.std.specs.Prelude.{◌≡◌, ◌≤◌, length};
ghost use Rattle.type_rules.specs.FitQuestion.{fit_told, told_refused};
ghost use Rattle.table.specs.Layout.{work_size};
ghost use Rattle.table.specs.View.{sheet_in};
ghost use Rattle.table.specs.Whole.{Whole};
ghost use Rattle.question.specs.Asked.{ToldAlone};
ghost use Rattle.fit_question.specs.Asked.{told_in, FitAsked};

use sheet_rules::{Reason, Refusal};
use table::sheet::Sheet;
use type_rules::FitTold;

// A refusal, no member passed.
fn refused(refusal: Refusal) -> FitTold
    ensures { result ≡ told_refused refusal.reason refusal.line }
{
    FitTold {
        reply: Err(refusal),
        passed: 0,
    }
}

// Fit's answer on rows a and b, for the sheet that the table holds.
fn told_in(a: usize, b: usize, work: &mut [u16]) -> FitTold
    requires { Whole work.old }
    ensures { ToldAlone (told_in (sheet_in work.old) a b) work.old work.new result }
{
    let rows = table::rows::row_count(work);
    if rows <= a || rows <= b {
        return refused(Reason::NotDefined.at(0));
    }
    fit::fill(work, rows);
    let walk = fit_answer::walk(&Sheet::of(work), a, b);
    FitTold {
        reply: Ok(walk.answer),
        passed: walk.passed as u32,
    }
}

// Fit's answer on rows a and b of a text's sheet, yes or what is lacking, with how many members of row a the walk passed; or a refusal
// from 1 to 7 with its line.
pub fn ask_fit(text: &[u8], a: usize, b: usize, work: &mut [u16]) -> FitTold
    ensures { FitAsked text.now a b work.old work.new result }
{
    let short = refused(Reason::BufferTooShort.at(0));
    question::ask(
        work,
        short,
        |work: &mut [u16]| -> FitTold
            requires { work_size ≤ length work.now }
            ensures { ToldAlone (fit_told text.entry.now a b) work.entry.now work.exit.now result }
        {
            match reader::read_sheet(text, work).told() {
                Ok(()) => told_in(a, b, work),
                Err(refusal) => refused(refusal),
            }
        },
    )
}
