// The lines that come before the holders', and the whole report.
ghost use Rattle.std.specs.Prelude.{◌+◌, ◌≤◌, length};
ghost use Rattle.table.specs.Layout.{work_size};
ghost use Rattle.authority.specs.Every.{every_size};
ghost use Rattle.authority_rules.specs.Printed.{verdict_lines, run_lines};
ghost use Rattle.line_writer.specs.Put.{Put};
ghost use Rattle.printer.specs.Printed.{print_size, ReportPrinted};

use crate::put_holder;
use authority_question::report::ask_report;
use line_writer::put_line;
use machine_rules::RunAnswer;
use results::numbers::{number_of, outcome_number};
use table::rows::wide;

// Puts the refusal's number and its line, 0 and 0 of an accepted sheet; answers the place after them.
fn put_verdict(out: &mut [u8], refusal: u32, line: u32) -> usize
    requires { 35 ≤ length out.old }
    ensures { Put 35 0 (verdict_lines refusal line) out.old out.new result }
{
    let a = put_line(out, 0, b"verdict=", refusal);
    put_line(out, a, b"line=", line)
}

// Puts the run's outcome, steps and value; answers the place after them.
fn put_run(out: &mut [u8], at: usize, answer: RunAnswer) -> usize
    requires { at + 53 ≤ length out.old }
    ensures { Put 53 at (run_lines answer) out.old out.new result }
{
    let a = put_line(out, at, b"outcome=", outcome_number(answer.outcome));
    let b = put_line(out, a, b"steps=", answer.steps);
    put_line(out, b, b"value=", answer.value as u32)
}

// Prints the report on a text into the buffer; answers how many bytes it takes.
pub fn print_report(
    text: &[u8],
    budget: u32,
    work: &mut [u16],
    numbers: &mut [u16],
    out: &mut [u8],
) -> usize
    requires { (work_size ≤ length work.old) × (every_size ≤ length numbers.old) × (print_size ≤ length out.old) }
    ensures { ReportPrinted text.now budget work.old numbers.old out.old work.new numbers.new out.new result }
{
    let reply = ask_report(text, budget, work, numbers);
    match reply {
        Ok(reported) => {
            let head = put_verdict(out, 0, 0);
            let mut at = put_run(out, head, reported.answer);
            let end = reported.count as usize;
            let mut from: usize = 0;
            // An entry is as long as it says, so the next place comes from the entry itself.
            while from < end {
                at = put_holder(out, at, numbers, from);
                from += 2 + wide(numbers[from + 1]);
            }
            at
        }
        Err(refusal) => put_verdict(out, number_of(refusal.reason), refusal.line),
    }
}
