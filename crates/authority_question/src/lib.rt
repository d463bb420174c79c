// The authority question, for a list of holders and for one: a text is judged, an accepted sheet is run within a budget, and what
// the holders have in the state that the run leaves is written to the result buffer.
#![tactic(auto)]

ghost use Rattle.std.specs.Prelude.{◌≡◌, ◌≤◌, min, length};
ghost use Rattle.machine_rules.specs.Steps.{run};
ghost use Rattle.authority_rules.specs.Group.{group_in, group_held};
ghost use Rattle.table.specs.Layout.{work_size};
ghost use Rattle.table.specs.View.{sheet_in};
ghost use Rattle.accepted.specs.Accepted.{AcceptedIn};
ghost use Rattle.authority_question.specs.Noted.{NotedRun};
ghost use Rattle.authority_question.specs.Asked.{HeldTold, GroupAsked, AuthorityAsked};

use authority::group::{is_group, write_group};
use machine::Halt;
use machine_state::narrow;
use sheet_rules::{Reason, Refusal};
use verdict_question::judge_text;

pub mod report;

// The run of the sheet that the buffer holds; the slots that each form's bodies name are noted after it.
fn run_noted(work: &mut [u16], budget: u32) -> Halt
    requires { AcceptedIn work.old }
    ensures { NotedRun work.old budget work.new result }
{
    let halt = machine::run_sheet(work, budget);
    slot_notes::note_forms(work);
    halt
}

// The reply for the sheet that the buffer holds: holders are looked for after the run.
fn held_in(work: &mut [u16], budget: u32, holders: &[u16], res: &mut [u16]) -> Result<u16, Refusal>
    requires { AcceptedIn work.old × (256 ≤ length res.old) }
    ensures { HeldTold (group_in (sheet_in work.old) (run (sheet_in work.old) budget).last holders.now) work.old res.old work.new res.new result }
{
    let halt = run_noted(work, budget);
    if !is_group(work, halt.tally.objects, holders) {
        return Err(Reason::NoHolder.at(0));
    }
    let count = write_group(work, halt.top, halt.tally, holders, res);
    Ok(narrow(count))
}

// What a list of holders holds together after the run of a text's sheet within a budget: written ascending to the result buffer,
// with its count; or a refusal from 1 to 11 with its line, and nothing written.
pub fn ask_group(
    text: &[u8],
    budget: u32,
    holders: &[u16],
    work: &mut [u16],
    res: &mut [u16],
) -> Result<u16, Refusal>
    ensures { GroupAsked text.now budget holders.now work.old res.old work.new res.new result }
{
    let short = Err(Reason::BufferTooShort.at(0));
    question::ask_into(
        work,
        res,
        256,
        short,
        |work: &mut [u16], res: &mut [u16]| -> Result<u16, Refusal>
            requires { (work_size ≤ length work.now) × (256 ≤ length res.now) }
            ensures { HeldTold (group_held text.entry.now budget holders.entry.now) work.entry.now res.entry.now work.exit.now res.exit.now result }
        {
            judge_text(text, work).told()?;
            held_in(work, budget, holders, res)
        },
    )
}

// A holder's number as it is listed: no number over 256 is a holder, so 257 stands for all of them.
fn listed(h: usize) -> u16
    ensures { result ≡ min h 257 }
{
    narrow(h.min(257))
}

// The authority of holder h: what a list of this one number is answered.
pub fn ask_authority(
    text: &[u8],
    budget: u32,
    h: usize,
    work: &mut [u16],
    res: &mut [u16],
) -> Result<u16, Refusal>
    ensures { AuthorityAsked text.now budget h work.old res.old work.new res.new result }
{
    let holders: [u16; 1] = [listed(h)];
    ask_group(text, budget, &holders, work, res)
}
