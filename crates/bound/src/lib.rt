// Sheets that are sure to finish, over the table: circular calls are looked for line by line, and the most steps that main can need are
// worked out name by name.
#![tactic(auto)]

ghost use Rattle.std.specs.Prelude.{◌≡◌, ◌≤◌, length};
ghost use Rattle.sheet_rules.specs.Sheet.{called_name};
ghost use Rattle.table.specs.View.{instr_in, sheet_in};
ghost use Rattle.bound_rules.specs.BoundQuestion.{counted as counted_in, bound_in};
ghost use Rattle.bound.specs.Told.{called_told};

use sheet_rules::{Reason, Refusal};
use table::instrs::Instruction;
use table::sheet::Sheet;

pub mod amounts;
pub mod calls;

// What the instruction at place p of the pool calls.
fn called_at(sheet: &Sheet<'_>, p: usize) -> Option<u16>
    ensures { called_told result ≡ called_name (instr_in sheet.now p) }
{
    match sheet.instr_at(p) {
        Instruction::Call { name, .. } => Some(name),
        _ => None,
    }
}

// An amount within the limit is answered.
fn counted(amount: u64) -> Result<u32, Refusal>
    ensures { result ≡ counted_in amount }
{
    u32::try_from(amount).or(Err(Reason::BeyondCount.at(0)))
}

// The most steps that a run of the sheet in the table can need; or its first circular call; or that they are beyond count.
pub fn bound_sheet(sheet: &Sheet<'_>) -> Result<u32, Refusal>
    ensures { result ≡ bound_in (sheet_in sheet.now) }
{
    calls::judge_calls(sheet).told()?;
    counted(amounts::main_amount(sheet))
}
