// Instruction lines, read into the pool of the table.
#![tactic(auto)]

ghost use Rattle.std.specs.Prelude.{◌≡◌, ◌≤◌, ◌<◌, ◌+◌, length};
ghost use Rattle.table.specs.Layout.{work_size};
ghost use Rattle.table.specs.View.{operation_code, instr_from};
ghost use Rattle.line_reader.specs.Told.{Room};
ghost use Rattle.instr_reader.specs.Reads.{StoredInstr, InstrRead, InstrsRead};

use lexer::numbers::Numbers;
use line_reader::Cursor;
use sheet_rules::{Operation, Refusal};
use table::rows::wide;
use table::stores::{put_number, put_operation};

// Stores an instruction line as instruction p of the pool: its operation, its number count, and nine numbers.
fn store_instr(work: &mut [u16], p: usize, operation: Operation, numbers: Numbers)
    requires { (p < 1024) × (work_size ≤ length work.old) }
    ensures { StoredInstr p (instr_from (operation_code operation) numbers.count numbers.values) work.old work.new }
{
    put_operation(work, p, operation, numbers.count);
    for k in 0..numbers.values.len() {
        put_number(work, p, k, numbers.values[k]);
    }
}

// The instruction where reading stands, where `filled` slots are filled: it is the next of the pool.
fn read_instr(
    text: &[u8],
    work: &mut [u16],
    forms: u16,
    filled: u16,
    from: Cursor,
) -> Result<Cursor, Refusal>
    requires { Room text.now from × (from.used < 1024) × (work_size ≤ length work.old) }
    ensures { InstrRead text.now forms filled from work.old work.new result }
{
    let line = line_reader::take_instr(text, from, forms, filled)?;
    let operation = instr_judge::operation_of(line.place);
    store_instr(work, wide(from.used), operation, line.numbers);
    Ok(Cursor {
        used: from.used + 1,
        ..line.next
    })
}

// `count` instructions of a body or of main. Before the first `filled` slots are filled; each fills one more.
pub fn read_instrs(
    text: &[u8],
    work: &mut [u16],
    count: usize,
    forms: u16,
    filled: u16,
    from: Cursor,
) -> Result<Cursor, Refusal>
    requires { Room text.now from × (from.used + count ≤ 1024) × (filled ≤ 64) × (work_size ≤ length work.old) }
    ensures { InstrsRead text.now count forms filled from work.old work.new result }
{
    let mut here = from;
    for j in 0..count {
        here = read_instr(text, work, forms, filled + j as u16, here)?;
    }
    Ok(here)
}
