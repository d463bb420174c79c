// What the program prints, put into a buffer: a holder's line.
#![tactic(auto)]

ghost use Rattle.std.specs.Prelude.{◌+◌, ◌*◌, ◌≤◌, length};
ghost use Rattle.authority_rules.specs.Printed.{holder_line};
ghost use Rattle.line_writer.specs.Put.{Put};
ghost use Rattle.printer.specs.Printed.{entry_count, entry_at};

use line_writer::{put_byte, put_decimal, put_numbers, put_word, wide};

pub mod lines;

// Puts a holder's line, from the entry that begins at a place; answers the place after it.
fn put_holder(out: &mut [u8], at: usize, numbers: &[u16], from: usize) -> usize
    requires { (at + (18 + 11 * entry_count numbers.now from) ≤ length out.old) × (from + (2 + entry_count numbers.now from) ≤ length numbers.now) }
    ensures { Put (18 + 11 * entry_count numbers.now from) at (holder_line (entry_at numbers.now from)) out.old out.new result }
{
    let n = table::rows::wide(numbers[from + 1]);
    let a = put_word(out, at, b"holder=");
    let b = put_decimal(out, a, wide(numbers[from]));
    let c = put_numbers(out, b, numbers, from + 2, n);
    put_byte(out, c, b'\n')
}
