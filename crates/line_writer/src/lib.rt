// Printed lines, put byte by byte into a buffer.
#![tactic(auto)]

ghost use Rattle.std.specs.Prelude.{◌≡◌, ◌+◌, ◌*◌, ◌<◌, ◌≤◌, [], ◌∷◌, length, take, drop};
ghost use Rattle.sheet_rules.specs.Decimals.{decimal, further, line_text};
ghost use Rattle.line_writer.specs.Put.{Put};

// Puts a byte; answers the place after it.
pub fn put_byte(out: &mut [u8], at: usize, b: u8) -> usize
    requires { at < length out.old }
    ensures { Put 1 at (b ∷ []) out.old out.new result }
{
    out[at] = b;
    at + 1
}

// Puts a number in decimal, without leading zeros; answers the place after it.
pub fn put_decimal(out: &mut [u8], at: usize, n: u32) -> usize
    requires { at + 10 ≤ length out.old }
    ensures { Put 10 at (decimal n) out.old out.new result }
{
    if n < 10 {
        return put_byte(out, at, b'0' + n as u8);
    }
    let next = put_decimal(out, at, n / 10);
    put_byte(out, next, b'0' + (n % 10) as u8)
}

// Puts the bytes of a word; answers the place after them.
pub fn put_word(out: &mut [u8], at: usize, word: &[u8]) -> usize
    requires { at + length word.now ≤ length out.old }
    ensures { Put (length word.now) at word.now out.old out.new result }
{
    let mut next = at;
    for &byte in word {
        next = put_byte(out, next, byte);
    }
    next
}

// Puts a line of one number; answers the place after it.
pub fn put_line(out: &mut [u8], at: usize, word: &[u8], n: u32) -> usize
    requires { at + (length word.now + 11) ≤ length out.old }
    ensures { Put (length word.now + 11) at (line_text word.now n []) out.old out.new result }
{
    let a = put_word(out, at, word);
    let b = put_decimal(out, a, n);
    put_byte(out, b, b'\n')
}

// A number of 16 bits, in 32.
pub fn wide(x: u16) -> u32
    ensures { result ≡ x }
{
    x as u32
}

// Puts n numbers from a place on, each after a comma; answers the place after them.
pub fn put_numbers(out: &mut [u8], at: usize, numbers: &[u16], from: usize, n: usize) -> usize
    requires { (at + 11 * n ≤ length out.old) × (from + n ≤ length numbers.now) }
    ensures { Put (11 * n) at (further (take n (drop from numbers.now))) out.old out.new result }
{
    let mut next = at;
    for i in 0..n {
        next = put_byte(out, next, b',');
        next = put_decimal(out, next, wide(numbers[from + i]));
    }
    next
}
