// Reads a sheet from standard input, runs 10,000 steps, and prints the verdict, what the run answers, and every holder with what
// it holds. The lines are printer's; here the input is read and they are written.
#![tactic(auto)]

ghost use Rattle.std.specs.Prelude.{◌≡◌, ◌≤◌, IfOk, length};

use printer::lines::print_report;
use std::io;
use std::io::{Read, Write};
use std::process::ExitCode;

// Reads once and forgets what came; answers how many bytes came.
fn skip_some<R: Read>(input: &mut R) -> io::Result<usize> {
    let mut rest = [0u8; 4096];
    input.read(&mut rest)
}

// Reads the input to its end and forgets it. A proved loop has to end, so it has a number of turns, which no run uses up.
fn skip_rest<R: Read>(input: &mut R) -> io::Result<()> {
    for _ in 0..u64::MAX {
        if skip_some(input)? == 0 {
            return Ok(());
        }
    }
    Err(io::Error::other("the input has no end"))
}

// Reads the input, and answers how many bytes of the buffer it fills. Of one that fills the buffer the rest is skipped, so that
// nobody who writes a long sheet is cut off. Where reading fails, the buffer has what came before.
fn read_input<R: Read>(input: &mut R, text: &mut [u8]) -> io::Result<usize>
    ensures filled { IfOk result (λ n. n ≤ length text.new) }
    ensures whole { length text.new ≡ length text.old }
{
    let mut n = 0;
    // No `for`: how many bytes a read brings is the reader's to say.
    while n < text.len() {
        let more = input.read(&mut text[n..])?;
        if more == 0 {
            return Ok(n);
        }
        n += more;
    }
    skip_rest(input)?;
    Ok(n)
}

// A buffer of N numbers or bytes, all `zero`. Lending it as a slice needs its length.
fn buffer<T: Copy, const N: usize>(zero: T) -> [T; N]
    ensures { N ≡ length result }
{
    [zero; N]
}

fn main(rt: HostRuntime) -> ExitCode {
    let mut text: [u8; 65536] = buffer(0);
    let mut work: [u16; 32768] = buffer(0);
    let mut numbers: [u16; 66306] = buffer(0);
    let mut out: [u8; 729472] = buffer(0);
    match read_input(&mut rt.stdin(), &mut text) {
        Ok(n) => {
            let length = print_report(&text[..n], 10000, &mut work, &mut numbers, &mut out);
            match rt.stdout().write_all(&out[..length]) {
                Ok(()) => ExitCode::SUCCESS,
                Err(e) => failed(&rt, "standard output", e),
            }
        }
        Err(e) => failed(&rt, "standard input", e),
    }
}

// Says on standard error what failed. Where that fails too, nothing is left to say it to.
fn failed(rt: &impl Eprint, what: &str, error: io::Error) -> ExitCode {
    let _ = eprintln!(rt; "{what}: {error}");
    ExitCode::FAILURE
}
