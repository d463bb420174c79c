// One line of a text, from a place on: its key and its numbers, in one pass over its bytes.
#![tactic(auto)]

ghost use Rattle.std.specs.Prelude.{◌≡◌, ◌≤◌, [], length, drop, IfSome};
ghost use Rattle.lexer.specs.Scan.{end_turn, digit_more, digit_turn, first_turn, turn_of, numbers_scan, key_scan, line_at};
ghost use Rattle.lexer.specs.Told.{Rested, numbers_told, keyed_told};

use numbers::Numbers;
use sheet_rules::Place;

mod keys;
pub mod numbers;

// A letter is a digit of base 27, from 1 to 26.
const BEFORE_A: u8 = b'a' - 1;

// Above the code of six letters; with a seventh letter a code is full.
const SIX_LETTERS: u64 = 387420489;

// The number in progress: no digit yet, the number 0, or digits that do not begin with 0.
#[derive(Clone, Copy, Debug, PartialEq, Eq)]
pub enum Part {
    Empty,
    Zero,
    Digits { value: u16 },
}

// What a byte does to the numbers of a line.
#[derive(Clone, Copy, Debug, PartialEq, Eq)]
pub enum Turn {
    More { part: Part },
    Comma { value: u16 },
    End { value: u16 },
    Torn,
}

// A line in the sheet's shape, with as many numbers as its key asks for: where it may stand, and where in the text it ends.
#[derive(Clone, Copy, Debug, PartialEq, Eq)]
pub struct KeyedLine {
    pub place: Place,
    pub numbers: Numbers,
    pub next: usize,
}

// A number has ended: a comma asks for another one, a line feed ends the line.
fn end_turn(value: u16, byte: u8) -> Turn
    ensures { result ≡ end_turn value byte }
{
    match byte {
        b',' => Turn::Comma { value },
        b'\n' => Turn::End { value },
        _ => Turn::Torn,
    }
}

// Digits so far, of this value, and one more.
fn digit_more(value: u16, digit: u8) -> Turn
    ensures { result ≡ digit_more value digit }
{
    let grown = value as u32 * 10 + digit as u32;
    if grown <= u16::MAX as u32 {
        Turn::More {
            part: Part::Digits {
                value: grown as u16,
            },
        }
    } else {
        Turn::Torn
    }
}

// Digits so far, of this value, and a byte.
fn digit_turn(value: u16, byte: u8) -> Turn
    ensures { result ≡ digit_turn value byte }
{
    match byte {
        b'0'..=b'9' => digit_more(value, byte - b'0'),
        _ => end_turn(value, byte),
    }
}

// The first byte of a number.
fn first_turn(byte: u8) -> Turn
    ensures { result ≡ first_turn byte }
{
    match byte {
        b'0' => Turn::More { part: Part::Zero },
        b'1'..=b'9' => Turn::More {
            part: Part::Digits {
                value: (byte - b'0') as u16,
            },
        },
        _ => Turn::Torn,
    }
}

// A byte after the number in progress.
fn byte_turn(part: Part, byte: u8) -> Turn
    ensures { result ≡ turn_of part byte }
{
    match part {
        Part::Empty => first_turn(byte),
        Part::Zero => end_turn(0, byte),
        Part::Digits { value } => digit_turn(value, byte),
    }
}

// The numbers of a line from a place on, digits and commas up to a line feed, and the place after it.
#[tactic(auto, using(crate::proofs::ScanSteps::numbers_next, crate::proofs::ScanSteps::numbers_end, std::proofs::lemmas::Bool::Decides::nat_tests,))]
fn read_numbers(text: &[u8], from: usize) -> Option<(Numbers, usize)>
    requires { from ≤ length text.now }
    ensures read { numbers_told result ≡ numbers_scan [] Part.Empty from (drop from text.now) }
    ensures rest { IfSome result (λ r. Rested r.0) }
{
    // After eight numbers the next one ends the line.
    let mut part = Part::Empty;
    let mut numbers = Numbers::none();
    for at in from..text.len() {
        match byte_turn(part, text[at]) {
            Turn::More { part: grown } => part = grown,
            Turn::Comma { value } if numbers.count < 8 => {
                numbers = numbers.with(value);
                part = Part::Empty;
            }
            Turn::End { value } => return Some((numbers.with(value), at + 1)),
            _ => return None,
        }
    }
    None
}

// The letters of a key from a place on up to its equal sign, as a number, and the place after it.
#[tactic(auto, using(crate::proofs::ScanSteps::key_next, crate::proofs::ScanSteps::key_end, std::proofs::lemmas::Bool::Decides::nat_tests,))]
fn read_key(text: &[u8], from: usize) -> Option<(u64, usize)>
    requires { from ≤ length text.now }
    ensures { result ≡ key_scan 0 from (drop from text.now) }
{
    let mut code: u64 = 0;
    for at in from..text.len() {
        match text[at] {
            b'=' => return Some((code, at + 1)),
            letter @ b'a'..=b'z' if code < SIX_LETTERS => {
                code = code * 27 + (letter - BEFORE_A) as u64;
            }
            _ => return None,
        }
    }
    None
}

// The line of a text at a place. One whose key does not take its number count is given up: no place takes it.
pub fn read_line(text: &[u8], from: usize) -> Option<KeyedLine>
    requires { from ≤ length text.now }
    ensures read { keyed_told result ≡ line_at text.now from }
    ensures rest { IfSome result (λ line. Rested line.numbers) }
{
    let (code, after_key) = read_key(text, from)?;
    let (numbers, next) = read_numbers(text, after_key)?;
    let key = keys::key_of(code);
    if !key.takes(numbers.count) {
        return None;
    }
    Some(KeyedLine {
        place: key.place,
        numbers,
        next,
    })
}
