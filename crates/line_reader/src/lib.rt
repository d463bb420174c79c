// One line of a sheet, read and judged by where the reader stands.
#![tactic(auto)]

ghost use Rattle.std.specs.Prelude.{◌≡◌, ◌<◌, drop};
ghost use Rattle.lexer.specs.Told.{Fitting};
ghost use Rattle.sheet_rules.specs.Lines.{lines_of};
ghost use Rattle.line_reader.specs.Told.{NextTold, Room, LineThere, Judges, next_line, settled, LineTold, InstrTold};

use lexer::numbers::Numbers;
use sheet_rules::{Place, Reason, Refusal};

// A sheet has 1 to 64 rows, at most 64 forms, and 1 to 8 devices where it has a `devices` line.
const ROW_LIMIT: u16 = 64;

const FORM_LIMIT: u16 = 64;

const DEVICE_LIMIT: u16 = 8;

// Where reading stands: a place in the text, the number of the line there, and how many instructions were read.
#[derive(Clone, Copy, Debug, PartialEq, Eq)]
pub struct Cursor {
    pub at: usize,
    pub line: u32,
    pub used: u16,
}

// A line that was taken: the place of its key, its numbers, and where reading then stands.
#[derive(Clone, Copy, Debug, PartialEq, Eq)]
pub struct TakenLine {
    pub place: Place,
    pub numbers: Numbers,
    pub next: Cursor,
}

// Judges a line by the place that is wanted and by a bound: the lowest name that a member may have; how many rows there are, for a form's
// row and for a kept one; how many values the form keeps, for an `init`; how many instructions stand before a body or main; how many forms
// there are, for a device. The other lines have no bound, and no instruction is judged here.
fn judge(wanted: Place, bound: u32, place: Place, numbers: Numbers) -> Result<(), Reason>
    requires { Fitting place numbers }
    ensures { Judges wanted bound place numbers result }
{
    match wanted {
        Place::Types => line_judges::count_line(Place::Types, 1, ROW_LIMIT, place, numbers),
        Place::Row => line_judges::row_line(place, numbers),
        Place::Member { .. } => line_judges::member_line(bound, place, numbers),
        Place::Forms => line_judges::count_line(Place::Forms, 0, FORM_LIMIT, place, numbers),
        Place::Form => line_judges::form_line(bound, place, numbers),
        Place::Keep => line_judges::existing_line(Place::Keep, bound, place, numbers),
        Place::Init => line_judges::existing_line(Place::Init, bound, place, numbers),
        Place::Body => line_judges::body_line(Place::Body, bound, place, numbers),
        Place::Devices => line_judges::count_line(Place::Devices, 1, DEVICE_LIMIT, place, numbers),
        Place::Device => line_judges::existing_line(Place::Device, bound, place, numbers),
        Place::Main => line_judges::body_line(Place::Main, bound, place, numbers),
        Place::Instruction { .. } | Place::Nowhere => Err(Reason::Malformed),
    }
}

// A line later, at a place of the text.
fn next_line(from: Cursor, at: usize) -> Cursor
    requires { from.line < 4294967295 }
    ensures { result ≡ next_line from at }
{
    Cursor {
        at,
        line: from.line + 1,
        ..from
    }
}

// The line where reading stands, not judged yet.
fn read_line(text: &[u8], from: Cursor) -> Result<TakenLine, Refusal>
    requires { Room text.now from }
    ensures { LineThere text.now from result }
{
    let Some(line) = lexer::read_line(text, from.at) else {
        return Err(Refusal {
            reason: Reason::Malformed,
            line: from.line,
        });
    };
    Ok(TakenLine {
        place: line.place,
        numbers: line.numbers,
        next: next_line(from, line.next),
    })
}

// A judged line, or its refusal, with the line's number.
fn settle(judged: Result<(), Reason>, line: TakenLine, number: u32) -> Result<TakenLine, Refusal>
    ensures { result ≡ settled judged line number }
{
    match judged {
        Ok(()) => Ok(line),
        Err(reason) => Err(Refusal {
            reason,
            line: number,
        }),
    }
}

// Whether the line where reading stands has a key of some place; one that no place takes has not.
pub fn is_next(text: &[u8], from: Cursor, wanted: Place) -> bool
    requires { Room text.now from }
    ensures { NextTold wanted (lines_of (drop from.at text.now)) result }
{
    let Some(line) = lexer::read_line(text, from.at) else {
        return false;
    };
    line_judges::same_place(line.place, wanted)
}

// The line where reading stands, where one of some place is wanted.
pub fn take_line(text: &[u8], from: Cursor, wanted: Place, bound: u32) -> Result<TakenLine, Refusal>
    requires { Room text.now from }
    ensures { LineTold wanted bound text.now from result }
{
    let line = read_line(text, from)?;
    let judged = judge(wanted, bound, line.place, line.numbers);
    settle(judged, line, from.line)
}

// The instruction line where reading stands, in a sheet of `forms` forms, where `filled` slots are filled. Its judge is the longest,
// and goes by two numbers, so it has a reader of its own.
pub fn take_instr(text: &[u8], from: Cursor, forms: u16, filled: u16) -> Result<TakenLine, Refusal>
    requires { Room text.now from }
    ensures { InstrTold forms filled text.now from result }
{
    let line = read_line(text, from)?;
    let judged = instr_judge::instr_line(forms, filled, line.place, line.numbers);
    settle(judged, line, from.line)
}
