// The judgement of one line by its place and numbers, in the order of the refusals' numbers.
#![tactic(auto)]

ghost use Rattle.std.specs.Prelude.{◌≡◌, ℕ, ◌≤◌, List, true, OnOk};
ghost use Rattle.sheet_rules.specs.Keys.{same_place, member_kind};
ghost use Rattle.sheet_rules.specs.Reader.{good, nth, within, count_line, existing_line};
ghost use Rattle.sheet_rules.specs.Sheet.{Row as RowRule};
ghost use Rattle.sheet_rules.specs.declared.Member.{Member as MemberRule};
ghost use Rattle.sheet_rules.specs.declared.MemberKind.{MemberKind as MemberKindRule};
ghost use Rattle.sheet_rules.specs.declared.Place.{Place as PlaceRule};
ghost use Rattle.sheet_rules.specs.RowLines.{Heading, row_line, member_line};
ghost use Rattle.sheet_rules.specs.FormLines.{form_line, body_line};
ghost use Rattle.lexer.specs.Told.{list_of, Fitting};
ghost use Rattle.line_judges.specs.Told.{demanded, line_told, row_told, form_told, Lowest, member_rest};

use lexer::numbers::Numbers;
use sheet_rules::{MemberKind, Place, Reason};

// A row has at most 8 members.
const MEMBER_LIMIT: u16 = 8;

// A form keeps at most 8 values.
const KEEP_LIMIT: u16 = 8;

// A name is at most 63.
pub const NAME_LIMIT: u16 = 63;

// A body, and main, has 1 to 32 instructions.
const BODY_LIMIT: u16 = 32;

// A sheet has at most 1,024 instructions, main's included.
const INSTRUCTION_LIMIT: u64 = 1024;

// A test that a line must pass: where it fails the line is refused.
pub fn demand(holds: bool, reason: Reason) -> Result<(), Reason>
    ensures { result ≡ demanded holds reason }
{
    if holds { Ok(()) } else { Err(reason) }
}

// From low to high, both included.
fn within(low: u16, high: u16, value: u16) -> bool
    ensures { result ≡ within low high value }
{
    (low..=high).contains(&value)
}

// Two places are the same, whichever of its keys it is.
pub fn same_place(place: Place, wanted: Place) -> bool
    ensures { result ≡ same_place place wanted }
{
    match (place, wanted) {
        (Place::Member { .. }, Place::Member { .. }) => true,
        (Place::Instruction { .. }, Place::Instruction { .. }) => true,
        _ => place == wanted,
    }
}

// Which kind of member a key of that place makes.
pub fn member_kind(place: Place) -> MemberKind
    ensures { result ≡ member_kind place }
{
    match place {
        Place::Member { kind } => kind,
        _ => MemberKind::Field,
    }
}

// `types=T`, `forms=F` and `devices=D`: a count within its limits.
pub fn count_line(
    wanted: Place,
    low: u16,
    high: u16,
    place: Place,
    numbers: Numbers,
) -> Result<(), Reason>
    requires { Fitting place numbers }
    ensures { line_told result (good (nth numbers.values 0)) ≡ count_line wanted low high place (list_of numbers) }
{
    demand(same_place(place, wanted), Reason::Malformed)?;
    demand(within(low, high, numbers.values[0]), Reason::OutOfLimit)
}

// `keep=T`, `init=k` and `device=F`: the number of something that is there.
pub fn existing_line(
    wanted: Place,
    there: u32,
    place: Place,
    numbers: Numbers,
) -> Result<(), Reason>
    requires { Fitting place numbers }
    ensures { line_told result (good (nth numbers.values 0)) ≡ existing_line wanted there place (list_of numbers) }
{
    demand(same_place(place, wanted), Reason::Malformed)?;
    demand((numbers.values[0] as u32) < there, Reason::NotDefined)
}

// `body=I` and `main=I`, after `used` instructions of the sheet.
pub fn body_line(wanted: Place, used: u32, place: Place, numbers: Numbers) -> Result<(), Reason>
    requires { Fitting place numbers }
    ensures { line_told result (good (nth numbers.values 0)) ≡ body_line wanted used place (list_of numbers) }
{
    demand(same_place(place, wanted), Reason::Malformed)?;
    let count = numbers.values[0];
    demand(within(1, BODY_LIMIT, count), Reason::OutOfLimit)?;
    demand(
        used as u64 + count as u64 <= INSTRUCTION_LIMIT,
        Reason::OutOfLimit,
    )
}

// `type=K,M`, but for the test whether the row has a twin.
pub fn row_line(place: Place, numbers: Numbers) -> Result<(), Reason>
    requires { Fitting place numbers }
    ensures told { (earlier : List RowRule) → line_told result (row_told earlier (nth numbers.values 0) (nth numbers.values 1)) ≡ row_line earlier place (list_of numbers) }
    ensures few { OnOk result (nth numbers.values 1 ≤ 8) }
{
    demand(same_place(place, Place::Row), Reason::Malformed)?;
    demand(numbers.values[0] <= 1, Reason::OutOfLimit)?;
    demand(numbers.values[1] <= MEMBER_LIMIT, Reason::OutOfLimit)
}

// `form=T,C`, in a sheet of `rows` rows.
pub fn form_line(rows: u32, place: Place, numbers: Numbers) -> Result<(), Reason>
    requires { Fitting place numbers }
    ensures { line_told result (form_told (nth numbers.values 0) (nth numbers.values 1)) ≡ form_line rows place (list_of numbers) }
{
    demand(same_place(place, Place::Form), Reason::Malformed)?;
    demand(numbers.values[1] <= KEEP_LIMIT, Reason::OutOfLimit)?;
    demand((numbers.values[0] as u32) < rows, Reason::NotDefined)
}

// A member line, where the least name that ascends is given: but for the tests of the whole row.
pub fn member_line(lowest: u32, place: Place, numbers: Numbers) -> Result<(), Reason>
    requires { Fitting place numbers }
    ensures told { (limit : ℕ) (earlier : List RowRule) (h : Heading) (before : List MemberRule) → Lowest before lowest → line_told result (member_rest limit earlier h before place (list_of numbers)) ≡ member_line limit earlier h before place (list_of numbers) }
    ensures named { OnOk result (same_place place (PlaceRule.Member MemberKindRule.Method) ≡ true) }
{
    let member = Place::Member {
        kind: MemberKind::Method,
    };
    demand(same_place(place, member), Reason::Malformed)?;
    let name = numbers.values[0];
    demand(name <= NAME_LIMIT, Reason::OutOfLimit)?;
    demand(lowest <= name as u32, Reason::NotAscending)
}
