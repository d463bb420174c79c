// The types that the rules and the code share. The rules are in specs/: limits, sheet, keys, lines, reading, answers.
#![tactic(auto)]

ghost use Rattle.std.specs.Prelude.{◌≡◌};
ghost use Rattle.sheet_rules.specs.Answers.{refusal, verdict_told, verdict_from};

// K of a row: 0 pure, 1 resource.
#[derive(Clone, Copy, Debug, PartialEq, Eq)]
pub enum Kind {
    Pure,
    Resource,
}

// One member of a row.
#[derive(Clone, Copy, Debug, PartialEq, Eq)]
pub enum Member {
    Method {
        name: u16,
        argument: u16,
        result: u16,
    },
    Field {
        name: u16,
        row: u16,
    },
}

// The two kinds of member.
#[derive(Clone, Copy, Debug, PartialEq, Eq)]
pub enum MemberKind {
    Method,
    Field,
}

// What an instruction does.
#[derive(Clone, Copy, Debug, PartialEq, Eq)]
pub enum Operation {
    New,
    Call,
    Get,
    Put,
    Copy,
}

// Where a line may stand, by its key. Where several keys may stand, it says which one it is; a word that is no key may stand nowhere.
#[derive(Clone, Copy, Debug, PartialEq, Eq)]
pub enum Place {
    Types,
    Row,
    Member { kind: MemberKind },
    Forms,
    Form,
    Keep,
    Init,
    Body,
    Devices,
    Device,
    Main,
    Instruction { operation: Operation },
    Nowhere,
}

// What is lacking where a value does not fit: one slot for each kept value; the kind, a resource where pure is asked; or a match for
// a member, with its name. A name is at most 63, and a byte keeps every refusal small.
#[derive(Clone, Copy, Debug, PartialEq, Eq)]
pub enum Lack {
    Count,
    WrongKind,
    Unmet { name: u8 },
}

// Why a call is refused, in the order of the paper's numbers 1 to 14. A misfit says what is lacking.
#[derive(Clone, Copy, Debug, PartialEq, Eq)]
pub enum Reason {
    BufferTooShort,
    TextTooLong,
    Malformed,
    OutOfLimit,
    NotAscending,
    DuplicateRow,
    NotDefined,
    ImpureForm,
    NoSuchMember,
    Misfit { lack: Lack },
    NoHolder,
    CircularCall,
    BeyondCount,
    WrongDevice,
}

impl Reason {
    // The refusal for this reason, at a line.
    pub fn at(self, line: u32) -> Refusal
        ensures { result ≡ refusal self line }
    {
        Refusal { reason: self, line }
    }
}

// A call or a line refused: why, and the line at fault, 0 where it is no line's.
#[derive(Clone, Copy, Debug, PartialEq, Eq)]
pub struct Refusal {
    pub reason: Reason,
    pub line: u32,
}

// The judgement of a sheet: accepted, or refused with the reason and the line at fault.
#[derive(Clone, Copy, Debug, PartialEq, Eq)]
pub enum Verdict {
    Accepted,
    Refused { reason: Reason, line: u32 },
}

impl Verdict {
    // What goes on from the verdict: nothing but its refusal.
    pub fn told(self) -> Result<(), Refusal>
        ensures { result ≡ verdict_told self }
    {
        match self {
            Verdict::Accepted => Ok(()),
            Verdict::Refused { reason, line } => Err(reason.at(line)),
        }
    }
}

// The verdict of an answer: accepted where there is one.
impl<T: Drop> From<Result<T, Refusal>> for Verdict {
    ghost from_gives = { λ walked verdict. verdict ≡ verdict_from walked };

    fn from(walked: Result<T, Refusal>) -> Verdict {
        match walked {
            Ok(_) => Verdict::Accepted,
            Err(Refusal { reason, line }) => Verdict::Refused { reason, line },
        }
    }
}

// Whether a row fits another: yes; no, a resource where pure is asked; no, and the lowest member name without a match.
#[derive(Clone, Copy, Debug, PartialEq, Eq)]
pub enum FitAnswer {
    Yes,
    WrongKind,
    Unmet { name: u16 },
}

// One form's lines in a text: where they begin, and how many bytes they have.
#[derive(Clone, Copy, Debug, PartialEq, Eq)]
pub struct FormLines {
    pub start: usize,
    pub length: usize,
}
