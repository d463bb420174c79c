// The keys, by the number that their letters make.
ghost use Rattle.std.specs.Prelude.{◌≡◌, ◌&&◌, leb};
ghost use Rattle.sheet_rules.specs.declared.Place.{Place as PlaceRule};
ghost use Rattle.lexer.specs.Scan.{facts_from, facts_of, place_of_code};

use sheet_rules::{MemberKind, Operation, Place};

// A key: where its line may stand, and the fewest and most numbers that follow it.
#[derive(Clone, Copy, Debug, PartialEq, Eq)]
pub struct KeyFacts {
    pub place: Place,
    pub fewest: u16,
    pub most: u16,
}

impl KeyFacts {
    fn of(place: Place, fewest: u16, most: u16) -> KeyFacts
        ensures { result ≡ facts_from place fewest most }
    {
        KeyFacts {
            place,
            fewest,
            most,
        }
    }

    fn member(kind: MemberKind, count: u16) -> KeyFacts
        ensures { result ≡ facts_from (PlaceRule.Member kind) count count }
    {
        KeyFacts::of(Place::Member { kind }, count, count)
    }

    fn instruction(operation: Operation, fewest: u16, most: u16) -> KeyFacts
        ensures { result ≡ facts_from (PlaceRule.Instruction operation) fewest most }
    {
        KeyFacts::of(Place::Instruction { operation }, fewest, most)
    }

    // So many numbers may follow it.
    pub fn takes(self, count: u16) -> bool
        ensures { result ≡ (leb self.fewest count && leb count self.most) }
    {
        (self.fewest..=self.most).contains(&count)
    }
}

// The code of a key, the letters of the word beside it as digits of base 27, is matched to its place and number count. No constant can be
// made of its word, so the codes stand as numbers.
#[tactic(auto, unfolding(crate::specs::Scan::facts_of, crate::specs::Scan::place_of_code, crate::specs::Scan::code_among, crate::specs::Scan::word_code, sheet_rules::specs::Keys::bytes,))]
pub fn key_of(code: u64) -> KeyFacts
    ensures { result ≡ facts_of (place_of_code code) }
{
    match code {
        11132713 => KeyFacts::of(Place::Types, 1, 1), // types
        412322 => KeyFacts::of(Place::Row, 2, 2), // type
        3057 => KeyFacts::member(MemberKind::Method, 3), // def
        16083 => KeyFacts::member(MemberKind::Field, 2), // var
        3497383 => KeyFacts::of(Place::Forms, 1, 1), // forms
        129532 => KeyFacts::of(Place::Form, 2, 2), // form
        220309 => KeyFacts::of(Place::Keep, 1, 1), // keep
        187616 => KeyFacts::of(Place::Init, 1, 1), // init
        50434 => KeyFacts::of(Place::Body, 1, 1), // body
        1633297681 => KeyFacts::of(Place::Devices, 1, 1), // devices
        60492506 => KeyFacts::of(Place::Device, 1, 1), // device
        256865 => KeyFacts::of(Place::Main, 1, 1), // main
        10364 => KeyFacts::instruction(Operation::New, 1, 9), // new
        60114 => KeyFacts::instruction(Operation::Call, 3, 3), // call
        5258 => KeyFacts::instruction(Operation::Get, 1, 1), // get
        12251 => KeyFacts::instruction(Operation::Put, 2, 2), // put
        70441 => KeyFacts::instruction(Operation::Copy, 1, 1), // copy
        _ => KeyFacts::of(Place::Nowhere, 1, 0),
    }
}
