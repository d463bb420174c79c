// Fit's answer on two rows, by one walk along both, with the fit table's word on the rows that their members mention.
#![tactic(auto)]

ghost use Rattle.std.proofs.Math.Option.{some};
ghost use Rattle.std.specs.Prelude.{◌≡◌};
ghost use Rattle.table.specs.Whole.{Whole};
ghost use Rattle.fit_answer.specs.Told.{members_walk, rows_walk, rows_say};

use sheet_rules::{FitAnswer, Kind};
use table::sheet::Sheet;
use type_rules::Walk;

// The walk along the members of rows a and b, to the lowest of b that has no match in a, or to b's end. Names ascend in both rows, so
// it takes at most as many turns as the two have members together: row b is at its end when these are spent.
fn walk_members(sheet: &Sheet<'_>, a: usize, b: usize) -> Walk
    ensures walk { some result ≡ members_walk sheet.now a b }
    ensures whole { Whole sheet.now }
{
    let across = sheet.members_at(a);
    let down = sheet.members_at(b);
    let work = sheet.numbers();
    let mut i = 0;
    let mut j = 0;
    for _ in 0..across + down {
        if down <= j {
            return Walk {
                answer: FitAnswer::Yes,
                passed: i,
            };
        }
        let name = sheet.member_name(b, j);
        let answer = FitAnswer::Unmet { name };
        if across <= i {
            return Walk { answer, passed: i };
        }
        let given = sheet.member_name(a, i);
        if name < given {
            return Walk { answer, passed: i };
        }
        let at = i;
        i += 1;
        if given < name {
            continue;
        }
        if fit::match_at(work, a, at, b, j) % 2 == 0 {
            return Walk { answer, passed: i };
        }
        j += 1;
    }
    Walk {
        answer: FitAnswer::Yes,
        passed: i,
    }
}

// The walk along two rows: kinds first, then members.
pub fn walk(sheet: &Sheet<'_>, a: usize, b: usize) -> Walk
    ensures walk { some result ≡ rows_walk sheet.now a b }
    ensures says { result.answer ≡ rows_say sheet.now a b }
{
    match (sheet.kind_at(a), sheet.kind_at(b)) {
        (Kind::Resource, Kind::Pure) => Walk {
            answer: FitAnswer::WrongKind,
            passed: 0,
        },
        _ => walk_members(sheet, a, b),
    }
}

// What the two rows say.
pub fn answer(sheet: &Sheet<'_>, a: usize, b: usize) -> FitAnswer
    ensures { result ≡ rows_say sheet.now a b }
{
    walk(sheet, a, b).answer
}
