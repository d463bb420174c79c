// The fit table: whether row a fits row b, for every two rows of the sheet in the work buffer. Each pair of rows is settled once,
// in both directions, by one walk along the members of both. Its two answers are the two bits of one number, 1 for the first and 2 for
// the second: the table's cells have them so, and a single `&` takes away what a turn of the walk finds against either.
#![tactic(auto)]

ghost use Rattle.std.specs.Prelude.{◌≡◌, ◌≤◌, ◌<◌, ◌+◌, T, length};
ghost use Rattle.sheet_rules.specs.RowLines.{name_of, mentions_below};
ghost use Rattle.sheet_rules.specs.WellFormed.{WellFormedRow};
ghost use Rattle.type_rules.specs.Fit.{kind_fits};
ghost use Rattle.table.specs.Layout.{member_count_address, fit_address, work_size};
ghost use Rattle.table.specs.View.{cell as cell_of, member_in, row_in};
ghost use Rattle.fit.specs.Told.{two_bits, first_bit, second_bit, tells, Comparable, SelfFit, AllAlike, MatchAt, BothMatch, Walked, pair_filled, pairs_filled, FitFilled};

use sheet_rules::{Kind, Member};
use table::rows::wide;

// Whether row a fits row b, as the table tells.
pub fn fits_in(work: &[u16], a: usize, b: usize) -> bool
    requires { work_size ≤ length work.now }
    ensures { result ≡ tells work.now a b }
{
    work[table::rows::fit_address(a, b)] % 2 == 1
}

// The cell of rows a and b.
fn cell_of(work: &[u16], a: u16, b: u16) -> u16
    requires { (a < 64) × (b < 64) × (work_size ≤ length work.now) }
    ensures { result ≡ cell_of work.now (fit_address a b) }
{
    work[table::rows::fit_place(wide(a), wide(b))]
}

// Whether member x of a row is the match of member y of another, and y that of x, where they have one name. Arguments are
// compared the other way round than results.
fn both_match(work: &[u16], x: Member, y: Member) -> u16
    requires { T (mentions_below 64 x) × T (mentions_below 64 y) × (name_of x ≡ name_of y) × (work_size ≤ length work.now) }
    ensures { BothMatch work.now x y result }
{
    match (x, y) {
        (
            Member::Method {
                argument: a,
                result: r,
                ..
            },
            Member::Method {
                argument: b,
                result: s,
                ..
            },
        ) => cell_of(work, b, a) & cell_of(work, r, s),
        (Member::Field { row: r, .. }, Member::Field { row: s, .. }) if r == s => 3,
        _ => 0,
    }
}

// The same for member i of row m and member j of row k.
pub fn match_at(work: &[u16], m: usize, i: usize, k: usize, j: usize) -> u16
    requires { MatchAt work.now m i k j }
    ensures { BothMatch work.now (member_in work.now m i) (member_in work.now k j) result }
{
    let x = table::rows::member(work, m, i);
    let y = table::rows::member(work, k, j);
    both_match(work, x, y)
}

// How many members rows m and k begin with that are the same in both.
fn alike(work: &[u16], m: usize, k: usize) -> usize
    requires { (m < 64) × (k < 64) × (cell_of work.now (member_count_address m) ≤ 8) × (cell_of work.now (member_count_address k) ≤ 8) × (work_size ≤ length work.now) }
    ensures { AllAlike work.now m k result }
{
    let common = table::rows::member_count(work, m).min(table::rows::member_count(work, k));
    for n in 0..common {
        let x = table::rows::member(work, m, n);
        let y = table::rows::member(work, k, n);
        if !row_twins::same_member(x, y) {
            return n;
        }
    }
    common
}

// What is left of the kinds' answers on rows m and k once their members are compared. Members that are the same match both ways, so
// the walk begins after those. Names ascend in both rows, so one walk is enough: a member of the lower name is one that the other
// row lacks.
fn walk(work: &[u16], m: usize, k: usize, kinds: u16) -> u16
    requires { (m < 64) × (k < 64) × WellFormedRow m (row_in work.now m) × WellFormedRow k (row_in work.now k) × (work_size ≤ length work.now) × SelfFit m work.now }
    ensures { Walked work.now m k kinds result }
{
    let across = table::rows::member_count(work, m);
    let down = table::rows::member_count(work, k);
    let from = alike(work, m, k);
    let mut left = kinds;
    let mut i = from;
    let mut j = from;
    while left != 0 {
        if across <= i {
            if down <= j {
                return left;
            }
            return left & 2;
        }
        if down <= j {
            return left & 1;
        }
        let x = table::rows::member_name(work, m, i);
        let y = table::rows::member_name(work, k, j);
        if x < y {
            left &= 1;
            i += 1;
            continue;
        }
        if y < x {
            left &= 2;
            j += 1;
            continue;
        }
        left &= match_at(work, m, i, k, j);
        i += 1;
        j += 1;
    }
    0
}

// Whether row m may fit row k by their kinds, and k m.
fn kinds_fit(work: &[u16], m: usize, k: usize) -> u16
    requires { (m < 64) × (k < 64) × (work_size ≤ length work.now) }
    ensures { result ≡ two_bits (kind_fits (row_in work.now m).kind (row_in work.now k).kind) (kind_fits (row_in work.now k).kind (row_in work.now m).kind) }
{
    match (
        table::rows::row_kind(work, m),
        table::rows::row_kind(work, k),
    ) {
        (Kind::Pure, Kind::Resource) => 1,
        (Kind::Resource, Kind::Pure) => 2,
        _ => 3,
    }
}

// Two answers on two rows, as those on the same rows the other way round.
fn turn(said: u16) -> u16
    requires { said ≤ 3 }
    ensures { result ≡ two_bits (second_bit said) (first_bit said) }
{
    match said {
        1 => 2,
        2 => 1,
        _ => said,
    }
}

// Fills the cells (m, k) and (k, m).
fn fill_pair(work: &mut [u16], m: usize, k: usize)
    requires { (k ≤ m) × Comparable (m + 1) work.old × SelfFit m work.old }
    ensures { work.new ≡ pair_filled work.old m k }
{
    let kinds = kinds_fit(work, m, k);
    let said = walk(work, m, k, kinds);
    table::put(work, table::rows::fit_place(m, k), said);
    table::put(work, table::rows::fit_place(k, m), turn(said));
}

// Fills the cells of row m with itself and the rows below it.
fn fill_row(work: &mut [u16], m: usize)
    requires { Comparable (m + 1) work.old × SelfFit m work.old }
    ensures { work.new ≡ pairs_filled work.old m (m + 1) }
{
    for k in 0..m + 1 {
        fill_pair(work, m, k);
    }
}

// Fills the cells of the rows that the buffer holds.
pub fn fill(work: &mut [u16], rows: usize)
    requires { Comparable rows work.old }
    ensures { FitFilled rows work.old work.new }
{
    for m in 0..rows {
        fill_row(work, m);
    }
}
