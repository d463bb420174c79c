// The rows that the work buffer holds, read by number, and where the answers of fit stand.
ghost use Rattle.std.specs.Prelude.{◌≡◌, ◌≤◌, ◌<◌, ◌+◌, min, length};
ghost use Rattle.table.specs.Layout.{row_count_at, row_address, member_address, member_count_address, fit_address, work_size};
ghost use Rattle.table.specs.View.{cell as cell_of, member_in, row_in, sheet_in};
ghost use Rattle.table.specs.Whole.{Whole};
ghost use Rattle.sheet_rules.specs.RowLines.{name_of};
ghost use Rattle.sheet_rules.specs.Sheet.{row_at};

use crate::layout::{FITS, FITS_OF_ROW, MEMBER_SIZE, MEMBERS, ROW_COUNT_AT, ROW_SIZE, ROWS};
use sheet_rules::{Kind, Member};

// A number of the buffer, to count or to index with.
pub fn wide(x: u16) -> usize
    ensures { result ≡ x }
{
    x as usize
}

// Where row i stands.
pub fn row_address(i: usize) -> usize
    requires { i < 64 }
    ensures { result ≡ row_address i }
{
    ROWS + ROW_SIZE * i
}

// How many rows the sheet has.
pub fn row_count(work: &[u16]) -> usize
    requires { work_size ≤ length work.now }
    ensures { result ≡ cell_of work.now row_count_at }
{
    wide(work[ROW_COUNT_AT])
}

// The kind of row i.
#[tactic(auto, unfolding(crate::specs::View::row_in), using(std::proofs::lemmas::Bool::Decides::nat_tests))]
pub fn row_kind(work: &[u16], i: usize) -> Kind
    requires { (i < 64) × (work_size ≤ length work.now) }
    ensures { result ≡ (row_in work.now i).kind }
{
    if work[row_address(i)] == 0 {
        return Kind::Pure;
    }
    Kind::Resource
}

// How many members row i has.
pub fn member_count(work: &[u16], i: usize) -> usize
    requires { (i < 64) × (work_size ≤ length work.now) }
    ensures { result ≡ cell_of work.now (member_count_address i) }
{
    wide(work[row_address(i) + 1])
}

// How many members row a of the sheet has.
pub fn members_at(work: &[u16], a: usize) -> usize
    requires { Whole work.now }
    ensures { (result ≡ length (row_at (sheet_in work.now).rows a).members) × (result ≤ 8) }
{
    if row_count(work) <= a {
        return 0;
    }
    member_count(work, a)
}

// Member j of row i.
#[tactic(auto, unfolding(crate::specs::View::member_in), using(std::proofs::lemmas::Bool::Decides::nat_tests))]
pub fn member(work: &[u16], i: usize, j: usize) -> Member
    requires { (i < 64) × (j < 8) × (work_size ≤ length work.now) }
    ensures { result ≡ member_in work.now i j }
{
    let at = member_address(i, j);
    let name = work[at + 1];
    let first = work[at + 2];
    if work[at] == 0 {
        return Member::Method {
            name,
            argument: first,
            result: work[at + 3],
        };
    }
    Member::Field { name, row: first }
}

// The name of member j of row i.
#[tactic(auto, unfolding(crate::specs::View::member_in), using(std::proofs::lemmas::Bool::Decides::nat_tests))]
pub fn member_name(work: &[u16], i: usize, j: usize) -> u16
    requires { (i < 64) × (j < 8) × (work_size ≤ length work.now) }
    ensures { result ≡ name_of (member_in work.now i j) }
{
    work[member_address(i, j) + 1]
}

// A row number, within the fit table's 64.
fn within_rows(i: usize) -> usize
    ensures { result ≡ min i 63 }
{
    i.min(FITS_OF_ROW - 1)
}

// Where the answer stands for row a fitting row b.
pub fn fit_address(a: usize, b: usize) -> usize
    ensures { result ≡ fit_address a b }
{
    fit_place(within_rows(a), within_rows(b))
}

// The same for rows that are known to be there.
pub fn fit_place(a: usize, b: usize) -> usize
    requires { (a < 64) × (b < 64) }
    ensures { result ≡ fit_address a b }
{
    FITS + (FITS_OF_ROW * a + b)
}

// Where member j of row i stands.
pub fn member_address(i: usize, j: usize) -> usize
    requires { (i < 64) × (j < 8) }
    ensures { (result ≡ member_address i j) × (result ≤ 2316) }
{
    row_address(i) + (MEMBERS + MEMBER_SIZE * j)
}
