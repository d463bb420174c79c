// Whether a row of the table equals an earlier one.
#![tactic(auto)]

ghost use Rattle.std.specs.Prelude.{◌≡◌, ◌≤◌, ◌<◌, ◌+◌, length};
ghost use Rattle.sheet_rules.specs.RowLines.{same_kind, same_member, same_members, same_row, twin};
ghost use Rattle.table.specs.Layout.{member_count_address, work_size};
ghost use Rattle.table.specs.View.{cell as cell_of, members_in, row_in, rows_in};

use sheet_rules::{Kind, Member};

// Two kinds are the same.
fn same_kind(a: Kind, b: Kind) -> bool
    ensures { result ≡ same_kind a b }
{
    a == b
}

// Two members are the same. Their numbers are compared one after another: by the derived equality, for which the compiler brings two of
// them together first, the fit table took up to 1.3 times the instructions.
pub fn same_member(a: Member, b: Member) -> bool
    ensures { result ≡ same_member a b }
{
    match (a, b) {
        (
            Member::Method {
                name,
                argument,
                result,
            },
            Member::Method {
                name: n,
                argument: p,
                result: q,
            },
        ) => name == n && argument == p && result == q,
        (Member::Field { name, row }, Member::Field { name: n, row: p }) => name == n && row == p,
        _ => false,
    }
}

// The first members of two rows are the same.
fn same_members(work: &[u16], a: usize, b: usize, count: usize) -> bool
    requires { (a < 64) × (b < 64) × (count ≤ 8) × (work_size ≤ length work.now) }
    ensures { result ≡ same_members (members_in work.now a count) (members_in work.now b count) }
{
    for j in 0..count {
        let x = table::rows::member(work, a, j);
        let y = table::rows::member(work, b, j);
        if !same_member(x, y) {
            return false;
        }
    }
    true
}

// Two rows are the same. Their counts come first: in a loop over `a` the compiler then reads row b's once.
fn same_row(work: &[u16], a: usize, b: usize) -> bool
    requires { (a < 64) × (b < 64) × (cell_of work.now (member_count_address b) ≤ 8) × (work_size ≤ length work.now) }
    ensures { result ≡ same_row (row_in work.now a) (row_in work.now b) }
{
    let m = table::rows::member_count(work, a);
    let n = table::rows::member_count(work, b);
    if m != n {
        return false;
    }
    if !same_kind(
        table::rows::row_kind(work, a),
        table::rows::row_kind(work, b),
    ) {
        return false;
    }
    same_members(work, a, b, n)
}

// Row i equals a row before it.
pub fn has_twin(work: &[u16], i: usize) -> bool
    requires { (i < 64) × (cell_of work.now (member_count_address i) ≤ 8) × (work_size ≤ length work.now) }
    ensures { result ≡ twin (rows_in work.now i) (row_in work.now i) }
{
    for k in 0..i {
        if same_row(work, k, i) {
            return true;
        }
    }
    false
}
