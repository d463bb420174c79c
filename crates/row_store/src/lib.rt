// The row in progress: the tests that its lines still have to pass.
#![tactic(auto)]

ghost use Rattle.std.specs.Prelude.{◌≡◌, ◌&&◌, ◌≤◌, ◌<◌, ◌+◌, suc, eqb, length};
ghost use Rattle.sheet_rules.specs.RowLines.{name_of, twin, mentions_below};
ghost use Rattle.line_judges.specs.Told.{Lowest};
ghost use Rattle.table.specs.Layout.{member_count_address, work_size};
ghost use Rattle.table.specs.View.{cell as cell_of, members_in, row_in, rows_in};

use sheet_rules::Member;

// The least name that ascends after the first j members of row i.
pub fn lowest_name(work: &[u16], i: usize, j: usize) -> u32
    requires { (i < 64) × (j ≤ 8) × (work_size ≤ length work.now) }
    ensures { Lowest (members_in work.now i j) result }
{
    if j == 0 {
        return 0;
    }
    name_of(table::rows::member(work, i, j - 1)) + 1
}

fn name_of(m: Member) -> u32
    ensures { (result ≡ name_of m) × (result ≤ 65535) }
{
    match m {
        Member::Method { name, .. } | Member::Field { name, .. } => name as u32,
    }
}

// The rows that a member mentions are below row i.
pub fn mentions_below(i: usize, m: Member) -> bool
    ensures { result ≡ mentions_below i m }
{
    match m {
        Member::Method {
            argument,
            result,
            ..
        } => (argument as usize) < i && (result as usize) < i,
        Member::Field { row, .. } => (row as usize) < i,
    }
}

// Row i is complete after its member j, and has a twin.
pub fn completes_twin(work: &[u16], i: usize, j: usize, count: usize) -> bool
    requires { (i < 64) × (j < 8) × (cell_of work.now (member_count_address i) ≤ 8) × (work_size ≤ length work.now) }
    ensures { result ≡ (eqb (suc j) count && twin (rows_in work.now i) (row_in work.now i)) }
{
    j + 1 == count && row_twins::has_twin(work, i)
}

// Row i has no members, and a twin.
pub fn lone_twin(work: &[u16], i: usize, count: usize) -> bool
    requires { (i < 64) × (cell_of work.now (member_count_address i) ≤ 8) × (work_size ≤ length work.now) }
    ensures { result ≡ (eqb count 0 && twin (rows_in work.now i) (row_in work.now i)) }
{
    count == 0 && row_twins::has_twin(work, i)
}
