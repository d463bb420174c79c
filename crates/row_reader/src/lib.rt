// The type rows, read into the table.
#![tactic(auto)]

ghost use Rattle.std.specs.Prelude.{◌≡◌, ◌≤◌, ◌<◌, ◌+◌, length};
ghost use Rattle.sheet_rules.specs.Reader.{nth};
ghost use Rattle.line_judges.specs.Told.{MemberShaped};
ghost use Rattle.row_reader.specs.Reads.{Headed, InRow, Kept, MemberRead, MembersRead, RowKept, RowRead, RowsRead};
ghost use Rattle.line_reader.specs.Told.{Room};
ghost use Rattle.table.specs.Layout.{work_size};

use line_reader::{Cursor, TakenLine};
use sheet_rules::{MemberKind, Place, Reason, Refusal};
use table::rows::wide;

// Which member is read: member j of row i, which has `count` of them.
#[derive(Clone, Copy, Debug, PartialEq, Eq)]
pub struct MemberAt {
    pub i: usize,
    pub j: usize,
    pub count: usize,
}

// Stores a judged member, read at a line of some number, and tests the row.
fn keep_member(
    work: &mut [u16],
    at: MemberAt,
    member: TakenLine,
    line: u32,
) -> Result<Cursor, Refusal>
    requires { InRow work.old at.i at.j at.count × MemberShaped member.place member.numbers × (member.next.line ≡ line + 1) }
    ensures { Kept at.i at.j member.place member.numbers line member.next work.old work.new result }
{
    let [name, first, second, ..] = member.numbers.values;
    let kind = line_judges::member_kind(member.place);
    table::stores::put_member(work, at.i, at.j, kind, name, first, second);
    if row_store::completes_twin(work, at.i, at.j, at.count) {
        return Err(Refusal {
            reason: Reason::DuplicateRow,
            line,
        });
    }
    let m = table::rows::member(work, at.i, at.j);
    if !row_store::mentions_below(at.i, m) {
        return Err(Refusal {
            reason: Reason::NotDefined,
            line,
        });
    }
    Ok(member.next)
}

// A member.
fn read_member(text: &[u8], work: &mut [u16], at: MemberAt, from: Cursor) -> Result<Cursor, Refusal>
    requires { Room text.now from × InRow work.old at.i at.j at.count }
    ensures { MemberRead text.now at.i at.j from work.old work.new result }
{
    let lowest = row_store::lowest_name(work, at.i, at.j);
    let wanted = Place::Member {
        kind: MemberKind::Method,
    };
    let member = line_reader::take_line(text, from, wanted, lowest)?;
    keep_member(work, at, member, from.line)
}

// The members of row i, whose heading is stored.
fn read_members(
    text: &[u8],
    work: &mut [u16],
    i: usize,
    count: usize,
    from: Cursor,
) -> Result<Cursor, Refusal>
    requires { Room text.now from × Headed work.old i count }
    ensures { MembersRead text.now i count from work.old work.new result }
{
    let mut here = from;
    for j in 0..count {
        here = read_member(text, work, MemberAt { i, j, count }, here)?;
    }
    Ok(here)
}

// Stores the heading of row i, read at a line of some number, and reads its members.
fn keep_row(
    text: &[u8],
    work: &mut [u16],
    i: usize,
    head: TakenLine,
    line: u32,
) -> Result<Cursor, Refusal>
    requires { Room text.now head.next × (head.next.line ≡ line + 1) × (i < 64) × (nth head.numbers.values 1 ≤ 8) × (work_size ≤ length work.old) }
    ensures { RowKept text.now i (nth head.numbers.values 0) (nth head.numbers.values 1) line head.next work.old work.new result }
{
    let [kind, count, ..] = head.numbers.values;
    table::stores::put_row_head(work, i, kind, count);
    let members = wide(count);
    if row_store::lone_twin(work, i, members) {
        return Err(Refusal {
            reason: Reason::DuplicateRow,
            line,
        });
    }
    read_members(text, work, i, members, head.next)
}

// Row i.
fn read_row(text: &[u8], work: &mut [u16], i: usize, from: Cursor) -> Result<Cursor, Refusal>
    requires { Room text.now from × (i < 64) × (work_size ≤ length work.old) }
    ensures { RowRead text.now i from work.old work.new result }
{
    let head = line_reader::take_line(text, from, Place::Row, 0)?;
    keep_row(text, work, i, head, from.line)
}

// The rows of a sheet, as many as its `types` line says.
pub fn read_rows(
    text: &[u8],
    work: &mut [u16],
    count: usize,
    from: Cursor,
) -> Result<Cursor, Refusal>
    requires { Room text.now from × (count ≤ 64) × (work_size ≤ length work.old) }
    ensures { RowsRead text.now count from work.old work.new result }
{
    let mut here = from;
    for i in 0..count {
        here = read_row(text, work, i, here)?;
    }
    Ok(here)
}
