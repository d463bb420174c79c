// What reading stores: the headings of rows and forms, members, parts, instructions, and the sheet's counts.
ghost use Rattle.std.specs.Prelude.{◌≡◌, ◌<◌, ◌+◌, ◌≤◌, length, set};
ghost use Rattle.table.specs.Layout.{number_address, work_size};
ghost use Rattle.table.specs.Stores.{row_head_put, member_put, operation_put, three_put, heading_put, part_put, counts_put};
ghost use Rattle.table.specs.View.{kind_tag, operation_code};

use crate::forms::{form_address, part_address};
use crate::instrs::instr_address;
use crate::layout::{MAIN_COUNT_AT, NUMBERS, ROW_COUNT_AT};
use crate::put;
use crate::rows::{member_address, row_address};
use sheet_rules::{MemberKind, Operation};

// Three numbers, from a place on.
fn put_three(work: &mut [u16], at: usize, x: u16, y: u16, z: u16)
    requires { at + 3 ≤ length work.old }
    ensures { work.new ≡ three_put work.old at x y z }
{
    put(work, at, x);
    put(work, at + 1, y);
    put(work, at + 2, z);
}

// The heading of form f: its row, and how many kept values and parts it has.
pub fn put_heading(work: &mut [u16], f: usize, row: u16, keeps: u16, parts: u16)
    requires { (f < 64) × (work_size ≤ length work.old) }
    ensures { work.new ≡ heading_put work.old f row keeps parts }
{
    put_three(work, form_address(f), row, keeps, parts);
}

// The heading of row i: its kind and how many members it has.
pub fn put_row_head(work: &mut [u16], i: usize, kind: u16, members: u16)
    requires { (i < 64) × (work_size ≤ length work.old) }
    ensures { work.new ≡ row_head_put work.old i kind members }
{
    let at = row_address(i);
    put(work, at, kind);
    put(work, at + 1, members);
}

// How a member's kind is stored.
fn kind_tag(kind: MemberKind) -> u16
    ensures { result ≡ kind_tag kind }
{
    kind as u16
}

// Member j of row i: its kind, its name, and its one or two rows.
pub fn put_member(
    work: &mut [u16],
    i: usize,
    j: usize,
    kind: MemberKind,
    name: u16,
    first: u16,
    second: u16,
)
    requires { (i < 64) × (j < 8) × (work_size ≤ length work.old) }
    ensures { work.new ≡ member_put work.old i j kind name first second }
{
    let at = member_address(i, j);
    let tag = kind_tag(kind);
    put(work, at, tag);
    put(work, at + 1, name);
    put(work, at + 2, first);
    put(work, at + 3, second);
}

// How an operation is stored.
fn operation_code(operation: Operation) -> u16
    ensures { result ≡ operation_code operation }
{
    operation as u16
}

// The operation of instruction p, and how many numbers it has.
pub fn put_operation(work: &mut [u16], p: usize, operation: Operation, count: u16)
    requires { (p < 1024) × (work_size ≤ length work.old) }
    ensures { work.new ≡ operation_put work.old p operation count }
{
    let at = instr_address(p);
    let code = operation_code(operation);
    put(work, at, code);
    put(work, at + 1, count);
}

// Number k of instruction p.
pub fn put_number(work: &mut [u16], p: usize, k: usize, n: u16)
    requires { (p < 1024) × (k < 9) × (work_size ≤ length work.old) }
    ensures { work.new ≡ set work.old (number_address p k) n }
{
    let at = instr_address(p);
    put(work, at + (NUMBERS + k), n);
}

// Part j of form f: 0 and the kept value of an `init`; or 1, where a body's instructions begin, and how many they are.
pub fn put_part(work: &mut [u16], f: usize, j: usize, tag: u16, first: u16, second: u16)
    requires { (f < 64) × (j < 8) × (work_size ≤ length work.old) }
    ensures { work.new ≡ part_put work.old f j tag first second }
{
    put_three(work, part_address(f, j), tag, first, second);
}

// The sheet's counts: its rows and forms, where main's instructions begin, and how many they are.
pub fn put_counts(work: &mut [u16], rows: u16, forms: u16, start: u16, count: u16)
    requires { work_size ≤ length work.old }
    ensures { work.new ≡ counts_put work.old rows forms start count }
{
    put_three(work, ROW_COUNT_AT, rows, forms, start);
    put(work, MAIN_COUNT_AT, count);
}
