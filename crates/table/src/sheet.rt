// The sheet that a work buffer holds, to be read: its rows, forms, instructions and devices by number. Where
// nothing is asked of a number, one that is not there is answered as the rules answer it.
ghost use Rattle.std.specs.Prelude.{◌≡◌, ◌≤◌, ◌<◌, length, get_or};
ghost use Rattle.sheet_rules.specs.RowLines.{name_of};
ghost use Rattle.sheet_rules.specs.Sheet.{row_at, form_at, device_at, no_member};
ghost use Rattle.table.specs.Layout.{main_start_at, main_count_at, device_count_at, work_size};
ghost use Rattle.table.specs.Told.{new_slots, instr_told, part_told};
ghost use Rattle.table.specs.View.{cell as cell_of, part_in, instr_in, sheet_in};
ghost use Rattle.table.specs.Whole.{Whole};

use crate::forms::{PartPlace, kept};
use crate::instrs::Instruction;
use crate::rows::row_kind;
use sheet_rules::{Kind, Member};
use std::marker::Model;

// A work buffer that is known to hold a sheet; in promises it is the list of its numbers.
#[derive(Drop)]
pub struct Sheet<'a> {
    work: &'a [u16],
}

impl<'a> Model for Sheet<'a> {
    ghost use Rattle.std.specs.Prelude.{List, ℕ};
    ghost use Rattle.table.specs.Whole.{Whole};

    ghost Value = { List ℕ };

    ghost view = { λ s. s.work.now };

    ghost invariant = { λ s. Whole s.work.now };
}

impl<'a> Sheet<'a> {
    pub fn of(work: &'a [u16]) -> Sheet<'a>
        requires { Whole work.now }
        ensures { result ≡ work.now }
    {
        Sheet { work }
    }

    // The buffer's numbers.
    pub fn numbers(&self) -> &[u16]
        ensures same { result.now ≡ self.now }
        ensures size { work_size ≤ length result.now }
        ensures whole { Whole self.now }
    {
        self.work
    }

    // How many rows it has.
    pub fn row_count(&self) -> usize
        ensures { (result ≡ length (sheet_in self.now).rows) × (result ≤ 64) }
    {
        crate::rows::row_count(self.work)
    }

    // How many members row a has.
    pub fn members_at(&self, a: usize) -> usize
        ensures { (result ≡ length (row_at (sheet_in self.now).rows a).members) × (result ≤ 8) × Whole self.now }
    {
        crate::rows::members_at(self.work, a)
    }

    // The kind of row a.
    #[tactic(auto, using(crate::proofs::SheetLaws::row_there, crate::proofs::SheetLaws::row_missing, crate::proofs::SheetLaws::rows_few))]
    pub fn kind_at(&self, a: usize) -> Kind
        ensures { result ≡ (row_at (sheet_in self.now).rows a).kind }
    {
        if self.row_count() <= a {
            return Kind::Pure;
        }
        row_kind(self.work, a)
    }

    // Member j of row i.
    pub fn member(&self, i: usize, j: usize) -> Member
        requires { j < length (row_at (sheet_in self.now).rows i).members }
        ensures { result ≡ get_or (row_at (sheet_in self.now).rows i).members j no_member }
    {
        crate::rows::member(self.work, i, j)
    }

    // The name of member j of row i.
    pub fn member_name(&self, i: usize, j: usize) -> u16
        requires { j < length (row_at (sheet_in self.now).rows i).members }
        ensures { result ≡ name_of (get_or (row_at (sheet_in self.now).rows i).members j no_member) }
    {
        crate::rows::member_name(self.work, i, j)
    }

    // How many forms it has.
    pub fn form_count(&self) -> usize
        ensures { (result ≡ length (sheet_in self.now).forms) × (result ≤ 64) × Whole self.now }
    {
        crate::forms::form_count(self.work)
    }

    // The row of form f.
    pub fn form_row(&self, f: usize) -> u16
        ensures { result ≡ (form_at (sheet_in self.now) f).row }
    {
        crate::forms::form_row(self.work, f)
    }

    // How many values form f keeps, for a form that is known to be there: nothing is tested.
    pub fn keeps_of(&self, f: usize) -> usize
        requires { f < length (sheet_in self.now).forms }
        ensures { (result ≡ length (form_at (sheet_in self.now) f).keeps) × (result ≤ 8) }
    {
        crate::forms::keeps_of(self.work, f)
    }

    // How many values form f keeps.
    #[tactic(auto, using(crate::proofs::SheetLaws::form_missing))]
    pub fn keep_count(&self, f: usize) -> usize
        ensures { (result ≡ length (form_at (sheet_in self.now) f).keeps) × (result ≤ 8) }
    {
        if self.form_count() <= f {
            return 0;
        }
        self.keeps_of(f)
    }

    // The row of kept value j of form f.
    #[tactic(auto, using(crate::proofs::InstrLaws::slot_missing))]
    pub fn keep(&self, f: usize, j: usize) -> u16
        ensures { result ≡ get_or (form_at (sheet_in self.now) f).keeps j 0 }
    {
        if self.keep_count(f) <= j {
            return 0;
        }
        kept(self.work, f, j)
    }

    // Part j of form f.
    pub fn part(&self, f: usize, j: usize) -> PartPlace
        requires { (f < 64) × (j < 8) }
        ensures { part_told self.now result ≡ part_in self.now f j }
    {
        crate::forms::part(self.work, f, j)
    }

    // The instruction at place p of the pool.
    pub fn instr_at(&self, p: usize) -> Instruction
        ensures { instr_told (new_slots self.now p) result ≡ instr_in self.now p }
    {
        crate::instrs::instr_at(self.work, p)
    }

    // How many slots the `new` at place p of the pool names.
    pub fn new_slot_count(&self, p: usize) -> usize
        ensures { (result ≡ length (new_slots self.now p)) × (result ≤ 8) }
    {
        crate::instrs::new_slot_count(self.work, p)
    }

    // Slot k that the `new` at place p of the pool names.
    pub fn new_slot(&self, p: usize, k: usize) -> u16
        ensures { result ≡ get_or (new_slots self.now p) k 0 }
    {
        crate::instrs::new_slot(self.work, p, k)
    }

    // Where main's instructions begin.
    pub fn main_start(&self) -> u16
        ensures { result ≡ cell_of self.now main_start_at }
    {
        crate::instrs::main_start(self.work)
    }

    // How many instructions main has.
    pub fn main_count(&self) -> usize
        ensures { (result ≡ cell_of self.now main_count_at) × (result ≤ 32) }
    {
        crate::instrs::main_count(self.work)
    }

    // How many devices it has.
    pub fn device_count(&self) -> u16
        ensures { result ≡ cell_of self.now device_count_at }
    {
        crate::devices::device_count(self.work)
    }

    // The form of device i.
    pub fn device_form(&self, i: usize) -> u16
        requires { i < length (sheet_in self.now).devices }
        ensures { result ≡ device_at (sheet_in self.now) i }
    {
        crate::devices::device_form(self.work, i)
    }
}
