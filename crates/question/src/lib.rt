// How every question tests its buffers, answers, and clears the work buffer before it returns; what it promises is in specs/Asked.
#![tactic(auto)]

ghost use Rattle.std.specs.Prelude.{◌≡◌, ◌&&◌, ◌≤◌, ◌<◌, leb, length, true, false, List, ℕ};
ghost use Rattle.question.specs.Asked.{enough as long_enough, AnswersInto};
ghost use Rattle.std.specs.Fn.{FnOnceReturnsAtMut};
ghost use Rattle.question.specs.Cleared.{cleared};
ghost use Rattle.table.specs.Layout.{work_size};

use table::layout::WORK_SIZE;

// A work buffer of this length is long enough, and so is a result buffer where `size` numbers are asked of it.
pub fn enough(work: usize, size: usize, res: usize) -> bool
    ensures { result ≡ (leb work_size work && leb size res) }
{
    WORK_SIZE <= work && size <= res
}

// Sets the buffer's first 32,768 numbers to 0.
pub fn clear(work: &mut [u16])
    requires { work_size ≤ length work.old }
    ensures { work.new ≡ cleared work.old }
{
    work[..WORK_SIZE].fill(0);
}

// Asks a question in a work buffer and a result buffer: `short` where one of them is too short, and both are left as they were; else
// what `answer` answers in them, and the work buffer is cleared.
pub fn ask_into<T: Drop, F: FnOnce(&mut [u16], &mut [u16]) -> T>(
    work: &mut [u16],
    res: &mut [u16],
    size: usize,
    short: T,
    answer: F,
) -> T
    requires { (w r : _) → work_size ≤ length w.now → size ≤ length r.now → F.pre answer w r }
    ensures short { long_enough size work.old res.old ≡ false → (result ≡ short) × (work.new ≡ work.old) × (res.new ≡ res.old) }
    ensures told { long_enough size work.old res.old ≡ true → (w : List ℕ) × AnswersInto F.FnOnce answer work.old res.old result w res.new × (work.new ≡ cleared w) }
{
    if !enough(work.len(), size, res.len()) {
        return short;
    }
    let told = answer(work, res);
    clear(work);
    told
}

// Asks a question in a work buffer alone.
pub fn ask<T: Drop, F: FnOnce(&mut [u16]) -> T>(work: &mut [u16], short: T, answer: F) -> T
    requires { (w : _) → work_size ≤ length w.now → F.pre answer w }
    ensures short { length work.old < work_size → (result ≡ short) × (work.new ≡ work.old) }
    ensures told { work_size ≤ length work.old → (w : List ℕ) × FnOnceReturnsAtMut F.FnOnce answer work.old result w × (work.new ≡ cleared w) }
{
    ask_into(
        work,
        &mut [],
        0,
        short,
        |work: &mut [u16], _: &mut [u16]| -> T
            requires { (w : _) → w.now ≡ work.now → F.pre answer w }
        { answer(work) },
    )
}
