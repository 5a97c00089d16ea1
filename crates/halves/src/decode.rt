// The decode of a half: its start and its turns, those without a guess tried first, and what it leaves in its lists.
ghost use Rattle.std.specs.Prelude.{◌≡◌, ℕ, ◌*◌, ◌^◌, ◌≤◌, ◌<◌, length, get_or};
ghost use Rattle.machine.specs.Lent.{half_lists};
ghost use Rattle.scans.specs.Half.{rows_of};
ghost use Rattle.scans.specs.Scans.{count_marks};
ghost use Rattle.filling.specs.Filling.{Fills};
ghost use Rattle.turns.specs.Lent.{working, SameLists};
ghost use Rattle.halves.specs.Decode.{given, enough_in?};
ghost use Rattle.halves.specs.Starts.{working_of, HalfRoom, HalfRan, Finished};

use crate::fills;
use code::Rows;
use machine::{FIXED, HalfReport, LentHalf, Word};
use scans::HalfRows;
use trying::TryAnswer;
use turns::WorkingLists;

// What a half leaves in its lists by its word: the correction of a finished one, none of another; after none, nothing at all. words: what the type of the forms says, for a caller
// that has them behind a reference.
pub fn finish(n: usize, word: Word, marks: &mut [u8], forms: &mut [u64], correction: &mut [u8])
    requires { (n ≤ length marks.old) × (4 * n ≤ length forms.old) × (n ≤ length correction.old) }
    ensures words { (i : ℕ) → get_or forms.new i 0 < 2 ^ 64 }
    ensures finished { Finished n word (record { marks = marks.entry.now; forms = forms.old; correction = correction.old }) (record { marks = marks.exit.now; forms = forms.new; correction = correction.new }) }
{
    if machine::is_finished(word) {
        fills::write_flips(n, forms, correction);
        return;
    }
    lists::clear(correction, 0, n);
    if let Word::None = word {
        lists::clear(marks, 0, n);
        lists::clear(forms, 0, 4 * n);
    }
}

// Whether the sizes are document 01's and the lists long enough.
pub fn is_enough(
    half: &HalfRows<'_>,
    lost: &[u8],
    others: Rows,
    work: &[u64],
    lists: &LentHalf<'_>,
) -> bool
    ensures { (budget limit : ℕ) → result ≡ enough_in? (given half.now lost.now others budget limit) (length work.now) (half_lists lists.now) }
{
    let size = half.n as usize;
    let rows = half.rows;
    let first = rows.first;
    let other = others.first;
    let last = first.0 as usize + rows.count as usize;
    let small = (half.n <= 1024)
        & (rows.count <= 512)
        & (others.count <= 512)
        & (first.0 <= 512)
        & (other.0 <= 512);
    let shot = small & (10240 <= work.len()) & (size <= lost.len()) & (last <= half.lit.len());
    shot & (size <= lists.marks.len())
        & (4 * size <= lists.forms.len())
        & (size <= lists.correction.len())
}

// How many qubits are marked fixed.
fn fixed(n: u16, lists: &WorkingLists<'_>) -> u16
    ensures { result ≡ count_marks n lists.now.marks.now 1 }
{
    scans::count_marks(n, lists.marks, FIXED)
}

// What is kept of the rows, made from the marks.
fn fill(half: &HalfRows<'_>, marks: &mut [u8], work: &mut [u64])
    ensures marks { marks.new ≡ marks.old }
    ensures fills { Fills half.now.n (rows_of half.now) marks.old work.old work.new }
{
    filling::fill(half, marks, work);
}

// A half of which peeling leaves a qubit: its start by the search, and its turns, those up to the first guess by the numbers of the rows.
fn search_and_turn(
    half: &HalfRows<'_>,
    lost: &[u8],
    others: Rows,
    budget: u8,
    limit: u16,
    lists: &mut WorkingLists<'_>,
) -> Option<HalfReport>
    requires { HalfRoom half.now.n (rows_of half.now) lost.now others.first.0 others.count (working lists.old) }
    ensures same { SameLists lists.old lists.new }
    ensures ran { HalfRan half.now.n (rows_of half.now) lost.now others.first.0 others.count budget limit (working lists.old) (working lists.new) result }
{
    starting::mark_start(half.n, &half.code, lost, others, lists.work, lists.marks);
    let fixed = fixed(half.n, lists);
    match trying::try_turns(half, limit, fixed, lists) {
        TryAnswer::Over(told) => Some(told),
        TryAnswer::Left(made) => {
            fill(half, lists.marks, lists.work);
            turns::go_on(half, budget, limit, made, lists)
        }
        TryAnswer::Unknown => {
            fill(half, lists.marks, lists.work);
            turns::run_turns(half, budget, limit, lists)
        }
    }
}

// The start and the turns of a half. First a try, as if no qubit were fixed: where it is over, peeling left nothing, no qubit is fixed and none is guessed, and the
// half ends so. Where a qubit is left, the search is made.
fn start_and_turn(
    half: &HalfRows<'_>,
    lost: &[u8],
    others: Rows,
    budget: u8,
    limit: u16,
    lists: &mut WorkingLists<'_>,
) -> Option<HalfReport>
    requires { HalfRoom half.now.n (rows_of half.now) lost.now others.first.0 others.count (working lists.old) }
    ensures same { SameLists lists.old lists.new }
    ensures ran { HalfRan half.now.n (rows_of half.now) lost.now others.first.0 others.count budget limit (working lists.old) (working lists.new) result }
{
    starting::open_marks(half.n, lost, lists.marks);
    match trying::try_turns(half, limit, 0, lists) {
        TryAnswer::Over(told) => Some(told),
        TryAnswer::Left(_) => search_and_turn(half, lost, others, budget, limit, lists),
        TryAnswer::Unknown => {
            starting::start(half, lost, others, lists.work, lists.marks);
            turns::run_turns(half, budget, limit, lists)
        }
    }
}

// The start and the turns of a half, in its lists.
pub fn run_half<'a>(
    half: &HalfRows<'_>,
    lost: &[u8],
    others: Rows,
    budget: u8,
    limit: u16,
    work: &'a mut [u64],
    marks: &'a mut [u8],
    forms: &'a mut [u64],
) -> Option<HalfReport>
    requires { HalfRoom half.now.n (rows_of half.now) lost.now others.first.0 others.count (working_of marks.old forms.old work.old) }
    ensures { HalfRan half.now.n (rows_of half.now) lost.now others.first.0 others.count budget limit (working_of marks.old forms.old work.old) (working_of marks.new forms.new work.new) result }
{
    let mut lists = WorkingLists { marks, forms, work };
    start_and_turn(half, lost, others, budget, limit, &mut lists)
}
