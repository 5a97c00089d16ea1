// The turns of a half, from the marks of its start, or from where turns without a guess led.
#![tactic(auto)]

ghost use Rattle.std.specs.Prelude.{◌≡◌, ◌&&◌, leb};
ghost use Rattle.machine.specs.Machine.{is_open};
ghost use Rattle.machine.specs.Lists.{view};
ghost use Rattle.scans.specs.Half.{rows_of};
ghost use Rattle.scans.specs.Scans.{OpenFrom, count_marks};
ghost use Rattle.kept.specs.Kept.{Lowest};
ghost use Rattle.guessing.specs.Guessing.{heaviest};
ghost use Rattle.closing.specs.Closing.{LitClosed};
ghost use Rattle.turns.specs.Lent.{working, SameLists};
ghost use Rattle.turns.specs.Runs.{enough?, Runs, GoesOn};

mod half;
mod turns;

use code::{KindRow, Qubit};
use machine::{HalfReport, Word};
use scans::HalfRows;

// The lists of a half while it is decoded.
#[derive(Drop)]
pub struct WorkingLists<'a> {
    pub marks: &'a mut [u8],
    pub forms: &'a mut [u64],
    pub work: &'a mut [u64],
}

// What is read of the lists while they are lent: a field that is read by itself would be lost to a proof.
impl<'a> WorkingLists<'a> {
    // How many qubits have mark m.
    fn marked(&self, n: u16, m: u8) -> u16
        ensures { result ≡ count_marks n self.now.marks.now m }
    {
        scans::count_marks(n, self.marks, m)
    }

    // Whether a lit row has no open qubit.
    fn is_lit_closed(&self, half: &HalfRows<'_>) -> bool
        ensures { LitClosed half.now.lit.now half.now.rows.first.0 half.now.rows.count self.now.work.now result }
    {
        closing::lit_closed(half, self.work)
    }

    // The lowest dangling row of so many; their number if none dangles.
    fn lowest(&self, count: u16) -> KindRow
        ensures { Lowest count self.now.work.now result.0 }
    {
        kept::lowest(count, self.work)
    }

    // The place of the row's first open qubit.
    fn first_open(&self, n: u16, row: &[u16]) -> usize
        ensures { OpenFrom (is_open (view n self.now.marks.now)) row.now 0 result }
    {
        scans::first_open(n as usize, row, self.marks)
    }

    // The qubit that the guess rule names.
    fn freest(&self, n: u16) -> Option<Qubit>
        ensures { result ≡ heaviest n self.now.marks.now self.now.work.now }
    {
        guessing::most_open(n, self.marks, self.work)
    }
}

// A turn: how many guesses are live after it, if none of the rows that it closed failed, and whether the weights are kept.
#[derive(Clone, Copy)]
struct Move {
    taken: Option<u16>,
    weighed: bool,
}

// How a half ended: the word, the turns made and the live guesses.
#[derive(Clone, Copy)]
struct Ended {
    word: Word,
    turns: u16,
    live: u16,
}

// Whether the sizes are document 01's and the lists long enough.
fn is_enough(half: &HalfRows<'_>, lists: &WorkingLists<'_>) -> bool
    ensures { result ≡ enough? half.now.n (rows_of half.now) (working lists.now) }
{
    let size = half.n as usize;
    let small = half.is_sized() & (half.rows.first.0 <= 512);
    small
        & (10240 <= lists.work.len())
        & (size <= lists.marks.len())
        & (4 * size <= lists.forms.len())
}

// From the marks of the start, and what is kept of the rows over them, the closed rows are taken up; then turns are made until a test before a turn ends
// the half, or a row that is taken up. Marks and forms are left as the half ended, and the work list with what is kept of the rows. None are made, and
// nothing is written, where a size is out of range or a list too short.
pub fn run_turns(
    half: &HalfRows<'_>,
    budget: u8,
    limit: u16,
    lists: &mut WorkingLists<'_>,
) -> Option<HalfReport>
    ensures same { SameLists lists.old lists.new }
    ensures runs { Runs half.now.n (rows_of half.now) budget limit (working lists.old) (working lists.new) result }
{
    if !is_enough(half, lists) {
        return None;
    }
    let ended = half::turn_half(half, budget, limit, lists);
    Some(half::report(half.n, ended, lists))
}

// The rest of a half after so many turns, none of them a guess: from its marks and forms, and what is kept of the rows over them. Nothing is written where a size is
// out of range or a list too short, or the limit is below these turns.
pub fn go_on(
    half: &HalfRows<'_>,
    budget: u8,
    limit: u16,
    made: u16,
    lists: &mut WorkingLists<'_>,
) -> Option<HalfReport>
    ensures same { SameLists lists.old lists.new }
    ensures goes_on { GoesOn half.now.n (rows_of half.now) budget limit made (working lists.old) (working lists.new) result }
{
    if !(is_enough(half, lists) & (made <= limit)) {
        return None;
    }
    let ended = turns::run(half, budget, limit, made, lists);
    Some(half::report(half.n, ended, lists))
}
