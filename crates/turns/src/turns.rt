// The turns of a half.
ghost use Rattle.std.specs.Prelude.{◌≡◌, true, false, ◌<◌, ◌≤◌, eqb, length};
ghost use Rattle.machine.specs.Words;
ghost use Rattle.scans.specs.Half.{rows_of};
ghost use Rattle.guessing.specs.Guessing.{WeighRoom};
ghost use Rattle.turns.specs.Lent.{working, SameLists, Room};
ghost use Rattle.turns.specs.Turns.{Unsettled, Turned, Settled, peel_by, guess_by, WeighedOnce, Guessed, Moved, RunEnds};

use crate::{Ended, Move, WorkingLists};
use code::{Qubit, Row};
use forms::Check;
use machine::{GUESSED, OPEN, PEELED, Word};
use scans::HalfRows;

// The open qubit p, whose form is put, gets a mark; then the rows that this turn closed are taken up, and the weights follow, if they are kept.
fn settle(
    half: &HalfRows<'_>,
    p: Qubit,
    mark: u8,
    live: u16,
    weighed: bool,
    lists: &mut WorkingLists<'_>,
) -> Option<u16>
    requires room { Room half.now.n (rows_of half.now) (working lists.old) }
    requires unsettled { Unsettled half.now.n lists.old.marks.now p.0 }
    requires settles { eqb mark 4 ≡ false }
    ensures same { SameLists lists.old lists.new }
    ensures settled { Settled half.now.n (rows_of half.now) p.0 mark live weighed (working lists.old) (working lists.new) result }
{
    lists.marks[p.0 as usize] = mark;
    let taken = closing::close_rows(half.n as usize, half, p, live, lists.work, lists.forms);
    if weighed {
        guessing::renew(half.n as usize, half, p, lists.work);
    }
    taken
}

// The dangling row r gives its open qubit p the row's side.
fn peel(
    half: &HalfRows<'_>,
    r: Row,
    p: Qubit,
    live: u16,
    weighed: bool,
    lists: &mut WorkingLists<'_>,
) -> Option<u16>
    requires room { Room half.now.n (rows_of half.now) (working lists.old) }
    requires unsettled { Unsettled half.now.n lists.old.marks.now p.0 }
    requires has_lit { r.0 < length half.now.lit.now }
    ensures same { SameLists lists.old lists.new }
    ensures turned { Turned half.now.n (rows_of half.now) live weighed (peel_by half.now.n (rows_of half.now) p.0 r.0) (working lists.old) (working lists.new) result }
{
    let check = Check {
        row: half.code.row(r),
        lit: half.lit[r.0 as usize] == 1,
    };
    forms::put_side(half.n as usize, &check, live, p, lists.forms);
    settle(half, p, PEELED, live, weighed, lists)
}

// The open qubit p becomes a new live guess. The weights are kept.
fn guess(half: &HalfRows<'_>, p: Qubit, live: u16, lists: &mut WorkingLists<'_>) -> Option<u16>
    requires room { Room half.now.n (rows_of half.now) (working lists.old) }
    requires unsettled { Unsettled half.now.n lists.old.marks.now p.0 }
    requires live_bound { live < 255 }
    ensures same { SameLists lists.old lists.new }
    ensures turned { Turned half.now.n (rows_of half.now) live true (guess_by half.now.n (rows_of half.now) p.0) (working lists.old) (working lists.new) result }
{
    let newest = live + 1;
    forms::put_guess(half.n as usize, newest, p, lists.forms);
    settle(half, p, GUESSED, newest, true, lists)
}

// The weights are counted, unless they are kept.
fn weigh_once(half: &HalfRows<'_>, weighed: bool, work: &mut [u64])
    requires { WeighRoom half.now.n (rows_of half.now) work.old }
    ensures { WeighedOnce half.now.n (rows_of half.now) weighed work.old work.new }
{
    if !weighed {
        guessing::weigh(half.n as usize, half, work);
    }
}

// The open qubit that frees most rows becomes a new live guess. At the first guess of a half the weights are counted.
fn guess_freest(
    half: &HalfRows<'_>,
    live: u16,
    weighed: bool,
    lists: &mut WorkingLists<'_>,
) -> Option<Move>
    requires room { Room half.now.n (rows_of half.now) (working lists.old) }
    requires live_bound { live < 255 }
    ensures same { SameLists lists.old lists.new }
    ensures guessed { Guessed half.now.n (rows_of half.now) live weighed (working lists.old) (working lists.new) result }
{
    weigh_once(half, weighed, lists.work);
    let p = lists.freest(half.n)?;
    let taken = guess(half, p, live, lists);
    Some(Move {
        taken,
        weighed: true,
    })
}

// One turn: the lowest dangling row gives its open qubit the row's side; if no row dangles, a qubit is guessed, unless the budget is spent: then none is made. That
// a dangling row has no open qubit is tested for altered lists alone.
fn make_turn(
    half: &HalfRows<'_>,
    budget: u8,
    live: u16,
    weighed: bool,
    lists: &mut WorkingLists<'_>,
) -> Option<Move>
    requires room { Room half.now.n (rows_of half.now) (working lists.old) }
    ensures same { SameLists lists.old lists.new }
    ensures moved { Moved half.now.n (rows_of half.now) budget live weighed (working lists.old) (working lists.new) result }
{
    let rows = half.rows;
    let i = lists.lowest(rows.count);
    if rows.count <= i.0 {
        if budget as u16 <= live {
            return None;
        }
        return guess_freest(half, live, weighed, lists);
    }
    let r = Row(rows.first.0 + i.0);
    let row = half.code.row(r);
    let at = lists.first_open(half.n, row);
    if row.len() <= at {
        return None;
    }
    let taken = peel(half, r, Qubit(row[at]), live, weighed, lists);
    Some(Move { taken, weighed })
}

// A finished half is certain with no live guess, unsure otherwise.
fn finished(turns: u16, live: u16) -> Ended
    ensures { result ≡ record { word = Words.finished live; turns = turns; live = live } }
{
    let word = if live == 0 {
        Word::Certain
    } else {
        Word::Unsure
    };
    Ended { word, turns, live }
}

// Turns, after so many that were made before, until a test before a turn ends the half, or a row that is taken up. Each settles a qubit.
pub fn run(
    half: &HalfRows<'_>,
    budget: u8,
    limit: u16,
    made: u16,
    lists: &mut WorkingLists<'_>,
) -> Ended
    requires room { Room half.now.n (rows_of half.now) (working lists.old) }
    requires made_le_limit { made ≤ limit }
    ensures same { SameLists lists.old lists.new }
    ensures ends { RunEnds half.now.n (rows_of half.now) budget limit made 0 (working lists.old) (working lists.new) result }
{
    let mut live: u16 = 0;
    let mut weighed = false;
    let unsettled = lists.marked(half.n, OPEN);
    for i in 0..unsettled {
        let turns = made + i;
        if turns == limit {
            let word = Word::Stopped;
            return Ended { word, turns, live };
        }
        let Some(moved) = make_turn(half, budget, live, weighed, lists) else {
            let word = Word::Spent;
            return Ended { word, turns, live };
        };
        let Some(now) = moved.taken else {
            return Ended {
                word: Word::None,
                turns: turns + 1,
                live: 0,
            };
        };
        live = now;
        weighed = moved.weighed;
    }
    finished(made + unsettled, live)
}
