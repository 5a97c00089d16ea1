// The start of a half's turns, and its report.
ghost use Rattle.std.specs.Prelude.{◌≡◌, ◌≤◌, length};
ghost use Rattle.scans.specs.Half.{rows_of};
ghost use Rattle.turns.specs.Lent.{working, SameLists, Room};
ghost use Rattle.turns.specs.Runs.{Begins, end_of, TurnedHalf, report_by};

use crate::{Ended, WorkingLists, turns};
use machine::{FIXED, GUESSED, HalfReport, Word};
use scans::HalfRows;

// The closed rows taken up, then the turns.
pub fn turn_half(half: &HalfRows<'_>, budget: u8, limit: u16, lists: &mut WorkingLists<'_>) -> Ended
    requires room { Room half.now.n (rows_of half.now) (working lists.old) }
    ensures same { SameLists lists.old lists.new }
    ensures turned { TurnedHalf half.now.n (rows_of half.now) (Begins half.now.n (rows_of half.now) (working lists.old)) (end_of half.now.n (rows_of half.now) budget limit (working lists.old)) (working lists.old) (working lists.new) result }
{
    lists::clear(lists.forms, 0, 4 * half.n as usize);
    if lists.is_lit_closed(half) {
        return Ended {
            word: Word::None,
            turns: 0,
            live: 0,
        };
    }
    turns::run(half, budget, limit, 0, lists)
}

// The report of a half that ended so, with its marks.
pub fn report(n: u16, ended: Ended, lists: &WorkingLists<'_>) -> HalfReport
    requires { n ≤ length lists.now.marks.now }
    ensures { result ≡ report_by n ended lists.now.marks.now }
{
    let Ended { word, turns, live } = ended;
    HalfReport {
        word,
        fixed: lists.marked(n, FIXED),
        turns,
        guesses: lists.marked(n, GUESSED),
        live,
    }
}
