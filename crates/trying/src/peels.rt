// The turns of a try.
ghost use Rattle.std.specs.Prelude.{◌*◌, ◌≤◌, ◌<◌, length, IfSome};
ghost use Rattle.kept.specs.Kept.{Lowest};
ghost use Rattle.scans.specs.Half.{rows_of};
ghost use Rattle.turns.specs.Lent.{working, SameLists, Room};
ghost use Rattle.trying.specs.Turns.{ValuePut, QubitSettled, PeelBy, Peels, RunTries};

use crate::{Peel, TryAnswer, entries};
use code::{KindRow, Qubit, Row};
use machine::{HalfReport, PEELED, Word};
use scans::HalfRows;
use turns::WorkingLists;

// The form of qubit p, which is 0, becomes value v.
fn put_value(n: usize, p: Qubit, v: u64, forms: &mut [u64])
    requires { (p.0 < n) × (4 * n ≤ length forms.old) }
    ensures { ValuePut n p.0 v forms.old forms.new }
{
    if v == 1 {
        forms::put_guess(n, 0, p, forms);
    }
}

// The open qubit p is settled with value v. False where a row that this closed has side 1, or where not all rows on p are listed.
fn settle(half: &HalfRows<'_>, p: Qubit, v: u64, lists: &mut WorkingLists<'_>) -> bool
    requires room { Room half.now.n (rows_of half.now) (working lists.old) }
    requires p_lt_n { (p.0 < half.now.n) × (v < 2) }
    ensures same { SameLists lists.old lists.new }
    ensures settled { QubitSettled half.now.n (rows_of half.now) p.0 v (working lists.old) (working lists.new) result }
{
    lists.marks[p.0 as usize] = PEELED;
    put_value(half.n as usize, p, v, lists.forms);
    let Some(on) = incidence::rows_on(half.code.ends, p) else {
        return false;
    };
    entries::settle_rows(p, v, on, half.lit, half.rows, lists.work)
}

// The lowest dangling row.
fn lowest_row(half: &HalfRows<'_>, lists: &WorkingLists<'_>) -> KindRow
    ensures { Lowest half.now.rows.count lists.now.work.now result.0 }
{
    kept::lowest(half.rows.count, lists.work)
}

// What a dangling row settles: its open qubit, with its side. That its sum is no open qubit is tested for altered lists alone.
fn peel_of(half: &HalfRows<'_>, i: KindRow, lists: &WorkingLists<'_>) -> Option<(Qubit, u64)>
    requires room { Room half.now.n (rows_of half.now) (working lists.now) }
    requires within { i.0 < half.now.rows.count }
    ensures { IfSome result (λ s. PeelBy half.now.n (rows_of half.now) (working lists.now) i.0 s.0.0 s.1) }
{
    let at = i.0 as usize;
    let sum = lists.work[entries::SUMS + at];
    if 1024 <= sum {
        return None;
    }
    let p = Qubit(sum as u16);
    if !scans::is_open(half.n as usize, lists.marks, p) {
        return None;
    }
    let first = half.rows.first;
    let lights = entries::lit_bit(half.lit, Row(first.0 + i.0));
    Some((p, (lists.work[entries::PARITIES + at] % 2 + lights) % 2))
}

// One turn: the lowest dangling row gives its open qubit its side.
fn peel_lowest(half: &HalfRows<'_>, lists: &mut WorkingLists<'_>) -> Peel
    requires { Room half.now.n (rows_of half.now) (working lists.old) }
    ensures same { SameLists lists.old lists.new }
    ensures peels { Peels half.now.n (rows_of half.now) (working lists.old) (working lists.new) result }
{
    let i = lowest_row(half, lists);
    if half.rows.count <= i.0 {
        return Peel::NoRow;
    }
    let Some((p, v)) = peel_of(half, i, lists) else {
        return Peel::Unknown;
    };
    if !settle(half, p, v, lists) {
        return Peel::Unknown;
    }
    Peel::Made
}

// Turns until no qubit is left, or no row dangles, or the limit is reached. fixed: how many qubits are; unsettled: how many are open.
pub fn run(
    half: &HalfRows<'_>,
    limit: u16,
    fixed: u16,
    unsettled: u16,
    lists: &mut WorkingLists<'_>,
) -> TryAnswer
    requires { Room half.now.n (rows_of half.now) (working lists.old) }
    ensures same { SameLists lists.old lists.new }
    ensures tries { RunTries half.now.n (rows_of half.now) limit fixed unsettled (working lists.old) (working lists.new) result }
{
    for turns in 0..unsettled {
        if turns == limit {
            return TryAnswer::Unknown;
        }
        match peel_lowest(half, lists) {
            Peel::Unknown => {
                return TryAnswer::Unknown;
            }
            Peel::NoRow => {
                return TryAnswer::Left(turns);
            }
            Peel::Made => {}
        }
    }
    TryAnswer::Over(HalfReport {
        word: Word::Certain,
        fixed,
        turns: unsettled,
        guesses: 0,
        live: 0,
    })
}
