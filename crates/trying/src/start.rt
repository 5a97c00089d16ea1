// The start of a try: each qubit that is marked open is open; and its marks again, for a try that tells nothing.
ghost use Rattle.std.specs.Prelude.{◌≤◌, length, get_or};
ghost use Rattle.lists.specs.Filled.{Filled};
ghost use Rattle.closing.specs.Closing.{LitClosed};
ghost use Rattle.scans.specs.Half.{rows_of};
ghost use Rattle.turns.specs.Lent.{working, SameLists, Room};
ghost use Rattle.trying.specs.Start.{RowsCleared, MarkedOpened};
ghost use Rattle.trying.specs.Turns.{reopened};

use crate::entries;
use code::Qubit;
use machine::{OPEN, PEELED};
use scans::HalfRows;
use turns::WorkingLists;

// The numbers of so many rows while no qubit is open.
pub fn clear_rows(count: u16, work: &mut [u64])
    requires { (count ≤ 512) × (10240 ≤ length work.old) }
    ensures { RowsCleared count work.old work.new }
{
    let number = count as usize;
    lists::clear(work, kept::NUMBERS, kept::NUMBERS + number);
    lists::clear(work, entries::SUMS, entries::SUMS + number);
    lists::clear(work, entries::PARITIES, entries::PARITIES + number);
}

// The rows on each qubit that is marked open have it; how many qubits are, or nothing where not all rows on one are listed. Of any other qubit only the mark
// is looked at.
pub fn open_marked(half: &HalfRows<'_>, lists: &mut WorkingLists<'_>) -> Option<u16>
    requires { Room half.now.n (rows_of half.now) (working lists.old) }
    ensures same { SameLists lists.old lists.new }
    ensures opened { MarkedOpened half.now.n (rows_of half.now) (working lists.old) (working lists.new) result }
{
    let mut total: u16 = 0;
    let (ends, lit, rows) = (half.code.ends, half.lit, half.rows);
    for at in 0..half.n {
        if lists.marks[at as usize] == OPEN {
            let q = Qubit(at);
            let on = incidence::rows_on(ends, q)?;
            entries::open_rows(q, on, lit, rows, lists.work);
            total += 1;
        }
    }
    Some(total)
}

// Whether a lit row has no open qubit.
pub fn is_lit_closed(half: &HalfRows<'_>, lists: &WorkingLists<'_>) -> bool
    ensures { LitClosed half.now.lit.now half.now.rows.first.0 half.now.rows.count lists.now.work.now result }
{
    closing::lit_closed(half, lists.work)
}

// The first n marks, those of peeled qubits open again.
pub fn reopen(n: usize, marks: &mut [u8])
    requires { n ≤ length marks.old }
    ensures { Filled (λ q. reopened (get_or marks.old q 0)) n marks.old marks.new }
{
    for q in 0..n {
        marks[q] = if marks[q] == PEELED { OPEN } else { marks[q] };
    }
}
