// What is kept of a half's rows, made from the marks.
#![tactic(auto)]

ghost use Rattle.std.specs.Prelude.{◌≡◌, suc, ◌≤◌, ◌<◌, length};
ghost use Rattle.scans.specs.Half.{rows_of};
ghost use Rattle.filling.specs.Filling.{Beyond, Emptied, RowAdded, KeptTo, RowPut, RowsPut, QubitKept, QubitsKept, Room, Fills};

use code::{KindRow, Qubit, Row};
use machine::OPEN;
use scans::HalfRows;

// The sets of the open qubits and of the dangling rows are emptied.
fn empty_sets(n: usize, marks: &[u8], work: &mut [u64])
    requires { (n ≤ 1024) × (9216 ≤ length work.old) }
    ensures { Emptied n marks.now work.old work.new }
{
    for q in 0..n {
        if scans::is_open(n, marks, Qubit(q as u16)) {
            lists::clear(work, 8 * q, 8 * q + 8);
        }
    }
    lists::clear(work, kept::FIRST, kept::TOTAL + 1);
}

// Row i is on each of its open qubits; how many these are.
fn add_row(n: usize, i: KindRow, row: &[u16], marks: &[u8], work: &mut [u64]) -> u64
    requires { (n ≤ 1024) × (i.0 < 512) × (9216 ≤ length work.old) }
    ensures { RowAdded n i.0 row.now marks.now work.old work.new result }
{
    let mut open: u64 = 0;
    for &q in row {
        if scans::is_open(n, marks, Qubit(q)) {
            bitsets::flip(work, q, i.0);
            open += 1;
        }
    }
    open
}

// Row i, after those before it.
fn keep_row(half: &HalfRows<'_>, i: KindRow, marks: &[u8], work: &mut [u64])
    requires room { Room half.now.n (rows_of half.now) (length work.old) }
    requires within { i.0 < half.now.rows.count }
    requires kept_to { KeptTo i.0 half.now.n (rows_of half.now) marks.now work.old }
    ensures { (length work.new ≡ length work.old) × Beyond work.old work.new × KeptTo (suc i.0) half.now.n (rows_of half.now) marks.now work.new }
{
    let first = half.rows.first;
    let row = half.read_row(Row(first.0 + i.0));
    let open = add_row(half.n as usize, i, row, marks, work);
    let at = kept::NUMBERS + i.0 as usize;
    work[at] = open;
    if open == 1 {
        kept::change(i, true, work);
    }
}

// What is kept, row by row: every qubit of each row is looked at.
fn by_rows(half: &HalfRows<'_>, marks: &[u8], work: &mut [u64])
    requires { Room half.now.n (rows_of half.now) (length work.old) }
    ensures { (length work.new ≡ length work.old) × Beyond work.old work.new × KeptTo half.now.rows.count half.now.n (rows_of half.now) marks.now work.new }
{
    empty_sets(half.n as usize, marks, work);
    for i in 0..half.rows.count {
        keep_row(half, KindRow(i), marks, work);
    }
}

// Row r is put on qubit q and has an open qubit more, if it is one of the half's that was read.
fn put_row(half: &HalfRows<'_>, q: Qubit, r: Row, work: &mut [u64])
    ensures { RowPut q.0 r.0 half.now.rows.first.0 half.now.rows.count half.now.lit.now work.old work.new }
{
    let Some(i) = half.rows.place_of(r) else {
        return;
    };
    if scans::is_read(half.lit, r) {
        bitsets::flip(work, q.0, i.0);
        kept::raise(i, work);
    }
}

// Qubit q becomes open: its set is made anew of these rows, and each of them has an open qubit more.
fn put_rows(half: &HalfRows<'_>, q: Qubit, on: &[u16], work: &mut [u64])
    requires { Room half.now.n (rows_of half.now) (length work.old) }
    ensures { RowsPut q.0 on.now half.now.rows.first.0 half.now.rows.count half.now.lit.now work.old work.new }
{
    let start = 8 * (q.0 as usize);
    lists::clear(work, start, start + 8);
    for &r in on {
        put_row(half, q, Row(r), work);
    }
}

// The same with the rows on the qubit that are kept with the code. False where not all have a place.
fn keep_qubit(half: &HalfRows<'_>, q: Qubit, work: &mut [u64]) -> bool
    requires { Room half.now.n (rows_of half.now) (length work.old) }
    ensures { QubitKept q.0 half.now.code.ends.now half.now.rows.first.0 half.now.rows.count half.now.lit.now work.old work.new result }
{
    match incidence::rows_on(half.code.ends, q) {
        Some(on) => {
            put_rows(half, q, on, work);
            true
        }
        None => false,
    }
}

// What is kept, qubit by qubit: of the qubits that are not open only the mark is looked at. False where the rows on an open qubit are not all at hand: then it
// may be anything.
fn by_qubits(half: &HalfRows<'_>, marks: &[u8], work: &mut [u64]) -> bool
    requires { Room half.now.n (rows_of half.now) (length work.old) }
    ensures { QubitsKept half.now.n half.now.code.ends.now half.now.rows.first.0 half.now.rows.count half.now.lit.now marks.now work.old work.new result }
{
    let n = half.n as usize;
    if marks.len() < n {
        return false;
    }
    let count = half.rows.count;
    lists::clear(work, kept::NUMBERS, kept::NUMBERS + count as usize);
    for q in 0..n {
        if marks[q] == OPEN && !keep_qubit(half, Qubit(q as u16), work) {
            return false;
        }
    }
    kept::find_dangling(count, work);
    true
}

// Everything kept of the rows, from the marks.
pub fn fill(half: &HalfRows<'_>, marks: &[u8], work: &mut [u64])
    ensures { Fills half.now.n (rows_of half.now) marks.now work.old work.new }
{
    let enough = half.is_sized() & (kept::END <= work.len());
    if !enough {
        return;
    }
    if !by_qubits(half, marks, work) {
        by_rows(half, marks, work);
    }
}
