// The guess rule: the open qubit on most rows that have exactly two open qubits; equals are settled by most rows of the half, then by the lowest number. The work
// list has one number for each qubit from element 9216 on, its weight: 1024 for each such row on it, and 1 for each row.
#![tactic(auto)]

ghost use Rattle.std.specs.Prelude.{◌≡◌, ◌+◌, ◌≤◌, ◌<◌, length};
ghost use Rattle.machine.specs.Machine.{is_open, best};
ghost use Rattle.machine.specs.Lists.{view};
ghost use Rattle.code.specs.Lists.{row_at};
ghost use Rattle.scans.specs.Half.{rows_of};
ghost use Rattle.guessing.specs.Guessing.{share_of, change_of, AddedRow, WeighRoom, WeighedRows, RenewedRows, weighable?, Weighs, Renews, lighter, choice_of, namable?, heaviest};

use code::{Qubit, Row};
use scans::HalfRows;

// Where the work list has the weights.
const WEIGHTS: usize = 9216;

// A row with exactly two open qubits, in the weight of each of its qubits.
const PAIR: u64 = 1024;

// Sums are taken modulo this number, so that a row's share can be taken back.
const MODULUS: u64 = 4294967296;

// What a row adds at each of its qubits, by the number of its open qubits. A row without one is left out.
fn share(number: u64) -> u64
    ensures { result ≡ share_of number }
{
    match number {
        0 => 0,
        2 => PAIR + 1,
        _ => 1,
    }
}

// What a row adds when one of its qubits is settled, by the number that is left: it comes to two open qubits, or leaves them.
fn change(left: u64) -> u64
    ensures { result ≡ change_of left }
{
    match left {
        2 => PAIR,
        1 => MODULUS - PAIR,
        _ => 0,
    }
}

// The share is added at each of the row's qubits below n.
fn add(n: usize, row: &[u16], share: u64, work: &mut [u64])
    requires { (n ≤ 1024) × (10240 ≤ length work.old) × (share < 4294967296) }
    ensures { AddedRow n share row.now work.old work.new }
{
    for &qubit in row {
        let q = qubit as usize;
        if q < n {
            let at = WEIGHTS + q;
            work[at] = (work[at] % MODULUS + share) % MODULUS;
        }
    }
}

// The share is added at each of row r's qubits below n.
fn add_row(n: usize, half: &HalfRows<'_>, r: Row, share: u64, work: &mut [u64])
    requires { (n ≤ 1024) × (10240 ≤ length work.old) × (share < 4294967296) }
    ensures { AddedRow n share (row_at half.now.code.flat.now half.now.code.ends.now r.0) work.old work.new }
{
    if 0 < share {
        add(n, half.code.row(r), share, work);
    }
}

// The weights counted, from what is kept of the rows.
fn weigh_rows(n: usize, half: &HalfRows<'_>, work: &mut [u64])
    requires { WeighRoom n (rows_of half.now) work.old }
    ensures { WeighedRows n (rows_of half.now) work.old work.new }
{
    lists::clear(work, WEIGHTS, WEIGHTS + n);
    for i in 0..half.rows.count {
        let number = work[kept::NUMBERS + i as usize];
        add_row(n, half, Row(half.rows.first.0 + i), share(number), work);
    }
}

// The weights after qubit p is settled: of the rows on it, those that come to two open qubits, or leave them.
fn renew_rows(n: usize, half: &HalfRows<'_>, p: Qubit, work: &mut [u64])
    requires { WeighRoom n (rows_of half.now) work.old }
    ensures { RenewedRows n (rows_of half.now) p.0 work.old work.new }
{
    let rows = half.rows;
    let mut i = bitsets::next_in(work, p.0, 0, rows.count);
    while i < rows.count {
        let left = work[kept::NUMBERS + i as usize];
        add_row(n, half, Row(rows.first.0 + i), change(left), work);
        i = bitsets::next_in(work, p.0, i + 1, rows.count);
    }
}

// Whether the sizes are document 01's and the list long enough for weights.
fn can_weigh(n: usize, half: &HalfRows<'_>, work: &[u64]) -> bool
    ensures { result ≡ weighable? n (rows_of half.now) work.now }
{
    let rows = half.rows;
    let last = rows.first.0 as usize + rows.count as usize;
    (n <= 1024) & (rows.count <= 512) & (last <= 1024) & (10240 <= work.len())
}

// The weights counted, from what is kept of the rows. Nothing is written where a size is out of range or the list too short.
pub fn weigh(n: usize, half: &HalfRows<'_>, work: &mut [u64])
    ensures { Weighs n (rows_of half.now) work.old work.new }
{
    if can_weigh(n, half, work) {
        weigh_rows(n, half, work);
    }
}

// The weights after qubit p is settled, and what is kept of the rows is without it. Nothing is written where a size is out of range or the list too short.
pub fn renew(n: usize, half: &HalfRows<'_>, p: Qubit, work: &mut [u64])
    ensures { Renews n (rows_of half.now) p.0 work.old work.new }
{
    if can_weigh(n, half, work) {
        renew_rows(n, half, p, work);
    }
}

// The open qubit of the largest weight, the lowest of equals. The parts of the test are joined by `&` and `|`, which do not branch: no branch on a mark or
// on two weights could be foretold.
fn most(n: usize, marks: &[u8], work: &[u64]) -> Option<Qubit>
    requires { (n ≤ 1024) × (n ≤ length marks.now) × (10240 ≤ length work.now) }
    ensures { result ≡ choice_of (best (lighter work.now) n (is_open (view n marks.now))) }
{
    let mut at = n;
    let mut largest: u64 = 0;
    for q in 0..n {
        let weight = work[WEIGHTS + q];
        let more = (at == n) | (largest < weight);
        if (marks[q] == machine::OPEN) & more {
            at = q;
            largest = weight;
        }
    }
    if at == n {
        return None;
    }
    Some(Qubit(at as u16))
}

// Whether the sizes are document 01's and the lists long enough to name a qubit by.
fn can_name(n: u16, marks: &[u8], work: &[u64]) -> bool
    ensures { result ≡ namable? n marks.now work.now }
{
    (n <= 1024) & (n as usize <= marks.len()) & (10240 <= work.len())
}

// The qubit that the guess rule names: the open qubit of the largest weight, the lowest of equals; none where a size is out of range or a list too short.
pub fn most_open(n: u16, marks: &[u8], work: &[u64]) -> Option<Qubit>
    ensures { result ≡ heaviest n marks.now work.now }
{
    if can_name(n, marks, work) {
        return most(n as usize, marks, work);
    }
    None
}
