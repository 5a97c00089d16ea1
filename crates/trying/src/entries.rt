// What is kept of each row while the turns are tried: how many of its qubits are open, their sum, and the parity of the values of its settled ones.
ghost use Rattle.std.specs.Prelude.{◌≡◌, ◌≤◌, ◌<◌, length, get_or};
ghost use Rattle.machine.specs.Lists.{digit, lit?};
ghost use Rattle.trying.specs.Entries.{RowOpened, RowsOpened, RowSettled, RowsSettled};

use code::{Qubit, Row, Rows};

// Places in the work list: of each row the sum of its open qubits, and the parity of the values of its settled ones. The numbers are kept's.
pub const SUMS: usize = 9216;

pub const PARITIES: usize = 9728;

// 1 for a lit row, else 0.
pub fn lit_bit(lit: &[u8], r: Row) -> u64
    ensures { (result ≡ digit (lit? (get_or lit.now r.0 0))) × (result < 2) }
{
    let at = r.0 as usize;
    (at < lit.len() && lit[at] == 1) as u64
}

// Row r has the open qubit q more, if it is one of the half's that was read.
fn open_row(q: Qubit, r: Row, lit: &[u8], rows: Rows, work: &mut [u64])
    requires { (rows.count ≤ 512) × (10240 ≤ length work.old) }
    ensures { RowOpened q.0 r.0 rows.first.0 rows.count lit.now work.old work.new }
{
    let Some(i) = rows.place_of(r) else {
        return;
    };
    if !scans::is_read(lit, r) {
        return;
    }
    kept::raise(i, work);
    let at = SUMS + i.0 as usize;
    work[at] = (work[at] % 65536 + q.0 as u64) % 65536;
}

// Qubit q becomes open: each of these rows has it more.
pub fn open_rows(q: Qubit, on: &[u16], lit: &[u8], rows: Rows, work: &mut [u64])
    requires { (rows.count ≤ 512) × (10240 ≤ length work.old) }
    ensures { RowsOpened q.0 on.now rows.first.0 rows.count lit.now work.old work.new }
{
    for r in on {
        open_row(q, Row(*r), lit, rows, work);
    }
}

// Row r has the open qubit p less, which has value v, if it is one of the half's and has an open qubit: an unread row has none. False where this closed it and
// its side is 1.
fn settle_row(p: Qubit, v: u64, r: Row, lit: &[u8], rows: Rows, work: &mut [u64]) -> bool
    requires { (v < 2) × (rows.count ≤ 512) × (10240 ≤ length work.old) }
    ensures { RowSettled p.0 v r.0 rows.first.0 rows.count lit.now work.old work.new result }
{
    let Some(i) = rows.place_of(r) else {
        return true;
    };
    let at = i.0 as usize;
    if work[kept::NUMBERS + at] == 0 {
        return true;
    }
    let left = kept::lower(i, work);
    let sum = (work[SUMS + at] % 65536 + 65536 - p.0 as u64) % 65536;
    let parity = (work[PARITIES + at] % 2 + v) % 2;
    work[SUMS + at] = sum;
    work[PARITIES + at] = parity;
    left != 0 || parity == lit_bit(lit, r)
}

// Qubit p, which was open, has value v: each of these rows has it less. False where this closed one whose side is 1.
pub fn settle_rows(p: Qubit, v: u64, on: &[u16], lit: &[u8], rows: Rows, work: &mut [u64]) -> bool
    requires { (v < 2) × (rows.count ≤ 512) × (10240 ≤ length work.old) }
    ensures { RowsSettled p.0 v on.now rows.first.0 rows.count lit.now work.old work.new result }
{
    for r in on {
        if !settle_row(p, v, Row(*r), lit, rows, work) {
            return false;
        }
    }
    true
}
