// A half's rows and marks read: whether a qubit is open, a row's qubits if it was read, its first open qubit, how many qubits have a mark.
#![tactic(auto)]

ghost use Rattle.std.specs.Prelude.{◌≡◌};
ghost use Rattle.machine.specs.Machine.{is_open};
ghost use Rattle.machine.specs.Lists.{view};
ghost use Rattle.scans.specs.Rows.{read?, read_row};
ghost use Rattle.scans.specs.Half.{rows_of, sized?};
ghost use Rattle.scans.specs.Scans.{OpenFrom, count_marks};

use code::{CodeLists, Qubit, Row, Rows};
use machine::OPEN;

// A half's rows in the lists of a code of n qubits, with their readings.
#[derive(Clone, Copy)]
pub struct HalfRows<'a> {
    pub n: u16,
    pub code: CodeLists<'a>,
    pub lit: &'a [u8],
    pub rows: Rows,
}

impl<'a> HalfRows<'a> {
    // Whether the sizes are document 01's, and each row has its reading.
    pub fn is_sized(&self) -> bool
        ensures { result ≡ sized? self.now.n (rows_of self.now) }
    {
        let rows = self.rows;
        let first = rows.first;
        let last = first.0 as usize + rows.count as usize;
        (self.n <= 1024) & (rows.count <= 512) & (last <= 1024) & (last <= self.lit.len())
    }

    // The row's qubits; an unread row is left out of the half's matrix, and has none.
    pub fn read_row(&self, r: Row) -> &'a [u16]
        ensures { result.now ≡ read_row self.now.code.flat.now self.now.code.ends.now self.now.lit.now r.0 }
    {
        read_row(self.code.flat, self.code.ends, self.lit, r)
    }
}

// Whether the qubit is open.
pub fn is_open(n: usize, marks: &[u8], q: Qubit) -> bool
    ensures { result ≡ is_open (view n marks.now) q.0 }
{
    let at = q.0 as usize;
    at < n && at < marks.len() && marks[at] == OPEN
}

// Whether the row was read.
pub fn is_read(lit: &[u8], r: Row) -> bool
    ensures { result ≡ read? lit.now r.0 }
{
    let at = r.0 as usize;
    lit.len() <= at || lit[at] != 2
}

// A row's qubits if it was read, of lists that need not live as long as one another.
pub fn read_row<'a>(flat: &'a [u16], ends: &[u16], lit: &[u8], r: Row) -> &'a [u16]
    ensures { result.now ≡ read_row flat.now ends.now lit.now r.0 }
{
    if is_read(lit, r) {
        return code::row_at(flat, ends, r);
    }
    &[]
}

// The place of the row's first open qubit; the row's length if there is none.
pub fn first_open(n: usize, row: &[u16], marks: &[u8]) -> usize
    ensures { OpenFrom (is_open (view n marks.now)) row.now 0 result }
{
    for i in 0..row.len() {
        if is_open(n, marks, Qubit(row[i])) {
            return i;
        }
    }
    row.len()
}

// How many qubits have mark m; 0 where the list is short. The sum is of the marks' own width, so that many are counted at once.
pub fn count_marks(n: u16, marks: &[u8], m: u8) -> u16
    ensures { result ≡ count_marks n marks.now m }
{
    let size = n as usize;
    if marks.len() < size {
        return 0;
    }
    let mut total: u16 = 0;
    for q in 0..size {
        if marks[q] == m {
            total += 1;
        }
    }
    total
}
