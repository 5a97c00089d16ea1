// The code: its rows in lent lists, end to end, and the tests of one row.
#![tactic(auto)]

ghost use Rattle.std.specs.Prelude.{◌≡◌, ◌+◌, ◌<◌, ◌≤◌, ◌⊎◌, length, get_or, IfSome, IfNone};
ghost use Rattle.code.specs.Lists.{start_of, row_at};
ghost use Rattle.code.specs.Push.{Pushed};
ghost use Rattle.code.specs.Tests.{ascending?};

// A qubit's number.
#[derive(Clone, Copy)]
pub struct Qubit(pub u16);

// A row's place among all rows: the X rows from 0 on, then the Z rows.
#[derive(Clone, Copy)]
pub struct Row(pub u16);

// A row's number within its kind, as records give it: the X rows and the Z rows both count from 0.
#[derive(Clone, Copy)]
pub struct KindRow(pub u16);

// Rows that follow one another: the first and how many they are.
#[derive(Clone, Copy)]
pub struct Rows {
    pub first: Row,
    pub count: u16,
}

impl Rows {
    // The number of row r among these rows, if it is one of them.
    pub fn place_of(self, r: Row) -> Option<KindRow>
        ensures found { IfSome result (λ i. (r.0 ≡ self.first.0 + i.0) × (i.0 < self.count)) }
        ensures none { IfNone result ((r.0 < self.first.0) ⊎ (self.first.0 + self.count ≤ r.0)) }
    {
        if r.0 < self.first.0 {
            return None;
        }
        let place = r.0 - self.first.0;
        if self.count <= place {
            return None;
        }
        Some(KindRow(place))
    }
}

// Where row r ends; 0 for a row past the ends.
fn end_of(ends: &[u16], r: Row) -> usize
    ensures { (result ≡ get_or ends.now r.0 0) × (result < 65536) }
{
    ends.get(r.0 as usize).map_or(0, |end| *end as usize)
}

// Where row r starts: at the end of the row before it.
fn start_of(ends: &[u16], r: Row) -> usize
    ensures { (result ≡ start_of ends.now r.0) × (result < 65536) }
{
    if r.0 == 0 {
        return 0;
    }
    end_of(ends, Row(r.0 - 1))
}

// The lists of the code: the qubits of the rows, end to end, and where each row ends.
#[derive(Clone, Copy)]
pub struct CodeLists<'a> {
    pub flat: &'a [u16],
    pub ends: &'a [u16],
}

impl<'a> CodeLists<'a> {
    // The qubits of row r.
    pub fn row(&self, r: Row) -> &'a [u16]
        ensures { result.now ≡ row_at self.now.flat.now self.now.ends.now r.0 }
    {
        row_at(self.flat, self.ends, r)
    }
}

// The same of lists that need not live as long as one another.
pub fn row_at<'a>(flat: &'a [u16], ends: &[u16], r: Row) -> &'a [u16]
    ensures { result.now ≡ row_at flat.now ends.now r.0 }
{
    let start = start_of(ends, r);
    let end = end_of(ends, r);
    flat.get(start..end).unwrap_or(&[])
}

// The qubits as row r, with its end; false, and nothing written, without room.
pub fn push_row(flat: &mut [u16], ends: &mut [u16], r: Row, qubits: &[u16]) -> bool
    ensures { Pushed flat.old ends.old r.0 qubits.now result flat.new ends.new }
{
    let at = r.0 as usize;
    let start = start_of(ends, r);
    let stop = start + qubits.len();
    if ends.len() <= at || flat.len() < stop || 65535 < stop {
        return false;
    }
    flat[start..stop].copy_from_slice(qubits);
    ends[at] = stop as u16;
    true
}

// Whether the qubits are strictly ascending and below n.
pub fn ascending(n: u16, qubits: &[u16]) -> bool
    ensures { result ≡ ascending? n qubits.now }
{
    let mut least = 0;
    for &q in qubits {
        if q < least || n <= q {
            return false;
        }
        least = q + 1;
    }
    true
}
