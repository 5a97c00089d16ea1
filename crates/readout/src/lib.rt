// The records of a shot: a lost qubit, a lit row, an unread row.
#![tactic(auto)]

ghost use Rattle.std.specs.Prelude.{◌≡◌, ◌≤◌, set};
ghost use Rattle.records.specs.Records.{lost};
ghost use Rattle.records.specs.History.{rows, size_of};
ghost use Rattle.records.specs.Lists.{first_numbers};
ghost use Rattle.readout.specs.Readout.{Begun, marked?, row_element, row_set, Marked, Adds};

use code::{KindRow, Qubit};
use lists::clear;
use records::{Answer, Pauli, Refusal, Reply, Sizes, State};
use rules::codeless;
use states::{opened, refused};

// What is told of a row: that it is lit, or that it was not read.
#[derive(Clone, Copy, PartialEq, Eq)]
pub enum RowReading {
    Lit,
    Unread,
}

impl RowReading {
    // A row's element.
    fn element(self) -> u8
        ensures { result ≡ row_element self }
    {
        match self {
            RowReading::Lit => 1,
            RowReading::Unread => 2,
        }
    }
}

// A list that an earlier shot left is cleared, so that it holds this one.
pub fn begin(st: State, shot: &mut [u8])
    ensures { Begun st shot.old shot.new }
{
    if st.stale {
        let sizes = st.sizes;
        let rows = sizes.x as usize + sizes.z as usize;
        clear(shot, 0, sizes.n as usize);
        clear(shot, 1024, 1024 + rows);
    }
}

// Whether the list marks an element for this shot; what an earlier shot left does not count.
fn marked(stale: bool, shot: &[u8], at: usize) -> bool
    ensures { result ≡ marked? stale shot.now at }
{
    !stale && shot.get(at).copied().unwrap_or(0) != 0
}

// An element marked.
fn mark(list: &mut [u8], at: usize, element: u8)
    ensures { list.new ≡ set list.old at element }
{
    if at < list.len() {
        list[at] = element;
    }
}

// Number k, of `count`, of a set that has this element, of qubits or rows whose elements begin at `first`.
fn add(
    st: State,
    element: u8,
    count: u16,
    first: usize,
    k: u16,
    shot: &mut [u8],
    short: bool,
) -> Reply
    requires { first ≤ 131072 }
    ensures { Marked short element count first k st shot.old shot.new result }
{
    if codeless(st) {
        return refused(st, Refusal::Codeless);
    }
    if count <= k {
        return refused(st, Refusal::Range);
    }
    if short {
        return refused(st, Refusal::Short);
    }
    let at = first + k as usize;
    if marked(st.stale, shot, at) {
        return refused(st, Refusal::Twice);
    }
    begin(st, shot);
    mark(shot, at, element);
    Reply {
        state: opened(st),
        answer: Answer::Taken,
    }
}

// A lost qubit. short: one of the lists of code, shot and work is short.
pub fn lose(st: State, q: Qubit, shot: &mut [u8], short: bool) -> Reply
    ensures { Adds short lost q.0 st shot.old shot.new result }
{
    add(st, 1, st.sizes.n, 0, q.0, shot, short)
}

// How many rows there are of a kind.
fn rows_of(sizes: Sizes, kind: Pauli) -> u16
    ensures { result ≡ size_of (rows kind) sizes }
{
    match kind {
        Pauli::X => sizes.x,
        Pauli::Z => sizes.z,
    }
}

// Where the shot's list has the rows of a kind: the Z rows follow the X rows.
fn first_of(sizes: Sizes, kind: Pauli) -> usize
    ensures { (result ≡ first_numbers (rows kind) sizes) × (result ≤ 131072) }
{
    match kind {
        Pauli::X => 1024,
        Pauli::Z => 1024 + sizes.x as usize,
    }
}

// A row that is lit or unread, of a kind, by its number within the kind.
// Inlined, as `lose` is without a word: the reply then needs no memory.
#[inline(always)]
pub fn note_row(
    st: State,
    reading: RowReading,
    kind: Pauli,
    r: KindRow,
    shot: &mut [u8],
    short: bool,
) -> Reply
    ensures { Adds short (row_set reading kind) r.0 st shot.old shot.new result }
{
    let count = rows_of(st.sizes, kind);
    let first = first_of(st.sizes, kind);
    add(st, reading.element(), count, first, r.0, shot, short)
}
