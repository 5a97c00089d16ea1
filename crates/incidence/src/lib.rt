// The rows on each qubit, kept with the code: 15 elements for each qubit, behind the ends of the rows.
#![tactic(auto)]

ghost use Rattle.std.specs.Prelude.{◌≡◌, ◌+◌, ◌≤◌, ◌<◌, ◌⊎◌, length, IfSome, IfNone};
ghost use Rattle.incidence.specs.Incidence.{slot, number_on, rows_on, note_on, note_all, emptied, noted};

use code::{Qubit, Row};

// Where the elements of qubit 0 begin, and how many each qubit has: how many rows are on it, then up to 14 rows.
pub const FIRST: usize = 1024;

pub const EACH: usize = 15;

// Row r is put to the rows on qubit q; where it has no place, the number says so.
fn note_on(list: &mut [u16], q: Qubit, r: Row)
    ensures { list.new ≡ note_on r.0 list.old q.0 }
{
    let at = FIRST + EACH * (q.0 as usize);
    if list.len() < at + EACH {
        return;
    }
    let number = list[at];
    if number < 14 {
        list[at + 1 + number as usize] = r.0;
        list[at] = number + 1;
    } else {
        list[at] = 15;
    }
}

// Row r is put to each of its qubits.
fn note_all(list: &mut [u16], r: Row, qubits: &[u16])
    ensures { list.new ≡ note_all r.0 qubits.now list.old }
{
    for &q in qubits {
        note_on(list, Qubit(q), r);
    }
}

// No row is on any of the first n qubits; past the list there is no element.
fn empty(list: &mut [u16], n: u16)
    ensures { list.new ≡ emptied n list.old }
{
    for q in 0..n as usize {
        let at = FIRST + EACH * q;
        if at < list.len() {
            list[at] = 0;
        }
    }
}

// Row r of a code of n qubits is put to the rows on its qubits. The first row of a code finds no row on any qubit.
pub fn note_row(list: &mut [u16], n: u16, r: Row, qubits: &[u16])
    ensures { list.new ≡ noted n r.0 qubits.now list.old }
{
    if r.0 == 0 {
        empty(list, n);
    }
    note_all(list, r, qubits);
}

// The rows on qubit q, if the list has the qubit and a place for each of them.
pub fn rows_on(list: &[u16], q: Qubit) -> Option<&[u16]>
    ensures listed { IfSome result (λ on. (slot q.0 + 15 ≤ length list.now) × (number_on list.now q.0 ≤ 14) × (on.now ≡ rows_on list.now q.0)) }
    ensures unlisted { IfNone result ((length list.now < slot q.0 + 15) ⊎ (14 < number_on list.now q.0)) }
{
    let at = FIRST + EACH * (q.0 as usize);
    if list.len() < at + EACH {
        return None;
    }
    let number = list[at] as usize;
    if 14 < number {
        return None;
    }
    Some(&list[at + 1..at + 1 + number])
}
