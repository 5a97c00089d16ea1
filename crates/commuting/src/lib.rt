// Whether rows commute: each shares an even number of qubits with each of the other kind.
#![tactic(auto)]

ghost use Rattle.std.specs.Prelude.{◌≡◌, length};
ghost use Rattle.binary.specs.Meaning.{odd};
ghost use Rattle.code.specs.Lists.{rows_between};
ghost use Rattle.commuting.specs.Even.{in_bits, even_for?, even_with?};

use code::{CodeLists, Qubit, Row};

// Whether a qubit is in a set of 1,024 bits.
fn is_in(set: &[u64; 16], q: Qubit) -> bool
    ensures { result ≡ in_bits set.now q.0 }
{
    if 1024 <= q.0 {
        return false;
    }
    let at = q.0 as usize;
    (set[at / 64] >> (at % 64)) % 2 == 1
}

// Whether an odd number of the row's qubits are in a set.
fn has_odd(set: &[u64; 16], row: &[u16]) -> bool
    ensures { result ≡ odd (in_bits set.now) row.now }
{
    row.iter().filter(|q| is_in(set, Qubit(**q))).count() % 2 == 1
}

// Whether each of the rows from `from` up to `to` has an even number of qubits in a set.
fn all_even(code: &CodeLists<'_>, from: Row, to: Row, set: &[u64; 16]) -> bool
    ensures { result ≡ even_for? (in_bits set.now) (rows_between code.now.flat.now code.now.ends.now from.0 to.0) }
{
    for r in from.0..to.0 {
        if has_odd(set, code.row(Row(r))) {
            return false;
        }
    }
    true
}

// Whether the qubits share an even number with each of the rows from `from` up to `to`: those of a row are looked up in a set of bits.
pub fn even_with(code: &CodeLists<'_>, from: Row, to: Row, qubits: &[u16]) -> bool
    ensures { result ≡ even_with? (rows_between code.now.flat.now code.now.ends.now from.0 to.0) qubits.now }
{
    let mut set = [0; 16];
    packing::put_row(&mut set, 16, 0, qubits);
    all_even(code, from, to, &set)
}
