// Rows packed into the words of a lent list.
#![tactic(auto)]

ghost use Rattle.std.specs.Prelude.{◌≡◌, ◌≤◌, eqb, length};
ghost use Rattle.binary.specs.Meaning.{has};
ghost use Rattle.packing.specs.Packed.{words_for, Put};
ghost use Rattle.packing.specs.Packing.{RowIn, BitsSet};
ghost use Rattle.packing.specs.PackedRows.{RowsPut, PackedFrom};

use code::{CodeLists, Row, Rows};
use lists::clear;

// The words that a packed row of `n` columns takes.
pub fn words_for(n: u16) -> usize
    ensures { result ≡ words_for n }
{
    (n as usize + 63) / 64
}

// Bit `q` of row `i` is set, if the row has it.
fn set_bit(m: &mut [u64], w: usize, i: usize, q: usize)
    requires { RowIn w i m.old }
    ensures { BitsSet w i (eqb q) m.old m.new }
{
    let k = q / 64;
    if k < w {
        m[i * w + k] |= 1 << (q % 64);
    }
}

// The bits of `row` are set in row `i`.
fn set_bits(m: &mut [u64], w: usize, i: usize, row: &[u16])
    requires { RowIn w i m.old }
    ensures { BitsSet w i (has row.now) m.old m.new }
{
    for q in row {
        set_bit(m, w, i, *q as usize);
    }
}

// Packs `row` at place `i`. Answers whether there is room; if not, nothing is written.
pub fn put_row(work: &mut [u64], words: usize, i: usize, row: &[u16]) -> bool
    ensures { Put words i row.now work.old work.new result }
{
    if words > 16 || i >= 512 || work.len() < (i + 1) * words {
        return false;
    }
    let start = i * words;
    clear(work, start, start + words);
    set_bits(work, words, i, row);
    true
}

// The rows of the code packed one after the other, from the start of the work list: the words of all are cleared at once.
fn put_rows(n: u16, code: &CodeLists<'_>, rows: Rows, work: &mut [u64])
    requires { (n ≤ 1024) × (rows.count ≤ 512) × (rows.first.0 ≤ 512) × (8192 ≤ length work.old) }
    ensures { RowsPut n code.now.flat.now code.now.ends.now rows.first.0 rows.count work.old work.new }
{
    let words = words_for(n);
    clear(work, 0, rows.count as usize * words);
    for i in 0..rows.count {
        set_bits(work, words, i as usize, code.row(Row(rows.first.0 + i)));
    }
}

// Packs rows of the code, of `n` columns, into the work list. Answers whether there is room; if not, nothing is written.
pub fn pack_rows(n: u16, code: &CodeLists<'_>, rows: Rows, work: &mut [u64]) -> bool
    ensures { PackedFrom n code.now.flat.now code.now.ends.now rows.first.0 rows.count work.old work.new result }
{
    let room = (n <= 1024) & (rows.count <= 512) & (rows.first.0 <= 512) & (8192 <= work.len());
    if room {
        put_rows(n, code, rows, work);
    }
    room
}
