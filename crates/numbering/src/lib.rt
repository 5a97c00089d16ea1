// The number of rows that have each untaken column, kept as rows are added. The numbers lie in bit planes, a bit of 64 numbers to a word, so that a row
// that is added changes 64 of them at once.
#![tactic(auto)]

ghost use Rattle.std.specs.Prelude.{◌≡◌, not, ◌&&◌, ◌+◌, ◌^◌, ◌≤◌, ◌<◌, ltb, length};
ghost use Rattle.binary.specs.Words.{bit, listed};
ghost use Rattle.numbering.specs.Numbering.{Rippled, Counted, inside?, RowsIn, JoinedBy, Joins, Adds, Merges, KnownWord, KnownSet, NumberedRow, NumberedRows, Starts};

use columns::{PLANES, UNTAKEN};

// Planes `from` up to `end` of the 64 numbers at `at`: where the carry has a bit, the number grows by the weight of plane `from`, or shrinks by it where
// the other word has that bit too. Returns what goes on to plane `end`.
fn ripple(m: &mut [u64], at: usize, from: usize, end: usize, first: u64, other: u64) -> u64
    requires { (from ≤ end) × (at + end ≤ length m.old) }
    ensures { Rippled at from end first other m.old m.new result }
{
    let mut carry = first;
    for p in from..end {
        let old = m[at + p];
        m[at + p] = old ^ carry;
        carry &= old ^ other;
    }
    carry
}

// In each column of word `k` that `bits` has the number grows by the weight of plane `plane`, or shrinks by it where the other word has it too. Few numbers pass 15.
fn count(m: &mut [u64], k: usize, plane: usize, bits: u64, other: u64)
    requires { (k < 16) × (plane ≤ 4) × (10240 ≤ length m.old) }
    ensures { Counted k (2 ^ plane) bits (bit other) m.old m.new }
{
    if bits == 0 {
        return;
    }
    let at = PLANES + 16 * k;
    let carry = ripple(m, at, plane, 4, bits, other);
    if carry != 0 {
        ripple(m, at, 4, 10, carry, other);
    }
}

// Row `from` is added to row `to`, and, where it merges, is counted no more.
fn join_words<const MERGES: bool>(m: &mut [u64], w: usize, from: usize, to: usize)
    requires { RowsIn w from to m.old }
    ensures { JoinedBy MERGES w from to m.old m.new }
{
    let a = from * w;
    let b = to * w;
    for k in 0..w {
        let new = m[a + k];
        let old = m[b + k];
        let untaken = m[UNTAKEN + k];
        m[b + k] = old ^ new;
        if MERGES {
            count(m, k, 1, new & old & untaken, u64::MAX);
        } else {
            count(m, k, 0, new & untaken, old);
        }
    }
}

// Whether row i of `w` words lies in the list, before the planes.
fn lies_in(len: usize, w: usize, i: usize) -> bool
    ensures { result ≡ inside? len w i }
{
    (w <= 16) & (i < 512) & (10240 <= len)
}

// Rows that do not lie in the list are not joined.
fn join_row<const MERGES: bool>(work: &mut [u64], w: usize, from: usize, to: usize)
    ensures { Joins MERGES w from to work.old work.new }
{
    if lies_in(work.len(), w, from) & lies_in(work.len(), w, to) {
        join_words::<MERGES>(work, w, from, to);
    }
}

// Row `from` is added to row `to`, and the number of each untaken column follows. A row added to itself is emptied. Rows that do not lie in the list are
// not added.
pub fn add_row(work: &mut [u64], w: usize, from: usize, to: usize)
    ensures { Adds w from to work.old work.new }
{
    join_row::<false>(work, w, from, to);
}

// Row `from` is added to row `to`, and is counted no more, though its words stay: the number of an untaken column that both have falls by two, any other stays.
// Rows that do not lie in the list are not merged.
pub fn merge_row(work: &mut [u64], w: usize, from: usize, to: usize)
    ensures { Merges w from to work.old work.new }
{
    join_row::<true>(work, w, from, to);
}

// Whether column `q` is one of the `n` and not lost.
fn is_known(n: usize, lost: &[u8], q: usize) -> bool
    requires { n ≤ length lost.now }
    ensures { result ≡ (ltb q n && not (listed n lost.now q)) }
{
    q < n && lost[q] != 1
}

// The columns of word `k` that are not lost.
fn known_word(n: usize, lost: &[u8], k: usize) -> u64
    requires { (n ≤ length lost.now) × (k < 16) }
    ensures { KnownWord n k lost.now 64 result }
{
    let mut word: u64 = 0;
    for b in 0..64 {
        if is_known(n, lost, 64 * k + b) {
            word |= 1 << b;
        }
    }
    word
}

// Every column that is not lost is untaken.
fn set_known(m: &mut [u64], w: usize, n: usize, lost: &[u8])
    requires { (n ≤ length lost.now) × (w ≤ 16) × (10240 ≤ length m.old) }
    ensures { KnownSet n w lost.now m.old m.new }
{
    for k in 0..w {
        m[UNTAKEN + k] = known_word(n, lost, k);
    }
}

// Row `i` is counted in each of its untaken columns.
fn number_row(m: &mut [u64], w: usize, i: usize)
    requires { RowsIn w i i m.old }
    ensures { NumberedRow w i m.old m.new }
{
    let a = i * w;
    for k in 0..w {
        let bits = m[a + k] & m[UNTAKEN + k];
        count(m, k, 0, bits, 0);
    }
}

// So are the first `rows` rows.
fn number_rows(m: &mut [u64], w: usize, rows: usize)
    requires { (rows ≤ 512) × (w ≤ 16) × (10240 ≤ length m.old) }
    ensures { NumberedRows w rows m.old m.new }
{
    for i in 0..rows {
        number_row(m, w, i);
    }
}

// The columns that are not lost become the untaken ones, each with the number of rows that have it. Nothing is written where sizes or lists do not fit.
pub fn start(work: &mut [u64], w: usize, rows: usize, n: usize, lost: &[u8])
    ensures { Starts w rows n lost.now work.old work.new }
{
    let fits = (w <= 16) & (rows <= 512) & (10240 <= work.len()) & (n <= lost.len());
    if fits {
        lists::clear(work, PLANES, PLANES + 16 * w);
        set_known(work, w, n, lost);
        number_rows(work, w, rows);
    }
}
