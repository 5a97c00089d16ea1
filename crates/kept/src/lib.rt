// What is kept of a half's rows while it is decoded: of each row the number of its open qubits, the dangling rows and how many they are, and the rows on
// each open qubit.
#![tactic(auto)]

ghost use Rattle.std.specs.Prelude.{◌≡◌, ◌+◌, ◌≤◌, ◌<◌, length};
ghost use Rattle.kept.specs.Kept.{Changes, Lowered, Raised, dangling_word, Finds, LoweredRows, Lowest};

use code::{KindRow, Qubit};

// Places in the work list, behind the rows on each qubit: the set of dangling rows, which is set 1024 and begins at element 8192, and how many they are; of
// each row the number of its open qubits; where they end.
pub const DANGLING: u16 = 1024;

pub const FIRST: usize = 8192;

pub const TOTAL: usize = 8200;

pub const NUMBERS: usize = 8704;

pub const END: usize = 9216;

// Row i joins the dangling rows, or leaves them.
pub fn change(i: KindRow, joins: bool, work: &mut [u64])
    ensures { Changes i.0 joins work.old work.new }
{
    if work.len() < END || 512 <= i.0 {
        return;
    }
    bitsets::flip(work, DANGLING, i.0);
    let total = work[TOTAL];
    if !joins {
        work[TOTAL] = total.saturating_sub(1);
    } else if total < 512 {
        work[TOTAL] = total + 1;
    }
}

// Row i has an open qubit less; how many are left.
pub fn lower(i: KindRow, work: &mut [u64]) -> u64
    ensures { Lowered i.0 work.old work.new result }
{
    if work.len() < END || 512 <= i.0 {
        return 0;
    }
    let at = NUMBERS + i.0 as usize;
    let open = work[at];
    if open == 0 {
        return 0;
    }
    let left = open - 1;
    work[at] = left;
    if left < 2 {
        change(i, left == 1, work);
    }
    left
}

// Row i has an open qubit more; the dangling rows are found when all are raised.
pub fn raise(i: KindRow, work: &mut [u64])
    ensures { Raised i.0 work.old work.new }
{
    if work.len() < END || 512 <= i.0 {
        return;
    }
    let at = NUMBERS + i.0 as usize;
    work[at] = work[at] % 1024 + 1;
}

// The rows from `from` on, below `end`, that have one open qubit, as bits of a word: that of row `from` is the lowest.
fn dangling_word(from: usize, end: usize, work: &[u64]) -> u64
    requires { (from ≤ end) × (end ≤ from + 64) × (end ≤ 512) × (9216 ≤ length work.now) }
    ensures { result ≡ dangling_word from end work.now }
{
    let mut word: u64 = 0;
    for j in (from..end).rev() {
        word = 2 * word + (work[NUMBERS + j] == 1) as u64;
    }
    word
}

// The dangling ones of so many rows, and how many they are, from the numbers of their open qubits.
pub fn find_dangling(count: u16, work: &mut [u64])
    ensures { Finds count work.old work.new }
{
    if work.len() < END || 512 < count {
        return;
    }
    let all = count as usize;
    let mut total = 0;
    let mut from = 0;
    for k in 0..8 {
        let end = all.min(from + 64);
        let word = dangling_word(from, end, work);
        work[FIRST + k] = word;
        total += word.count_ones() as u64;
        from = end;
    }
    work[TOTAL] = total;
}

// Each row on qubit p, which is open no more, has an open qubit less.
pub fn lower_rows(p: Qubit, count: u16, work: &mut [u64])
    ensures { LoweredRows p.0 count work.old work.new }
{
    let mut i = bitsets::next_in(work, p.0, 0, count);
    while i < count {
        lower(KindRow(i), work);
        i = bitsets::next_in(work, p.0, i + 1, count);
    }
}

// The lowest dangling row; the number of rows if none dangles, which no row is read to learn.
pub fn lowest(count: u16, work: &[u64]) -> KindRow
    ensures { Lowest count work.now result.0 }
{
    if work.len() < END || work[TOTAL] == 0 {
        return KindRow(count);
    }
    KindRow(bitsets::next_in(work, DANGLING, 0, count))
}
