// The shortest untaken column: the one with the fewest rows in it, the lowest of equals.
#![tactic(auto)]

ghost use Rattle.std.specs.Prelude.{◌≡◌, ◌+◌, ◌≤◌, ◌<◌, length};
ghost use Rattle.choosing.specs.Choosing.{room?, Tall, Least, ShortestFound, TakesFound};

use columns::{PLANES, UNTAKEN};

// More rows than any column has.
const ANY: usize = 1024;

// An untaken column, and how many rows have it.
#[derive(Clone, Copy)]
pub struct Shortest {
    pub column: usize,
    pub rows: usize,
}

// The columns of the 64 at `at` whose number passes 15: those with a bit in one of the planes 4 to 9.
fn tall(m: &[u64], at: usize) -> u64
    requires { at + 10 ≤ length m.now }
    ensures { Tall at 10 m.now result }
{
    let mut high: u64 = 0;
    for p in 4..10 {
        high |= m[at + p];
    }
    high
}

// Of the columns of word `k` that `word` has, the shortest, the lowest of equals: plane by plane from the highest, those without the bit, if any are.
// Nearly always none of them is tall, and plane 3 is the first to narrow them.
fn shortest_in(m: &[u64], k: usize, word: u64) -> Shortest
    requires { (k < 16) × (0 < word) × (10240 ≤ length m.now) }
    ensures { Least k word m.now result }
{
    let at = PLANES + 16 * k;
    let mut least = word;
    let mut rows: usize = 0;
    let mut p: usize = 10;
    if word & tall(m, at) == 0 {
        p = 4;
    }
    while p > 0 {
        p -= 1;
        let short = least ^ (least & m[at + p]);
        rows = 2 * rows;
        if short == 0 {
            rows += 1;
        } else {
            least = short;
        }
    }
    let column = 64 * k + u64::trailing_zeros(least) as usize;
    Shortest { column, rows }
}

// The shortest untaken column, the lowest of equals.
fn find_shortest(m: &[u64], w: usize) -> Option<Shortest>
    requires { (w ≤ 16) × (10240 ≤ length m.now) }
    ensures { ShortestFound w m.now result }
{
    let mut column: usize = 0;
    let mut rows: usize = ANY;
    for k in 0..w {
        if rows == 0 {
            break;
        }
        let word = m[UNTAKEN + k];
        if word != 0 {
            let here = shortest_in(m, k, word);
            if here.rows < rows {
                column = here.column;
                rows = here.rows;
            }
        }
    }
    (rows < ANY).then_some(Shortest { column, rows })
}

// Whether the list has the untaken columns and the planes of rows of `w` words.
fn has_room(len: usize, w: usize) -> bool
    ensures { result ≡ room? len w }
{
    (w <= 16) & (10240 <= len)
}

// The shortest untaken column, the lowest of equals, is taken; None where no column is untaken.
pub fn take_shortest(work: &mut [u64], w: usize) -> Option<Shortest>
    ensures { TakesFound w work.old work.new result }
{
    if !has_room(work.len(), w) {
        return None;
    }
    let found = find_shortest(work, w)?;
    let at = UNTAKEN + found.column / 64;
    work[at] ^= 1 << (found.column % 64);
    Some(found)
}
