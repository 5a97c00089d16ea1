// A row's side, word by word.
ghost use Rattle.std.specs.Prelude.{◌≡◌, ◌*◌, ◌≤◌, ◌<◌, length};
ghost use Rattle.forms.specs.Sides.{check_of, top_word, word_of, IsSideWord, HighestPart, NewestBit};

use crate::Check;
use code::Qubit;

// The highest word that the live guesses reach.
pub fn top_word(live: u16) -> usize
    ensures { (result ≡ top_word live) × (result < 4) }
{
    (live as usize / 64).min(3)
}

// Word v of a qubit's form; 0 for a qubit n or above.
fn word_of(n: usize, forms: &[u64], v: usize, q: Qubit) -> u64
    requires { (v < 4) × (4 * n ≤ length forms.now) }
    ensures { result ≡ word_of n forms.now v q.0 }
{
    let qubit = q.0 as usize;
    if n <= qubit {
        return 0;
    }
    forms[4 * qubit + v]
}

// Word v of a row's side: its lit bit plus the forms of its qubits, modulo 2.
pub fn side_word(n: usize, check: &Check<'_>, v: usize, forms: &[u64]) -> u64
    requires { (v < 4) × (4 * n ≤ length forms.now) }
    ensures { IsSideWord n forms.now (check_of check.now) v result }
{
    let mut side = (check.lit & (v == 0)) as u64;
    for &q in check.row {
        side ^= word_of(n, forms, v, Qubit(q));
    }
    side
}

// The highest word of a row's side that is not 0, from word `top` down, with its number; its word 0 where there is none.
pub fn highest_part(n: usize, check: &Check<'_>, top: usize, forms: &[u64]) -> (usize, u64)
    requires { (top < 4) × (4 * n ≤ length forms.now) }
    ensures { HighestPart n forms.now (check_of check.now) top result.0 result.1 }
{
    for v in (1..top + 1).rev() {
        let word = side_word(n, check, v, forms);
        if word != 0 {
            return (v, word);
        }
    }
    (0, side_word(n, check, 0, forms))
}

// The newest guess in a word that has one: its highest bit.
pub fn newest_bit(word: u64) -> u32
    requires { 0 < word }
    ensures { NewestBit word result }
{
    63 - word.leading_zeros()
}
