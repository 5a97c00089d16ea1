// A guess, bit k of word v, replaced in the words of the first n forms.
ghost use Rattle.std.specs.Prelude.{◌≡◌, ℕ, ◌*◌, ◌≤◌, ◌<◌, length};
ghost use Rattle.binary.specs.Words.{bit};
ghost use Rattle.machine.specs.Machine.{without, replace};
ghost use Rattle.forms.specs.Sides.{check_of};
ghost use Rattle.forms.specs.Words.{side_in};
ghost use Rattle.forms.specs.Changes.{Changed, adding, adding_below, replacing, moving_down, moved_to};

use crate::{Check, sides};

// Word u of a side added in the forms of the first n qubits that have bit k of word v.
fn add_side(n: usize, v: usize, k: u32, u: usize, side: u64, forms: &mut [u64])
    requires { (4 * n ≤ length forms.old) × (v < 4) × (k < 64) × (u < 4) }
    ensures { Changed n (adding v k u (bit side)) forms.old forms.new }
{
    for q in 0..n {
        let guess = 4 * q + v;
        let to = 4 * q + u;
        if (forms[guess] >> k) % 2 == 1 {
            forms[to] ^= side;
        }
    }
}

// The words of a row's side below word v added in the forms of the first n qubits that have bit k of word v.
pub fn add_below(n: usize, check: &Check<'_>, v: usize, k: u32, forms: &mut [u64])
    requires { (4 * n ≤ length forms.old) × (v < 4) × (k < 64) }
    ensures { Changed n (adding_below v k v (side_in n forms.old (check_of check.now))) forms.old forms.new }
{
    for u in 0..v {
        let side = sides::side_word(n, check, u, forms);
        add_side(n, v, k, u, side, forms);
    }
}

// A word without its bit k: the later ones move down one bit.
fn without_bit(word: u64, k: u32) -> u64
    requires { k < 64 }
    ensures { (j : ℕ) → bit result j ≡ without k (bit word) j }
{
    (((word >> 1) >> k) << k) | (word % (1 << k))
}

// A word with bit k replaced by the rest of the side's word, and later bits moved down one bit.
fn replaced(word: u64, k: u32, side: u64) -> u64
    requires { k < 64 }
    ensures { (j : ℕ) → bit result j ≡ replace k (bit side) (bit word) j }
{
    if (word >> k) % 2 == 1 {
        return without_bit(word ^ side, k);
    }
    without_bit(word, k)
}

// Bit k of word v replaced by the rest of the side's word in the forms of the first n qubits; a word that has neither bit k nor a later one stays.
pub fn replace_in_word(n: usize, v: usize, k: u32, side: u64, forms: &mut [u64])
    requires { (4 * n ≤ length forms.old) × (v < 4) × (k < 64) }
    ensures { Changed n (replacing v k (bit side)) forms.old forms.new }
{
    for q in 0..n {
        let at = 4 * q + v;
        let word = forms[at];
        if word >> k != 0 {
            forms[at] = replaced(word, k, side);
        }
    }
}

// Word u of the first n forms moved down one bit, its lowest bit to the top of the word below.
fn move_down(n: usize, u: usize, forms: &mut [u64])
    requires { (4 * n ≤ length forms.old) × (0 < u) × (u < 4) }
    ensures { Changed n (moving_down u) forms.old forms.new }
{
    for q in 0..n {
        let at = 4 * q + u;
        let word = forms[at];
        forms[at - 1] ^= (word % 2) << 63;
        forms[at] = word >> 1;
    }
}

// The words above word v, up to word `top`, moved down one bit.
pub fn move_above(n: usize, v: usize, top: usize, forms: &mut [u64])
    requires { (4 * n ≤ length forms.old) × (v ≤ top) × (top < 4) }
    ensures { Changed n (moved_to v top) forms.old forms.new }
{
    for u in v..top {
        move_down(n, u + 1, forms);
    }
}
