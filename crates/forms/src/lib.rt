// Forms as four 64-bit words each: a row taken up, a qubit's form put.
#![tactic(auto)]

ghost use Rattle.std.specs.Prelude.{◌≡◌};
ghost use Rattle.forms.specs.Forms.{TakesUp, PutsSide, PutsGuess};
ghost use Rattle.forms.specs.Sides.{check_of};

mod replacing;
mod sides;

use code::Qubit;

// A row's qubits with its lit bit.
#[derive(Clone, Copy)]
pub struct Check<'a> {
    pub row: &'a [u16],
    pub lit: bool,
}

// A closed row taken up; how many guesses are live then. Side 0, nothing; side 1, none; else the newest guess in the side is replaced everywhere. No form of the
// first n has a bit above the live guesses; that a list is too short or that no guess is live is tested for other forms alone.
pub fn take_up(n: usize, check: &Check<'_>, live: u16, forms: &mut [u64]) -> Option<u16>
    ensures { TakesUp n (check_of check.now) live result forms.old forms.new }
{
    if forms.len() / 4 < n {
        return None;
    }
    let top = sides::top_word(live);
    let (v, word) = sides::highest_part(n, check, top, forms);
    if word == 0 {
        return Some(live);
    }
    if (v == 0) & (word == 1) {
        return None;
    }
    let k = sides::newest_bit(word);
    let left = live.checked_sub(1)?;
    replacing::add_below(n, check, v, k, forms);
    replacing::replace_in_word(n, v, k, word, forms);
    replacing::move_above(n, v, top, forms);
    Some(left)
}

// A row's side becomes the form of qubit p, in the words that the live guesses reach; the others are 0 as no form has a bit above the live guesses. Nothing
// is written where p is n or above or the list is too short.
pub fn put_side(n: usize, check: &Check<'_>, live: u16, p: Qubit, forms: &mut [u64])
    ensures { PutsSide n (check_of check.now) live p.0 forms.old forms.new }
{
    let qubit = p.0 as usize;
    if n <= qubit || forms.len() / 4 < n {
        return;
    }
    let words = sides::top_word(live) + 1;
    for v in 0..words {
        forms[4 * qubit + v] = sides::side_word(n, check, v, forms);
    }
}

// The guess becomes the form of qubit p, with bit `guess` alone. Nothing is written where p is n or above, the guess above 255 or the list too short.
pub fn put_guess(n: usize, guess: u16, p: Qubit, forms: &mut [u64])
    ensures { PutsGuess n guess p.0 forms.old forms.new }
{
    let qubit = p.0 as usize;
    if n <= qubit || forms.len() / 4 < n || 255 < guess {
        return;
    }
    let v = guess as usize / 64;
    lists::clear(forms, 4 * qubit, 4 * qubit + v);
    forms[4 * qubit + v] = 1 << (guess % 64);
}
