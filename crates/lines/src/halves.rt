// The line of a half.
ghost use Rattle.std.specs.Prelude.{◌≡◌, take};
ghost use Rattle.machine.specs.Words.{finished?};
ghost use Rattle.text.specs.Line.{Adds};
ghost use Rattle.lines.specs.Lines.{word_text, flip, flips, flip_text, count_text, half_line};

use machine::{HalfReport, Word};
use text::Line;

// A half's word behind a blank.
fn word_text(word: Word) -> &'static [u8]
    ensures { result.now ≡ word_text word }
{
    match word {
        Word::Certain => b" certain",
        Word::Unsure => b" unsure",
        Word::None => b" none",
        Word::Spent => b" spent",
        Word::Stopped => b" stopped",
    }
}

// A flipped qubit; nothing of one that is not.
fn put_flip(line: &mut Line<'_>, qubit: usize, element: u8)
    ensures { Adds (flip qubit element) line.old line.new }
{
    if element != 0 {
        line.put_number(qubit as u64);
    }
}

// The flipped ones of the first n qubits, ascending.
fn put_flips(line: &mut Line<'_>, correction: &[u8], n: u16)
    ensures { Adds (flips 0 (take n correction.now)) line.old line.new }
{
    let most = correction.len().min(usize::from(n));
    for (qubit, &element) in correction[..most].iter().enumerate() {
        put_flip(line, qubit, element);
    }
}

// Only a finished half has flips.
fn put_correction(line: &mut Line<'_>, word: Word, correction: &[u8], n: u16)
    ensures { Adds (flip_text (finished? word) correction.now n) line.old line.new }
{
    if machine::is_finished(word) {
        line.put_text(b" flip");
        put_flips(line, correction, n);
    }
}

// The four counts of a half.
#[inline(always)]
fn put_counts(line: &mut Line<'_>, half: HalfReport)
    ensures { Adds (count_text half) line.old line.new }
{
    line.put_number(half.fixed as u64);
    line.put_number(half.turns as u64);
    line.put_number(half.guesses as u64);
    line.put_number(half.live as u64);
}

// The line of a half.
// Inlined, as the counts are: the place in the line then needs no memory.
#[inline(always)]
pub fn put_half(line: &mut Line<'_>, letter: u8, half: HalfReport, correction: &[u8], n: u16)
    ensures { Adds (half_line letter half correction.now n) line.old line.new }
{
    line.put_byte(letter);
    line.put_text(word_text(half.word));
    put_counts(line, half);
    put_correction(line, half.word, correction, n);
    line.put_byte(b'\n');
}
