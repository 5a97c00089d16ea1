// The turn machine, as document 01 means it (specs/): the words of a half and its report.
#![tactic(auto)]

ghost use Rattle.std.specs.Prelude.{◌≡◌};
ghost use Rattle.machine.specs.Words.{finished?};

// The marks of lost qubits, elements of a lent list of bytes (document 01, "Lists lent to a decode"); 0 marks a qubit that is not lost.
pub const FIXED: u8 = 1;

pub const PEELED: u8 = 2;

pub const GUESSED: u8 = 3;

pub const OPEN: u8 = 4;

// The five words in which a decode ends for each half.
#[derive(Clone, Copy)]
pub enum Word {
    Certain,
    Unsure,
    None,
    Spent,
    Stopped,
}

// What is reported of a half: the word and the four counts.
#[derive(Clone, Copy)]
pub struct HalfReport {
    pub word: Word,
    pub fixed: u16,
    pub turns: u16,
    pub guesses: u16,
    pub live: u16,
}

// The three lists of a half that a decode is lent.
#[derive(Drop)]
pub struct LentHalf<'a> {
    pub marks: &'a mut [u8],
    pub forms: &'a mut [u64],
    pub correction: &'a mut [u8],
}

// Whether the word is said of a finished half, which has flips.
pub fn is_finished(w: Word) -> bool
    ensures { result ≡ finished? w }
{
    matches!(w, Word::Certain | Word::Unsure)
}
