// A candidate of a half: what its forms give with its live guesses set to the bits of a number.
#![tactic(auto)]

ghost use Rattle.std.specs.Prelude.{◌≡◌, not, ◌||◌, ◌+◌, ◌*◌, ◌%◌, ◌^◌, ◌≤◌, ◌<◌, leb, ltb, length, get_or};
ghost use Rattle.std.specs.Int.Bits.{bit_and};
ghost use Rattle.std.specs.Int.Count.{ones};
ghost use Rattle.lists.specs.Filled.{Filled};
ghost use Rattle.machine.specs.Words.{finished?};
ghost use Rattle.scans.specs.Scans.{count_marks};
ghost use Rattle.records.specs.Lowest.{lowest};
ghost use Rattle.candidates_meaning.specs.Asking.{candidate_tests, candidate_answer, Gives};

use candidates_meaning::CandidateRefusal;
use machine::{OPEN, Word};

// Whether the list to be written, the marks or the forms are too short for n qubits.
fn is_short(n: u16, marks: &[u8], forms: &[u64], long: usize) -> bool
    ensures { result ≡ (ltb long n || ltb (length marks.now) n || ltb (length forms.now) (4 * n)) }
{
    let size = n as usize;
    (long < size) | (marks.len() < size) | (forms.len() < 4 * size)
}

// Whether the half is not finished, by its word or by a qubit that is open.
fn is_unfinished(n: u16, word: Word, marks: &[u8]) -> bool
    ensures { result ≡ (not (finished? word) || ltb 0 (count_marks n marks.now 4)) }
{
    !machine::is_finished(word) | (0 < scans::count_marks(n, marks, OPEN))
}

// Whether there are more candidates than are shown, or no such one.
fn is_many(live: u16, number: u64) -> bool
    ensures { result ≡ (ltb 8 live || leb (2 ^ live) number) }
{
    8 < live || (1u64 << live) <= number
}

// The first refusal whose test passes.
fn answered(short: bool, unfinished: bool, many: bool) -> Result<(), CandidateRefusal>
    ensures { result ≡ candidate_answer (lowest (candidate_tests short unfinished many)) }
{
    if short {
        return Err(CandidateRefusal::Short);
    }
    if unfinished {
        return Err(CandidateRefusal::Unfinished);
    }
    if many {
        return Err(CandidateRefusal::Many);
    }
    Ok(())
}

// For each qubit the parity of the bits of its form that are in the mask. With at most 8 live guesses these are in its first word.
fn write(n: usize, mask: u64, forms: &[u64], list: &mut [u8])
    requires n_in_bounds { 4 * n ≤ length forms.now }
    requires n_bound { n ≤ length list.old }
    ensures { Filled (λ q. ones (bit_and (get_or forms.now (4 * q) 0) mask) % 2) n list.old list.new }
{
    for q in 0..n {
        list[q] = ((forms[4 * q] & mask).count_ones() % 2) as u8;
    }
}

// Candidate `number` of a half of n qubits, from its word, live count, marks and forms.
pub fn give(
    n: u16,
    word: Word,
    live: u16,
    marks: &[u8],
    forms: &[u64],
    number: u64,
    list: &mut [u8],
) -> Result<(), CandidateRefusal>
    ensures { Gives (record { n = n; word = word; live = live; marks = marks.now; forms = forms.now; number = number }) list.old list.new result }
{
    let short = is_short(n, marks, forms, list.len());
    let unfinished = is_unfinished(n, word, marks);
    answered(short, unfinished, is_many(live, number))?;
    // The constant and the guesses that are set: guess i where bit i - 1 of the number is.
    write(n as usize, 2 * number + 1, forms, list);
    Ok(())
}
