// Records cut out of bytes: how many bytes the next one has, and where they end.
#![tactic(auto)]

ghost use Rattle.std.specs.Prelude.{◌≡◌, cond, drop};
ghost use Rattle.cutting.specs.Cutting.{next_of, is_last};
ghost use Rattle.cutting.specs.Room.{is_full};

use records::{Answer, Refusal};

// The room that an answer is sure to find in the output: 256 bytes and 6 for each of 2,048 qubits are enough.
const ANSWER: usize = 16384;

// How many bytes the record at `at` has: 0 where more has to be read, and what is left of it where the input has ended.
fn record_at(bytes: &[u8], at: usize, ended: bool) -> usize
    ensures { result ≡ next_of ended (drop at bytes.now) }
{
    if bytes.len() <= at {
        return 0;
    }
    let left = bytes.len() - at;
    let whole = reading::whole_length(bytes[at]);
    if whole <= left {
        return whole;
    }
    if ended { left } else { 0 }
}

// The same, but 0 where none is to be taken.
pub fn next_length(stop: bool, block: &[u8], at: usize, ended: bool) -> usize
    ensures { result ≡ cond stop 0 (next_of ended (drop at block.now)) }
{
    if stop { 0 } else { record_at(block, at, ended) }
}

// Records are over after refusal 1, of an unknown kind, and refusal 2, of a record that is cut off.
pub fn is_last(answer: Answer) -> bool
    ensures { result ≡ is_last answer }
{
    matches!(answer, Answer::Refused(Refusal::Unknown | Refusal::Length))
}

// Whether another answer, or its place, has no room.
pub fn is_full(put: usize, room: usize, noted: usize, most: usize) -> bool
    ensures { result ≡ is_full put room noted most }
{
    room.saturating_sub(put) < ANSWER || most <= noted
}
