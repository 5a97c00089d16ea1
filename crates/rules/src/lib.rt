// What the kinds of record share: the numbers of refusals and words, and tests of sizes, states and lists.
#![tactic(auto)]

ghost use Rattle.std.specs.Prelude.{◌≡◌, length};
ghost use Rattle.records.specs.Table.{refusal_number, in_range};
ghost use Rattle.records.specs.Lists.{held, short_lists};
ghost use Rattle.records.specs.States.{without_code};
ghost use Rattle.records.specs.Window.{word_number};

use machine::Word;
use records::{Phase, Refusal, Sizes, State};

// The table's number of a refusal.
pub fn refusal_number(r: Refusal) -> u8
    ensures { result ≡ refusal_number r }
{
    match r {
        Refusal::Unknown => 1,
        Refusal::Length => 2,
        Refusal::Size => 3,
        Refusal::Place => 4,
        Refusal::Row => 5,
        Refusal::Clash => 6,
        Refusal::Codeless => 7,
        Refusal::Range => 8,
        Refusal::Twice => 9,
        Refusal::Spoiled => 11,
        Refusal::Short => 12,
        Refusal::Encoded => 17,
    }
}

// A word's number; 0 is no word.
pub fn word_number(w: Word) -> u16
    ensures { result ≡ word_number w }
{
    match w {
        Word::Certain => 1,
        Word::Unsure => 2,
        Word::None => 3,
        Word::Spent => 4,
        Word::Stopped => 5,
    }
}

// Whether sizes are in range.
pub fn in_range(sizes: Sizes) -> bool
    ensures { result ≡ in_range sizes.n sizes.x sizes.z }
{
    1 <= sizes.n && sizes.n <= 1024 && sizes.x <= 512 && sizes.z <= 512
}

// Whether there is no complete code.
pub fn codeless(st: State) -> bool
    ensures { result ≡ without_code st.phase }
{
    st.phase != Phase::Ready
}

// Whether a list of code, shot, window or work is below its least length.
#[tactic(auto, unfolding(records::specs::Lists::short_lists))]
pub fn short_lists(flat: &[u16], ends: &[u16], shot: &[u8], window: &[u16], work: &[u64]) -> bool
    ensures { result ≡ short_lists (held flat.now ends.now shot.now) (length window.now) (length work.now) }
{
    (flat.len() < 16384)
        | (ends.len() < 16384)
        | (shot.len() < 2048)
        | (window.len() < 2560)
        | (work.len() < 10240)
}
