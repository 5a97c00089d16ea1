// The calls for a rack's own program in C or Rust (include/rack.h): states, words and answers as plain numbers.
#![tactic(auto)]

mod candidate;
pub mod counts;

ghost use Rattle.std.specs.Prelude.{◌≡◌};
ghost use Rattle.records.specs.Lists.{held, six_of, lent_of};
ghost use Rattle.records.specs.States.{fresh_state};
ghost use Rattle.plain.specs.Plain.{plain_state};
ghost use Rattle.rack.specs.Promise.{version, RackPromise};
ghost use Rattle.rack.specs.Candidates.{RackGives};
ghost use Rattle.rack.specs.Counts.{rack_window};

use counts::RackCounts;
use machine::LentHalf;
use plain::{RackReply, RackState};
use records::{PassedLists, State};

// One more whenever a call, a list or a struct changes.
const VERSION: u16 = 8;

// The library's version; the header's RACK_VERSION has to be the same.
#[unsafe(no_mangle)]
pub extern "C" fn rack_version() -> u16
    ensures { result ≡ version }
{
    VERSION
}

// At a fresh start there is no code and no shot.
#[unsafe(no_mangle)]
pub extern "C" fn rack_fresh() -> RackState
    ensures { result ≡ plain_state fresh_state }
{
    RackState::from(states::fresh())
}

// One record: `stream::step` on the state that the numbers stand for.
#[unsafe(no_mangle)]
pub extern "C" fn rack_step(
    state: RackState,
    flat: &mut [u16],
    ends: &mut [u16],
    shot: &mut [u8],
    window: &mut [u16],
    work: &mut [u64],
    x_marks: &mut [u8],
    x_forms: &mut [u64],
    x_correction: &mut [u8],
    z_marks: &mut [u8],
    z_forms: &mut [u64],
    z_correction: &mut [u8],
    bytes: &[u8],
) -> RackReply
    ensures { RackPromise state bytes.now (lent_of (held flat.old ends.old shot.old) window.old work.old (six_of x_marks.old x_forms.old x_correction.old z_marks.old z_forms.old z_correction.old)) (lent_of (held flat.new ends.new shot.new) window.new work.new (six_of x_marks.new x_forms.new x_correction.new z_marks.new z_forms.new z_correction.new)) result }
{
    let mut passed = PassedLists {
        flat,
        ends,
        shot,
        window,
    };
    let mut x = LentHalf {
        marks: x_marks,
        forms: x_forms,
        correction: x_correction,
    };
    let mut z = LentHalf {
        marks: z_marks,
        forms: z_forms,
        correction: z_correction,
    };
    RackReply::from(stream::step(State::from(state), &mut passed, work, &mut x, &mut z, bytes))
}

// Candidate `number` of a half: `candidates::give` on the word that the number stands for. 0 where it was given, else the number of the refusal.
#[unsafe(no_mangle)]
pub extern "C" fn rack_candidate(
    n: u16,
    word: u16,
    live: u16,
    marks: &[u8],
    forms: &[u64],
    number: u64,
    candidate: &mut [u8],
) -> u16
    ensures { RackGives n word live marks.now forms.now number candidate.old candidate.new result }
{
    let said = plain::word_of(word);
    candidate::number(candidates::give(n, said, live, marks, forms, number, candidate))
}

// The last 256 reports counted: `window::read` at the state that the numbers stand for.
#[unsafe(no_mangle)]
pub extern "C" fn rack_window(state: RackState, window: &[u16]) -> RackCounts
    ensures { result ≡ rack_window state window.now }
{
    counts::window(window::read(State::from(state), window))
}
