// States and replies as plain numbers, for a rack's own program in C or Rust.
#![tactic(auto)]

ghost use Rattle.std.specs.Prelude.{◌≡◌};
ghost use Rattle.plain.specs.Plain.{phase_of, phase_number, state_of, plain_state, word_of, plain_half, unreported, plain_reply};

use machine::{HalfReport, Word};
use records::{Answer, Phase, Reply, Sizes, State};

// What passes from call to call beside the lists: a fresh start's, or as the last reply has it.
#[repr(C)]
#[derive(Clone, Copy)]
pub struct RackState {
    pub phase: u8,
    pub clash: u8,
    pub spoiled: u8,
    pub stale: u8,
    pub n: u16,
    pub x: u16,
    pub z: u16,
    pub rows: u16,
    pub reports: u16,
}

// What is reported of a half; of an answer that is no report, zeros.
#[repr(C)]
#[derive(Clone, Copy, Default)]
pub struct RackHalf {
    pub word: u16,
    pub fixed: u16,
    pub turns: u16,
    pub guesses: u16,
    pub live: u16,
}

// What a call hands back: the state, the answer with the table's number of a refusal, and the halves of a report.
#[repr(C)]
#[derive(Clone, Copy)]
pub struct RackReply {
    pub state: RackState,
    pub answer: u16,
    pub refusal: u16,
    pub x: RackHalf,
    pub z: RackHalf,
}

// Any other number is no code: every value of a state is read as some state.
fn phase_of(p: u8) -> Phase
    ensures { result ≡ phase_of p }
{
    match p {
        1 => Phase::Loading,
        2 => Phase::Ready,
        _ => Phase::Empty,
    }
}

// 0 no code, 1 loading, 2 complete.
fn phase_number(p: Phase) -> u8
    ensures { result ≡ phase_number p }
{
    match p {
        Phase::Empty => 0,
        Phase::Loading => 1,
        Phase::Ready => 2,
    }
}

// The word that a number stands for; any other number is an unfinished half's, stopped.
pub fn word_of(w: u16) -> Word
    ensures { result ≡ word_of w }
{
    match w {
        1 => Word::Certain,
        2 => Word::Unsure,
        3 => Word::None,
        4 => Word::Spent,
        _ => Word::Stopped,
    }
}

// The state that the numbers stand for.
impl From<RackState> for State {
    ghost from_gives = { λ s st. st ≡ state_of s };

    fn from(s: RackState) -> State {
        State {
            phase: phase_of(s.phase),
            sizes: Sizes {
                n: s.n,
                x: s.x,
                z: s.z,
            },
            rows: s.rows,
            clash: s.clash != 0,
            spoiled: s.spoiled != 0,
            stale: s.stale != 0,
            reports: s.reports,
        }
    }
}

// The numbers of a state.
impl From<State> for RackState {
    ghost from_gives = { λ st s. s ≡ plain_state st };

    fn from(s: State) -> RackState {
        RackState {
            phase: phase_number(s.phase),
            clash: s.clash as u8,
            spoiled: s.spoiled as u8,
            stale: s.stale as u8,
            n: s.sizes.n,
            x: s.sizes.x,
            z: s.sizes.z,
            rows: s.rows,
            reports: s.reports,
        }
    }
}

// The numbers of a half that is reported.
impl From<HalfReport> for RackHalf {
    ghost from_gives = { λ h r. r ≡ plain_half h };

    fn from(h: HalfReport) -> RackHalf {
        RackHalf {
            word: rules::word_number(h.word),
            fixed: h.fixed,
            turns: h.turns,
            guesses: h.guesses,
            live: h.live,
        }
    }
}

// An answer that is no report.
fn unreported(state: RackState, answer: u16, refusal: u16) -> RackReply
    ensures { result ≡ unreported answer refusal state }
{
    RackReply {
        state,
        answer,
        refusal,
        x: RackHalf::default(),
        z: RackHalf::default(),
    }
}

// The numbers of a reply. The answer beside the state: 0 taken, 1 complete, 2 decoded, 3 refused.
impl From<Reply> for RackReply {
    ghost from_gives = { λ r n. n ≡ plain_reply r };

    fn from(r: Reply) -> RackReply {
        let state = RackState::from(r.state);
        match r.answer {
            Answer::Taken => unreported(state, 0, 0),
            Answer::Complete(_) => unreported(state, 1, 0),
            Answer::Decoded(report) => RackReply {
                state,
                answer: 2,
                refusal: 0,
                x: RackHalf::from(report.x),
                z: RackHalf::from(report.z),
            },
            Answer::Refused(why) => unreported(state, 3, rules::refusal_number(why) as u16),
        }
    }
}
