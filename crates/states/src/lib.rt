// The states that answers leave, from a fresh start on, and the answer that refuses.
#![tactic(auto)]

ghost use Rattle.std.specs.Prelude.{◌≡◌, true, false};
ghost use Rattle.records.specs.States.{fresh_state, dropped_of, spoiled_of, ended_of, opened_of, reported_of, left_by, saying};

use records::{Answer, Phase, Refusal, Reply, State};

// At a fresh start there is no code and no shot.
pub fn fresh() -> State
    ensures { result ≡ fresh_state }
{
    State::default()
}

// No code and no shot.
fn dropped(st: State) -> State
    ensures { result ≡ dropped_of st }
{
    State {
        phase: Phase::Empty,
        ..st
    }
}

// The code kept, an open shot spoiled.
fn spoiled(st: State) -> State
    ensures { result ≡ spoiled_of st }
{
    State {
        spoiled: true,
        ..st
    }
}

// The code kept, the shot ended: the next is empty.
pub fn ended(st: State) -> State
    ensures { result ≡ ended_of st }
{
    State {
        spoiled: false,
        stale: true,
        ..st
    }
}

// The shot's list holds this shot.
pub fn opened(st: State) -> State
    ensures { result ≡ opened_of st }
{
    State { stale: false, ..st }
}

// So many reports have come.
pub fn reported(st: State, reports: u16) -> State
    ensures { result ≡ reported_of reports st }
{
    State { reports, ..st }
}

// What a refusal leaves of code and shot (the table's last column). decode: at a record of kind 5, where a short list ends the shot.
fn left(st: State, why: Refusal, decode: bool) -> State
    ensures { result ≡ left_by why decode st }
{
    match why {
        Refusal::Unknown | Refusal::Length | Refusal::Range | Refusal::Twice => spoiled(st),
        Refusal::Size | Refusal::Place | Refusal::Row | Refusal::Clash | Refusal::Encoded =>
            dropped(st),
        Refusal::Spoiled => ended(st),
        Refusal::Short if decode => ended(st),
        Refusal::Short | Refusal::Codeless => st,
    }
}

// The refusal of a record, no decode, with the state that it leaves.
pub fn refused(st: State, why: Refusal) -> Reply
    ensures { result ≡ saying why false st }
{
    Reply {
        state: left(st, why, false),
        answer: Answer::Refused(why),
    }
}

// The refusal of a decode.
pub fn refused_decode(st: State, why: Refusal) -> Reply
    ensures { result ≡ saying why true st }
{
    Reply {
        state: left(st, why, true),
        ..refused(st, why)
    }
}
