// Records, as document 01 means them (specs/): what a call hands over and hands back.
#![tactic(auto)]

use machine::HalfReport;

// The version of the records, one more whenever what bytes mean changes.
pub const VERSION: u16 = 8;

// The kind of a row, and of a half.
#[derive(Clone, Copy, PartialEq, Eq)]
pub enum Pauli {
    X,
    Z,
}

// Why a record is refused (document 01, the table).
#[derive(Clone, Copy, PartialEq, Eq)]
pub enum Refusal {
    Unknown,
    Length,
    Size,
    Place,
    Row,
    Clash,
    Codeless,
    Range,
    Twice,
    Spoiled,
    Short,
    Encoded,
}

// A code's sizes: qubits, X rows, Z rows.
#[derive(Clone, Copy, PartialEq, Eq, Default)]
pub struct Sizes {
    pub n: u16,
    pub x: u16,
    pub z: u16,
}

// What a decode reports of its two halves.
#[derive(Clone, Copy)]
pub struct Report {
    pub x: HalfReport,
    pub z: HalfReport,
}

// The answer to a record: a refusal, or that it was carried out; of the last row with the code's sizes, of a decode with its report.
#[derive(Clone, Copy)]
pub enum Answer {
    Refused(Refusal),
    Taken,
    Complete(Sizes),
    Decoded(Report),
}

// Whether there is a code: none, one that is loading, or one that is complete, with an open shot.
#[derive(Clone, Copy, PartialEq, Eq, Default)]
pub enum Phase {
    #[default]
    Empty,
    Loading,
    Ready,
}

// What passes from call to call beside the lists: the sizes announced, the rows taken so far, whether some X and Z rows among them share an
// odd number of qubits, whether the shot is spoiled, whether the shot is empty, whatever an earlier one left in its list, and how many reports have come since
// the last accepted kind 1, after 511 again 256.
#[derive(Clone, Copy, PartialEq, Eq, Default)]
pub struct State {
    pub phase: Phase,
    pub sizes: Sizes,
    pub rows: u16,
    pub clash: bool,
    pub spoiled: bool,
    pub stale: bool,
    pub reports: u16,
}

// The lists that pass from call to call: of the code, the shot and the last 256 reports.
#[derive(Drop)]
pub struct PassedLists<'a> {
    pub flat: &'a mut [u16],
    pub ends: &'a mut [u16],
    pub shot: &'a mut [u8],
    pub window: &'a mut [u16],
}

// What a call hands back.
#[derive(Clone, Copy)]
pub struct Reply {
    pub state: State,
    pub answer: Answer,
}
