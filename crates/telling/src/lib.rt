// What standard error, or another writer, is told. Each line has room for its text; were one longer, its end would be left out.
#![tactic(auto)]

mod line;
mod wants;

use counts::Tally;
use line::tell;
use records::{Answer, Phase, Refusal, State};
use std::fmt;
use std::io::Write;
use wants::{Loaded, Wanted};

// How many refusals followed the first one of a run, where some did.
fn tell_more<W: Write>(to: &mut W, t: Tally) {
    if let Some(last) = t.last
        && t.more > 0
    {
        let number = rules::refusal_number(last);
        tell(
            to,
            format_args!("shots: {} more refused with {number}", t.more),
        );
    }
}

// The first refusal of a run: the record's number, from 1, its offset, its kind, and what was refused.
// Not inlined: the loop over records stays short.
#[inline(never)]
fn tell_first<W: Write>(to: &mut W, t: Tally, st: State, refusal: Refusal, bytes: &[u8]) {
    let record = t.records.saturating_add(1);
    let kind = reading::byte_at(bytes, 0);
    let number = rules::refusal_number(refusal);
    let wanted = Wanted { st, refusal, bytes };
    tell(
        to,
        format_args!(
            "shots: record {record} at byte {}, kind {kind}: refused {number} {wanted}",
            t.bytes
        ),
    );
}

// Tells a refusal that begins a run, and how long the last run was. t, st: the counts and the state before the record.
pub fn tell_refusal<W: Write>(to: &mut W, t: Tally, st: State, answer: Answer, bytes: &[u8]) {
    if let Answer::Refused(refusal) = answer
        && t.last != Some(refusal)
    {
        tell_more(to, t);
        tell_first(to, t, st, refusal, bytes);
    }
}

// How many there are of something.
#[derive(Drop)]
struct Count(u64, &'static str);

impl fmt::Display for Count {
    fn fmt<W: fmt::Write>(&self, f: &mut fmt::Formatter<W>) -> fmt::Result {
        let ending = if self.0 == 1 { "" } else { "s" };
        write!(f, "{} {}{ending}", self.0, self.1)
    }
}

// The counts of the whole run.
fn tell_counts<W: Write>(to: &mut W, t: Tally) {
    let bytes = Count(t.bytes, "byte");
    let records = Count(t.records, "record");
    let codes = Count(t.codes, "code");
    let decodes = Count(t.decodes, "decode");
    let refusals = Count(t.refusals, "refusal");
    tell(
        to,
        format_args!("shots: {bytes}, {records}, {codes}, {decodes}, {refusals}"),
    );
}

// Tells how the run ended: how long the last run of refusals was, the counts, and what was left open: a code whose rows did not all come, or a
// shot with records, none of them a decode.
pub fn tell_end<W: Write>(to: &mut W, t: Tally, st: State) {
    tell_more(to, t);
    tell_counts(to, t);
    match st.phase {
        Phase::Empty => {}
        Phase::Loading => tell(
            to,
            format_args!("shots: code incomplete: {}", Loaded::new(st)),
        ),
        Phase::Ready => {
            if !st.stale | st.spoiled {
                tell(to, "shots: shot left open, not decoded");
            }
        }
    }
}

// Says that a read failed with this errno, where it did.
pub fn tell_read<W: Write>(to: &mut W, error: Option<i32>) {
    if let Some(error) = error
        && error > 0
    {
        tell(
            to,
            format_args!("shots: reading failed with error {}", error as u32),
        );
    }
}

// Says that a write failed, and what was written before.
pub fn tell_write<W: Write>(to: &mut W, bytes: u64, records: u64) {
    tell(
        to,
        format_args!(
            "shots: writing failed after {bytes} bytes; {records} records were answered in full"
        ),
    );
}
