// Counts of a run.
#![tactic(auto)]

ghost use Rattle.std.specs.Prelude.{◌≡◌, cond};
ghost use Rattle.counts.specs.Counts.{total, is_again, refusal_more, code_more, decode_more, record_more, tallied};

use records::{Answer, Refusal};

// The bytes and records taken, the codes completed, the decodes reported and the records refused. last: the last refusal. more: how many
// refusals of its number followed the first one of its run.
#[derive(Clone, Copy)]
pub struct Tally {
    pub bytes: u64,
    pub records: u64,
    pub codes: u64,
    pub decodes: u64,
    pub refusals: u64,
    pub last: Option<Refusal>,
    pub more: u64,
}

impl Tally {
    // One more of a run of refusals, or the first of another.
    fn next_more(self, refusal: Refusal) -> u64
        ensures { result ≡ cond (is_again self.last refusal) (total self.more 1) 0 }
    {
        if self.last == Some(refusal) {
            self.more.saturating_add(1)
        } else {
            0
        }
    }

    // A refusal more.
    fn refused(self, refusal: Refusal) -> Tally
        ensures { result ≡ refusal_more self refusal }
    {
        Tally {
            refusals: self.refusals.saturating_add(1),
            last: Some(refusal),
            more: self.next_more(refusal),
            ..self
        }
    }

    // A code more.
    fn completed(self) -> Tally
        ensures { result ≡ code_more self }
    {
        Tally {
            codes: self.codes.saturating_add(1),
            ..self
        }
    }

    // A decode more.
    fn decoded(self) -> Tally
        ensures { result ≡ decode_more self }
    {
        Tally {
            decodes: self.decodes.saturating_add(1),
            ..self
        }
    }

    // A record more, of so many bytes.
    fn taken(self, length: usize) -> Tally
        ensures { result ≡ record_more self length }
    {
        Tally {
            bytes: self.bytes.saturating_add(length as u64),
            records: self.records.saturating_add(1),
            ..self
        }
    }

    // A record more, of so many bytes and with this answer.
    pub fn add(self, length: usize, answer: Answer) -> Tally
        ensures { result ≡ tallied self length answer }
    {
        let one = self.taken(length);
        match answer {
            Answer::Refused(refusal) => one.refused(refusal),
            Answer::Taken => one,
            Answer::Complete(_) => one.completed(),
            Answer::Decoded(_) => one.decoded(),
        }
    }
}
