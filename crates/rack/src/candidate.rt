// The answer to a call for a candidate as a plain number.
ghost use Rattle.std.specs.Prelude.{◌≡◌};
ghost use Rattle.rack.specs.Candidates.{plain_candidate};

use candidates_meaning::CandidateRefusal;

// 0 where the candidate was given, else the number of the refusal.
pub fn number(answer: Result<(), CandidateRefusal>) -> u16
    ensures { result ≡ plain_candidate answer }
{
    match answer {
        Ok(()) => 0,
        Err(why) => u16::from(why),
    }
}
