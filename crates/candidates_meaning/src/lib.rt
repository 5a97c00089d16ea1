// A candidate asked for, as document 02 means it (specs/): the answer, and why it is refused.
#![tactic(auto)]

ghost use Rattle.std.specs.Prelude.{◌≡◌};
ghost use Rattle.candidates_meaning.specs.Asking.{candidate_number};

// Why a candidate is not given (document 02, request f).
#[derive(Clone, Copy, PartialEq, Eq, Debug)]
pub enum CandidateRefusal {
    Short,
    Unfinished,
    Many,
}

// Its number.
impl From<CandidateRefusal> for u16 {
    ghost from_gives = { λ why number. number ≡ candidate_number why };

    fn from(why: CandidateRefusal) -> u16 {
        match why {
            CandidateRefusal::Short => 12,
            CandidateRefusal::Unfinished => 15,
            CandidateRefusal::Many => 16,
        }
    }
}
