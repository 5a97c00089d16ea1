// A read of the last 256 reports, as document 02 means it (specs/): the counts, and why they are refused.
#![tactic(auto)]

ghost use Rattle.std.specs.Prelude.{◌≡◌};
ghost use Rattle.window_meaning.specs.Read.{window_number};

// Of the halves of a kind among the last 256 reports (document 02, request h): how many had each word, and the sums of turns, guesses and live.
#[derive(Clone, Copy, PartialEq, Eq, Default)]
pub struct HalfCounts {
    pub certain: u32,
    pub unsure: u32,
    pub none: u32,
    pub spent: u32,
    pub stopped: u32,
    pub turns: u32,
    pub guesses: u32,
    pub live: u32,
}

// Of both kinds.
#[derive(Clone, Copy, PartialEq, Eq)]
pub struct Counts {
    pub x: HalfCounts,
    pub z: HalfCounts,
}

// Why the window is not read.
#[derive(Clone, Copy, PartialEq, Eq, Debug)]
pub enum WindowRefusal {
    Short,
}

// Its number.
impl From<WindowRefusal> for u32 {
    ghost from_gives = { λ why number. number ≡ window_number why };

    fn from(why: WindowRefusal) -> u32 {
        match why {
            WindowRefusal::Short => 12,
        }
    }
}
