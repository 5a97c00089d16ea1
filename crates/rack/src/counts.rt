// The counts of the last 256 reports as plain numbers.
ghost use Rattle.std.specs.Prelude.{◌≡◌};
ghost use Rattle.rack.specs.Counts.{plain_counts, plain_window};

use window_meaning::{Counts, HalfCounts, WindowRefusal};

// Of the halves of a kind among the last 256 reports: how many had each word, and the sums of turns, guesses and live.
#[repr(C)]
#[derive(Clone, Copy, Default)]
pub struct RackHalfCounts {
    pub certain: u32,
    pub unsure: u32,
    pub none: u32,
    pub spent: u32,
    pub stopped: u32,
    pub turns: u32,
    pub guesses: u32,
    pub live: u32,
}

// The answer to a read of the window: the number of a refusal, or 0 and the counts; zeros after a refusal.
#[repr(C)]
#[derive(Clone, Copy)]
pub struct RackCounts {
    pub refusal: u32,
    pub x: RackHalfCounts,
    pub z: RackHalfCounts,
}

// The numbers of the counts of a half kind.
impl From<HalfCounts> for RackHalfCounts {
    ghost from_gives = { λ c r. r ≡ plain_counts c };

    fn from(c: HalfCounts) -> RackHalfCounts {
        RackHalfCounts {
            certain: c.certain,
            unsure: c.unsure,
            none: c.none,
            spent: c.spent,
            stopped: c.stopped,
            turns: c.turns,
            guesses: c.guesses,
            live: c.live,
        }
    }
}

// The numbers of the answer to a read of the window.
pub fn window(answer: Result<Counts, WindowRefusal>) -> RackCounts
    ensures { result ≡ plain_window answer }
{
    match answer {
        Ok(counts) => RackCounts {
            refusal: 0,
            x: RackHalfCounts::from(counts.x),
            z: RackHalfCounts::from(counts.z),
        },
        Err(why) => RackCounts {
            refusal: u32::from(why),
            x: RackHalfCounts::default(),
            z: RackHalfCounts::default(),
        },
    }
}
