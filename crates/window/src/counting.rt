// The entries of a half kind, counted.
ghost use Rattle.std.specs.Prelude.{◌≡◌, ◌≤◌, length};
ghost use Rattle.window.specs.Counts.{plus, Few, counts_from};

use window_meaning::HalfCounts;

// Counts with one entry more.
fn with_entry(c: HalfCounts, word: u16, turns: u16, guesses: u16, live: u16) -> HalfCounts
    requires { Few 256 c }
    ensures { result ≡ plus c word turns guesses live }
{
    HalfCounts {
        certain: c.certain + (word == 1) as u32,
        unsure: c.unsure + (word == 2) as u32,
        none: c.none + (word == 3) as u32,
        spent: c.spent + (word == 4) as u32,
        stopped: c.stopped + (word == 5) as u32,
        turns: c.turns + turns as u32,
        guesses: c.guesses + guesses as u32,
        live: c.live + live as u32,
    }
}

// Of the entries at so many places, whose first elements stand at an offset.
pub fn count_half(window: &[u16], first: usize, places: usize) -> HalfCounts
    requires { (2560 ≤ length window.now) × (first ≤ 5) × (places ≤ 256) }
    ensures { result ≡ counts_from first places window.now }
{
    let mut c = HalfCounts::default();
    for p in 0..places {
        let at = 10 * p + first;
        c = with_entry(
            c,
            window[at],
            window[at + 2],
            window[at + 3],
            window[at + 4],
        );
    }
    c
}
