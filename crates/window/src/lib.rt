// The last 256 reports (document 02, request h): a report enters, and a read counts them.
#![tactic(auto)]

mod counting;

ghost use Rattle.std.specs.Prelude.{◌≡◌, ◌+◌, ◌≤◌, length};
ghost use Rattle.window_meaning.specs.Read.{window_answer};
ghost use Rattle.window.specs.Entering.{HalfIn, Enters};

use machine::HalfReport;
use records::{Report, State};
use rules::word_number;
use window_meaning::{Counts, WindowRefusal};

// The least length of the list, and how many reports it keeps.
const LEAST: usize = 2560;

const KEPT: u16 = 256;

// The five numbers of a half, from an element on.
fn put_half(window: &mut [u16], at: usize, half: HalfReport)
    requires { at + 5 ≤ length window.old }
    ensures { HalfIn at half window.old window.new }
{
    window[at] = word_number(half.word);
    window[at + 1] = half.fixed;
    window[at + 2] = half.turns;
    window[at + 3] = half.guesses;
    window[at + 4] = half.live;
}

// Both halves of a report enter, where 256 are in at the place of the oldest. The number of reports that have come, with this one.
pub fn enter(reports: u16, report: Report, window: &mut [u16]) -> u16
    ensures { Enters reports report window.old window.new result }
{
    if window.len() < LEAST {
        return reports;
    }
    let at = 10 * (reports % KEPT) as usize;
    put_half(window, at, report.x);
    put_half(window, at + 5, report.z);
    if reports < 511 { reports + 1 } else { KEPT }
}

// How many of the last 256 reports had each word, and the sums of their turns, guesses and live, for each half kind.
pub fn read(st: State, window: &[u16]) -> Result<Counts, WindowRefusal>
    ensures { result ≡ window_answer st.reports window.now }
{
    if window.len() < LEAST {
        return Err(WindowRefusal::Short);
    }
    let kept = st.reports.min(KEPT) as usize;
    Ok(Counts {
        x: counting::count_half(window, 0, kept),
        z: counting::count_half(window, 5, kept),
    })
}
