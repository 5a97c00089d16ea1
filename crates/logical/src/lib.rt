// The record of logical qubits: whether the rows encode as many as it says.
#![tactic(auto)]

ghost use Rattle.std.specs.Prelude.{◌≡◌, ltb, ◌≤◌};
ghost use Rattle.logical.specs.Logical.{Few, RankOf, RanksOf, Tests};

use code::{CodeLists, Row, Rows};
use records::{Answer, Refusal, Reply, Sizes, State};
use rules::{codeless, in_range};
use states::refused;

// The rank of rows. Where every column is lost the search takes them all, and as many rows clear one as the rank says. Where sizes are out of range it is 0.
fn rank(n: u16, code: &CodeLists<'_>, rows: Rows) -> usize
    requires { rows.first.0 ≤ 512 }
    ensures { RankOf n code.now.flat.now code.now.ends.now rows.first.0 rows.count result }
{
    let count = rows.count as usize;
    let lost = [1u8; 1024];
    let mut work = [0u64; 10240];
    let mut marks = [0u8; 1024];
    packing::pack_rows(n, code, rows, &mut work);
    let found = search::mark_fixed(n, count, &lost, &mut work, &mut marks);
    let Some(cleared) = found else {
        return 0;
    };
    cleared.all
}

// The rank of the X rows, with that of the Z rows if `to`, where the rows end, lies behind the X rows. It calls itself, so that no compiler takes the room of `rank`
// into a caller's frame: a record of another kind pays nothing for it.
fn ranks(sizes: Sizes, code: &CodeLists<'_>, to: u16) -> usize
    requires { Few sizes }
    ensures { RanksOf (ltb sizes.x to) sizes code.now.flat.now code.now.ends.now result }
{
    let n = sizes.n;
    let x = sizes.x;
    if x < to {
        let before = ranks(sizes, code, x);
        let z_rows = Rows {
            first: Row(x),
            count: sizes.z,
        };
        return before + rank(n, code, z_rows);
    }
    let x_rows = Rows {
        first: Row(0),
        count: x,
    };
    rank(n, code, x_rows)
}

// Whether the rows encode k qubits. short: one of the lists of code, shot and work is short. Sizes that are out of range stand in an altered state only.
pub fn test(st: State, k: u16, code: &CodeLists<'_>, short: bool) -> Reply
    ensures { Tests short k st code.now.flat.now code.now.ends.now result }
{
    if codeless(st) {
        return refused(st, Refusal::Codeless);
    }
    let sizes = st.sizes;
    if short | !in_range(sizes) {
        return refused(st, Refusal::Short);
    }
    let together = k as usize + ranks(sizes, code, sizes.x + sizes.z);
    if together != sizes.n as usize {
        return refused(st, Refusal::Encoded);
    }
    // Agreement changes nothing: an open shot stays as it is.
    Reply {
        state: st,
        answer: Answer::Taken,
    }
}
