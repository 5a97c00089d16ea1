// Peeling without a look at any reading: whether it leaves nothing.
#![tactic(auto)]

ghost use Rattle.std.specs.Prelude.{◌≡◌, ◌+◌, ◌≤◌, length};
ghost use Rattle.peeling.specs.Peeling.{OneStep, enough?, Peels};

use code::{Qubit, Row};
use machine::{OPEN, PEELED};
use scans::HalfRows;

// The lowest dangling row settles its open qubit; false where no row dangles. That a dangling row has no open qubit is tested for altered lists alone.
fn peel_one(half: &HalfRows<'_>, marks: &mut [u8], work: &mut [u64]) -> bool
    requires { (half.now.n ≤ 1024) × (half.now.n ≤ length marks.old) × (9216 ≤ length work.old) × (half.now.rows.count ≤ 512) × (half.now.rows.first.0 + half.now.rows.count ≤ 1024) }
    ensures { OneStep half.now.n half.now.code.flat.now half.now.code.ends.now half.now.rows.first.0 half.now.rows.count (record { marks = marks.entry.now; work = work.old }) (record { marks = marks.exit.now; work = work.new }) result }
{
    let count = half.rows.count;
    let i = kept::lowest(count, work);
    if count <= i.0 {
        return false;
    }
    let first = half.rows.first;
    let row = half.code.row(Row(first.0 + i.0));
    let at = scans::first_open(half.n as usize, row, marks);
    if row.len() <= at {
        return false;
    }
    let p = row[at];
    let q = p as usize;
    marks[q] = PEELED;
    kept::lower_rows(Qubit(p), count, work);
    true
}

// Whether the sizes are document 01's and the lists long enough; no reading is asked for.
fn is_enough(half: &HalfRows<'_>, marks: &[u8], work: &[u64]) -> bool
    ensures { result ≡ enough? half.now.n half.now.rows.first.0 half.now.rows.count (length marks.now) (length work.now) }
{
    let rows = half.rows;
    let first = rows.first;
    let last = first.0 as usize + rows.count as usize;
    (half.n <= 1024)
        & (rows.count <= 512)
        & (last <= 1024)
        & (half.n as usize <= marks.len())
        & (kept::END <= work.len())
}

// Whether peeling leaves no open qubit. The work list has what is kept of the rows, over the marks, which is used up; a qubit that is peeled gets mark 2.
pub fn peels_away(half: &HalfRows<'_>, marks: &mut [u8], work: &mut [u64]) -> bool
    ensures { Peels half.now.n half.now.code.flat.now half.now.code.ends.now half.now.rows.first.0 half.now.rows.count (record { marks = marks.entry.now; work = work.old }) (record { marks = marks.exit.now; work = work.new }) result }
{
    if !is_enough(half, marks, work) {
        return false;
    }
    let mut left = scans::count_marks(half.n, marks, OPEN);
    while 0 < left {
        if !peel_one(half, marks, work) {
            return false;
        }
        left -= 1;
    }
    true
}
