// Closed rows taken up.
#![tactic(auto)]

ghost use Rattle.std.specs.Prelude.{◌≡◌, ◌<◌, length};
ghost use Rattle.scans.specs.Rows.{check_at};
ghost use Rattle.scans.specs.Half.{rows_of};
ghost use Rattle.closing.specs.Closing.{TookIf, Enough, ClosingRows, enough?, ClosedRows, LitClosed};

use code::{KindRow, Qubit, Row};
use forms::Check;
use scans::HalfRows;

// Whether a lit row has no open qubit. Nothing is settled but fixed qubits, which have form 0: its side is 1.
pub fn lit_closed(half: &HalfRows<'_>, work: &[u64]) -> bool
    ensures { LitClosed half.now.lit.now half.now.rows.first.0 half.now.rows.count work.now result }
{
    let first = half.rows.first.0 as usize;
    let count = half.rows.count as usize;
    if half.lit.len() < first + count || work.len() < kept::END || 512 < count {
        return false;
    }
    for i in 0..count {
        if half.lit[first + i] == 1 && work[kept::NUMBERS + i] == 0 {
            return true;
        }
    }
    false
}

// Row r taken up, if it is closed.
fn take_up_if(
    n: usize,
    half: &HalfRows<'_>,
    r: Row,
    closed: bool,
    live: u16,
    forms: &mut [u64],
) -> Option<u16>
    requires { r.0 < length half.now.lit.now }
    ensures { TookIf n closed (check_at half.now.code.flat.now half.now.code.ends.now half.now.lit.now r.0) live forms.old forms.new result }
{
    if !closed {
        return Some(live);
    }
    let check = Check {
        row: half.code.row(r),
        lit: half.lit[r.0 as usize] == 1,
    };
    forms::take_up(n, &check, live, forms)
}

// Each row on qubit p, which was settled, has an open qubit less; those that this closed are taken up, ascending, up to the first that fails. Sizes are
// in range and lists long enough.
fn close(
    n: usize,
    half: &HalfRows<'_>,
    p: Qubit,
    live: u16,
    work: &mut [u64],
    forms: &mut [u64],
) -> Option<u16>
    requires { Enough n (rows_of half.now) p.0 work.old forms.old }
    ensures { ClosingRows n (rows_of half.now) p.0 live forms.old forms.new work.old work.new result }
{
    let rows = half.rows;
    let mut left = live;
    let mut i = bitsets::next_in(work, p.0, 0, rows.count);
    while i < rows.count {
        let open = kept::lower(KindRow(i), work);
        left = take_up_if(n, half, Row(rows.first.0 + i), open == 0, left, forms)?;
        i = bitsets::next_in(work, p.0, i + 1, rows.count);
    }
    Some(left)
}

// Whether the sizes are document 01's and the lists long enough.
fn is_enough(n: usize, half: &HalfRows<'_>, p: Qubit, work: &[u64], forms: &[u64]) -> bool
    ensures { result ≡ enough? n (rows_of half.now) p.0 work.now forms.now }
{
    let rows = half.rows;
    let last = rows.first.0 as usize + rows.count as usize;
    let small = (p.0 < 1024) & (rows.count <= 512) & (last <= 1024);
    small & (n <= forms.len() / 4) & (10240 <= work.len()) & (last <= half.lit.len())
}

// Each row on qubit p, which was settled, has an open qubit less; those that this closed are taken up, ascending, up to the first that fails. Nothing is
// written where a size is out of range or a list too short.
pub fn close_rows(
    n: usize,
    half: &HalfRows<'_>,
    p: Qubit,
    live: u16,
    work: &mut [u64],
    forms: &mut [u64],
) -> Option<u16>
    ensures { ClosedRows n (rows_of half.now) p.0 live forms.old forms.new work.old work.new result }
{
    if !is_enough(n, half, p, work, forms) {
        return None;
    }
    close(n, half, p, live, work, forms)
}
