// The start of a half: its marks, and what is kept of its rows over them. Peeling comes first, and the search for fixed qubits is made only where it
// leaves a qubit. For a caller that peels by itself: the marks alone, with no qubit fixed, or by the search at once.
#![tactic(auto)]

ghost use Rattle.std.specs.Prelude.{◌≡◌, ◌+◌, ◌≤◌, length};
ghost use Rattle.lists.specs.Filled.{Filled};
ghost use Rattle.scans.specs.Half.{rows_of};
ghost use Rattle.starting.specs.Starting.{open_mark, Saves, Restores, PeeledFirst, Searched, enough?, Starts, Opens, searchable?, Marks};

use code::{CodeLists, Rows};
use machine::OPEN;
use scans::HalfRows;

// Each lost qubit is marked open, each other one not lost.
fn start_marks(n: usize, lost: &[u8], marks: &mut [u8])
    requires n_in_bounds { n ≤ length lost.now }
    requires n_bound { n ≤ length marks.old }
    ensures { Filled (open_mark n lost.now) n marks.old marks.new }
{
    for q in 0..n {
        marks[q] = if lost[q] == 1 { OPEN } else { 0 };
    }
}

// Where the work list has a copy of the dangling rows and their total, and of the numbers of the rows.
const SET_COPY: usize = 9216;

const NUMBERS_COPY: usize = 9728;

// The dangling rows, how many they are, and the numbers of so many rows copied.
fn save(count: usize, work: &mut [u64])
    requires { (count ≤ 512) × (10240 ≤ length work.old) }
    ensures { Saves count work.old work.new }
{
    lists::copy_words(work, kept::FIRST, SET_COPY, 9);
    lists::copy_words(work, kept::NUMBERS, NUMBERS_COPY, count);
}

// And back.
fn restore(count: usize, work: &mut [u64])
    requires { (count ≤ 512) × (10240 ≤ length work.old) }
    ensures { Restores count work.old work.new }
{
    lists::copy_words(work, SET_COPY, kept::FIRST, 9);
    lists::copy_words(work, NUMBERS_COPY, kept::NUMBERS, count);
}

// Whether the lost qubits peel away, without a look at any reading. They are marked open; the work list has the rows on each of them, and a copy of what else was
// kept of the rows.
fn peel_first(half: &HalfRows<'_>, lost: &[u8], work: &mut [u64], marks: &mut [u8]) -> bool
    requires { (half.now.n ≤ 1024) × (half.now.rows.count ≤ 512) × (half.now.rows.first.0 ≤ 512) × (10240 ≤ length work.old) × (half.now.n ≤ length lost.now) × (half.now.n ≤ length marks.old) × (half.now.rows.first.0 + half.now.rows.count ≤ length half.now.lit.now) }
    ensures { PeeledFirst half.now.n (rows_of half.now) lost.now work.old work.new marks.old marks.new result }
{
    let size = half.n as usize;
    start_marks(size, lost, marks);
    filling::fill(half, marks, work);
    save(half.rows.count as usize, work);
    let away = peeling::peels_away(half, marks, work);
    start_marks(size, lost, marks);
    away
}

// The fixed qubits are found, and marked.
fn search_fixed(
    n: u16,
    code: &CodeLists<'_>,
    lost: &[u8],
    others: Rows,
    work: &mut [u64],
    marks: &mut [u8],
)
    requires { (n ≤ 1024) × (others.count ≤ 512) × (others.first.0 ≤ 512) × (10240 ≤ length work.old) × (n ≤ length lost.now) × (n ≤ length marks.old) }
    ensures { Searched n code.now.flat.now code.now.ends.now lost.now others.first.0 others.count work.old work.new marks.old marks.new }
{
    packing::pack_rows(n, code, others, work);
    search::mark_fixed(n, others.count as usize, lost, work, marks);
}

// Whether the sizes are document 01's and the lists long enough.
fn is_enough(half: &HalfRows<'_>, lost: &[u8], others: Rows, work: &[u64], marks: &[u8]) -> bool
    ensures { result ≡ enough? half.now.n (length lost.now) (length half.now.lit.now) half.now.rows.first.0 half.now.rows.count others.first.0 others.count (length work.now) (length marks.now) }
{
    let size = half.n as usize;
    let own = half.rows;
    let first = own.first;
    let other = others.first;
    let last = first.0 as usize + own.count as usize;
    let small = (half.n <= 1024)
        & (own.count <= 512)
        & (others.count <= 512)
        & (first.0 <= 512)
        & (other.0 <= 512);
    let shot = small & (10240 <= work.len()) & (size <= lost.len());
    shot & (last <= half.lit.len()) & (size <= marks.len())
}

// The marks of the start: fixed qubits are settled, all other lost ones open. The work list has what is kept of the half's own rows. Nothing is written where
// a size is out of range or a list too short.
pub fn start(half: &HalfRows<'_>, lost: &[u8], others: Rows, work: &mut [u64], marks: &mut [u8])
    ensures { Starts half.now.n (rows_of half.now) lost.now others.first.0 others.count work.old work.new marks.old marks.new }
{
    if !is_enough(half, lost, others, work, marks) {
        return;
    }
    if peel_first(half, lost, work, marks) {
        restore(half.rows.count as usize, work);
        return;
    }
    search_fixed(half.n, &half.code, lost, others, work, marks);
    filling::fill(half, marks, work);
}

// Each lost qubit is marked open, as if none were fixed. Nothing is written where a list is short.
pub fn open_marks(n: u16, lost: &[u8], marks: &mut [u8])
    ensures { Opens n lost.now marks.old marks.new }
{
    let size = n as usize;
    if (size <= lost.len()) & (size <= marks.len()) {
        start_marks(size, lost, marks);
    }
}

// Whether sizes are in range and lists long enough for the search.
fn can_search(n: u16, lost: &[u8], others: Rows, work: &[u64], marks: &[u8]) -> bool
    ensures { result ≡ searchable? n (length lost.now) others.first.0 others.count (length work.now) (length marks.now) }
{
    let size = n as usize;
    let other = others.first;
    let small = (n <= 1024) & (others.count <= 512) & (other.0 <= 512);
    small & (10240 <= work.len()) & (size <= lost.len()) & (size <= marks.len())
}

// The marks of the start by the search at once, for a half of which peeling is known to leave a qubit. Nothing is written where a size is out of range or a list too short.
pub fn mark_start(
    n: u16,
    code: &CodeLists<'_>,
    lost: &[u8],
    others: Rows,
    work: &mut [u64],
    marks: &mut [u8],
)
    ensures { Marks n code.now.flat.now code.now.ends.now lost.now others.first.0 others.count work.old work.new marks.old marks.new }
{
    if !can_search(n, lost, others, work, marks) {
        return;
    }
    start_marks(n as usize, lost, marks);
    search_fixed(n, code, lost, others, work, marks);
}
