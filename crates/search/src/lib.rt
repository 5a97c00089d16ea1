// The search for the fixed qubits, in rows packed into the words of a lent list: the columns that are not lost are taken one by one, the shortest first, then
// the lost ones ascending. A lost column that a row clears is a fixed qubit.
#![tactic(auto)]

ghost use Rattle.std.specs.Prelude.{◌≡◌, ◌+◌, ◌*◌, ◌≤◌, ◌<◌, length, get_or};
ghost use Rattle.binary.specs.Words.{bit};
ghost use Rattle.packing.specs.Packing.{RowIn};
ghost use Rattle.columns.specs.Columns.{rows_with};
ghost use Rattle.search.specs.Marked.{enough, Marked};
ghost use Rattle.search.specs.Search.{ColumnIn, ColumnsIn, First, Leaves, Clears, Takes, Sound, Knowns, LostTaken, Losts};

// Where the work list has the columns that a row cleared, in their order.
const ORDER: usize = 9216;

// How many rows cleared a column that was not lost, and how many any column.
#[derive(Clone, Copy)]
pub struct Cleared {
    pub known: usize,
    pub all: usize,
}

// Of packed rows: how many words a row has, and how many rows there are.
#[derive(Clone, Copy)]
struct Sizes {
    words: usize,
    rows: usize,
}

// Bit `b` of word `k` of row `i`.
fn has_bit(m: &[u64], w: usize, i: usize, k: usize, b: usize) -> bool
    requires { RowIn w i m.now × (k < w) × (b < 64) }
    ensures { result ≡ bit (get_or m.now (i * w + k) 0) b }
{
    (m[i * w + k] >> b) % 2 == 1
}

// The first row from `top` on that has column `q`, or `rows` where there is none.
fn find_row(m: &[u64], sizes: Sizes, top: usize, q: usize) -> usize
    requires { ColumnIn sizes.words top sizes.rows q m.now }
    ensures { First sizes.words top sizes.rows q m.now result }
{
    let k = q / 64;
    let b = q % 64;
    for i in top..sizes.rows {
        if has_bit(m, sizes.words, i, k, b) {
            return i;
        }
    }
    sizes.rows
}

// The first row past row `j` that has column `q`, or `rows` where there is none. At most `left` have it: past the last one no row is looked at.
fn next_row(m: &[u64], sizes: Sizes, j: usize, q: usize, left: usize) -> usize
    requires { (j < sizes.rows) × ColumnIn sizes.words j sizes.rows q m.now × (rows_with m.now sizes.words (j + 1) sizes.rows q ≤ left) }
    ensures { First sizes.words (j + 1) sizes.rows q m.now result }
{
    if left == 0 {
        return sizes.rows;
    }
    find_row(m, sizes, j + 1, q)
}

// Row `i` is added to each later row that has column `q`, of which there are at most `most`, and is counted no more: it is merged into the first of them, or
// emptied, where there is none.
fn leave(m: &mut [u64], sizes: Sizes, i: usize, q: usize, most: usize)
    requires { (i < sizes.rows) × ColumnIn sizes.words i sizes.rows q m.old × (rows_with m.old sizes.words (i + 1) sizes.rows q ≤ most) }
    ensures { Leaves sizes.words sizes.rows i q m.old m.new }
{
    let first = next_row(m, sizes, i, q, most);
    if first == sizes.rows {
        numbering::add_row(m, sizes.words, i, i);
        return;
    }
    numbering::merge_row(m, sizes.words, i, first);
    let mut left = most - 1;
    let mut j = first;
    loop {
        j = next_row(m, sizes, j, q, left);
        if j == sizes.rows {
            return;
        }
        numbering::add_row(m, sizes.words, i, j);
        left -= 1;
    }
}

// Clears column `q`, which at most `most` of the rows from `top` on have: the first one is added to the others, and leaves, and row `top` takes its place.
// Answers whether there was one.
fn clear_column(m: &mut [u64], sizes: Sizes, top: usize, q: usize, most: usize) -> bool
    requires { ColumnIn sizes.words top sizes.rows q m.old × (rows_with m.old sizes.words top sizes.rows q ≤ most) }
    ensures { Clears sizes.words top sizes.rows q m.old m.new result }
{
    let i = find_row(m, sizes, top, q);
    if i == sizes.rows {
        return false;
    }
    leave(m, sizes, i, q, most - 1);
    if i != top {
        lists::copy_words(m, top * sizes.words, i * sizes.words, sizes.words);
    }
    true
}

// Column `q`, which at most `most` rows have, is cleared; if there was a row to clear it, the column is noted. Returns how many rows have cleared one.
fn take_column(work: &mut [u64], sizes: Sizes, top: usize, q: usize, most: usize) -> usize
    requires { ColumnIn sizes.words top sizes.rows q work.old × (rows_with work.old sizes.words top sizes.rows q ≤ most) }
    ensures { Takes sizes.words top sizes.rows q work.old work.new result }
{
    if !clear_column(work, sizes, top, q, most) {
        return top;
    }
    work[ORDER + top] = q as u64;
    top + 1
}

// The columns that are not lost are taken, the shortest first, until no row is left. Returns how many rows have cleared one.
fn take_known(work: &mut [u64], n: usize, sizes: Sizes) -> usize
    requires { ColumnsIn n sizes.words sizes.rows work.old × Sound n sizes.words sizes.rows 0 work.old }
    ensures { Knowns n sizes.words sizes.rows work.old result work.new }
{
    let mut top: usize = 0;
    for _ in 0..n {
        let Some(next) = choosing::take_shortest(work, sizes.words) else {
            return top;
        };
        if next.rows > 0 {
            top = take_column(work, sizes, top, next.column, next.rows);
            if top == sizes.rows {
                return top;
            }
        }
    }
    top
}

// Column `q` is taken, if it is lost, and marked, if a row clears it. Returns how many rows have cleared a column.
fn take_if_lost(
    work: &mut [u64],
    marks: &mut [u8],
    lost: &[u8],
    n: usize,
    sizes: Sizes,
    top: usize,
    q: usize,
) -> usize
    requires { (q < n) × (top ≤ sizes.rows) × ColumnsIn n sizes.words sizes.rows work.old × (n ≤ length lost.now) × (n ≤ length marks.old) }
    ensures { LostTaken n sizes.words sizes.rows lost.now q top work.old marks.old result work.new marks.new }
{
    if lost[q] != 1 {
        return top;
    }
    let next = take_column(work, sizes, top, q, sizes.rows);
    if next == top {
        return top;
    }
    marks[q] = 1;
    next
}

// The lost columns are taken, ascending. Returns how many rows have cleared a column.
fn take_lost(
    work: &mut [u64],
    marks: &mut [u8],
    lost: &[u8],
    n: usize,
    sizes: Sizes,
    first: usize,
) -> usize
    requires { ColumnsIn n sizes.words sizes.rows work.old × (first ≤ sizes.rows) × (n ≤ length lost.now) × (n ≤ length marks.old) }
    ensures { Losts n sizes.words sizes.rows lost.now first work.old marks.old n result work.new marks.new }
{
    let mut top = first;
    for q in 0..n {
        top = take_if_lost(work, marks, lost, n, sizes, top, q);
    }
    top
}

// Whether sizes are in range and lists long enough for the search.
fn long_enough(n: usize, rows: usize, lost: &[u8], work: &[u64], marks: &[u8]) -> bool
    ensures { result ≡ enough n rows lost.now work.now marks.now }
{
    (n <= 1024) & (rows <= 512) & (10240 <= work.len()) & (n <= lost.len()) & (n <= marks.len())
}

// Marks the fixed qubits of the first `rows` rows of `n` columns that `work` holds. None, and nothing written, where a size is out of range or a list too short.
pub fn mark_fixed(
    n: u16,
    rows: usize,
    lost: &[u8],
    work: &mut [u64],
    marks: &mut [u8],
) -> Option<Cleared>
    ensures { Marked n rows lost.now work.old marks.old work.new marks.new result }
{
    let columns = n as usize;
    if !long_enough(columns, rows, lost, work, marks) {
        return None;
    }
    let w = packing::words_for(n);
    numbering::start(work, w, rows, columns, lost);
    let sizes = Sizes { words: w, rows };
    let known = take_known(work, columns, sizes);
    let all = take_lost(work, marks, lost, columns, sizes, known);
    Some(Cleared { known, all })
}
