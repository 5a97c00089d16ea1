// Bicycle codes from their sizes and terms (document 02, request c).
#![tactic(auto)]

mod table;

ghost use Rattle.std.specs.Prelude.{◌≡◌, ◌+◌, ◌*◌, ◌/◌, ◌%◌, ◌≤◌, ◌<◌, length};
ghost use Rattle.std.proofs.lemmas.List.Edits.{sets};
ghost use Rattle.binary.specs.Meaning.{All};
ghost use Rattle.bicycle_codes.specs.Bicycle.{grid?, outside?, bad?, bicycle_answer, Writes};
ghost use Rattle.bicycle_codes.specs.Writing.{Small, Shifts, back_of, back, six_of, row_by, RowsPut};

pub use table::write_72;

// A term (a, b).
#[derive(Clone, Copy, PartialEq, Eq)]
pub struct Term {
    pub a: u16,
    pub b: u16,
}

// A list of three terms.
#[derive(Clone, Copy)]
pub struct Terms {
    pub p: Term,
    pub q: Term,
    pub r: Term,
}

// Two sizes and two lists of terms.
#[derive(Clone, Copy)]
pub struct Bicycle {
    pub l: u16,
    pub m: u16,
    pub first: Terms,
    pub second: Terms,
}

// Why no rows are written.
#[derive(Clone, Copy)]
pub enum BicycleRefusal {
    Grid,
    Term,
    Short,
}

// A place of a grid of l times m moved by a term.
fn moved(l: usize, m: usize, p: usize, t: Term) -> u16
    requires { Small l m × (p < 512) }
    ensures { result ≡ ((p / m + t.a) % l) * m + (p % m + t.b) % m }
{
    let i = (p / m + t.a as usize) % l;
    let j = (p % m + t.b as usize) % m;
    (i * m + j) as u16
}

// A place moved by three terms, the three places ascending.
fn shifted(l: usize, m: usize, p: usize, t: Terms) -> [u16; 3]
    requires { Small l m × (p < 512) }
    ensures { Shifts l m p t result }
{
    let mut places = [
        moved(l, m, p, t.p),
        moved(l, m, p, t.q),
        moved(l, m, p, t.r),
    ];
    places.sort_unstable();
    places
}

// A row's six numbers written from an element on, those of the right block so much higher.
fn put_row(rows: &mut [u16], at: usize, lift: u16, left: [u16; 3], right: [u16; 3])
    requires { (at + 6 ≤ length rows.old) × (lift ≤ 512) × All (λ q. q < lift) right }
    ensures { rows.new ≡ sets rows.old at (six_of lift left right) }
{
    rows[at] = left[0];
    rows[at + 1] = left[1];
    rows[at + 2] = left[2];
    rows[at + 3] = lift + right[0];
    rows[at + 4] = lift + right[1];
    rows[at + 5] = lift + right[2];
}

// The rows of all places, one after the other from a row on, by terms for the left and the right block.
fn put_rows(l: usize, m: usize, left: Terms, right: Terms, first: usize, rows: &mut [u16])
    requires { Small l m × (6 * (first + l * m) ≤ length rows.old) }
    ensures { RowsPut first (l * m) (row_by l m left right) rows.old rows.new }
{
    let count = l * m;
    for p in 0..count {
        let on_left = shifted(l, m, p, left);
        let on_right = shifted(l, m, p, right);
        put_row(rows, 6 * (first + p), count as u16, on_left, on_right);
    }
}

// The term that moves a place back.
fn back_of(l: u16, m: u16, t: Term) -> Term
    requires { (t.a ≤ l) × (t.b ≤ m) }
    ensures { result ≡ back_of l m t }
{
    Term {
        a: l - t.a,
        b: m - t.b,
    }
}

// Terms that move a place back.
fn back(l: u16, m: u16, t: Terms) -> Terms
    requires { (t.p.a ≤ l) × (t.p.b ≤ m) × (t.q.a ≤ l) × (t.q.b ≤ m) × (t.r.a ≤ l) × (t.r.b ≤ m) }
    ensures { result ≡ back l m t }
{
    Terms {
        p: back_of(l, m, t.p),
        q: back_of(l, m, t.q),
        r: back_of(l, m, t.r),
    }
}

// How many places there are; of any sizes the number fits.
fn area(l: u16, m: u16) -> u64
    ensures { (result ≡ l * m) × (result < 4294967296) }
{
    (l as u64) * (m as u64)
}

// Whether l or m is 0, or 2 times l times m exceeds 1,024.
fn is_grid(g: Bicycle) -> bool
    ensures { result ≡ grid? g }
{
    (g.l == 0) | (g.m == 0) | (1024 < 2 * area(g.l, g.m))
}

// Whether a term lies outside the grid.
fn is_outside(g: Bicycle, t: Term) -> bool
    ensures { result ≡ outside? g t }
{
    (g.l <= t.a) | (g.m <= t.b)
}

// Whether a term of a list lies outside the grid, or two are equal.
fn is_bad(g: Bicycle, t: Terms) -> bool
    ensures { result ≡ bad? g t }
{
    let Terms { p, q, r } = t;
    is_outside(g, p) | is_outside(g, q) | is_outside(g, r) | (p == q) | (p == r) | (q == r)
}

// The first refusal whose test passes: 13, then 14, then 12.
fn tested(g: Bicycle, long: usize) -> Result<(), BicycleRefusal>
    ensures { result ≡ bicycle_answer g long }
{
    if is_grid(g) {
        return Err(BicycleRefusal::Grid);
    }
    if is_bad(g, g.first) | is_bad(g, g.second) {
        return Err(BicycleRefusal::Term);
    }
    if (long as u64) < 12 * area(g.l, g.m) {
        return Err(BicycleRefusal::Short);
    }
    Ok(())
}

// The rows of a bicycle code, X rows and then Z rows, into a list of 12 times l times m numbers.
pub fn write(g: Bicycle, rows: &mut [u16]) -> Result<(), BicycleRefusal>
    ensures { Writes g rows.old rows.new result }
{
    tested(g, rows.len())?;
    let l = g.l as usize;
    let m = g.m as usize;
    put_rows(l, m, g.first, g.second, 0, rows);
    let left = back(g.l, g.m, g.second);
    let right = back(g.l, g.m, g.first);
    put_rows(l, m, left, right, l * m, rows);
    Ok(())
}
