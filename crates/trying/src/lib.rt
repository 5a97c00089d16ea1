// The turns of a half up to the first guess, from the marks of a start: until then every turn is a peel, and every form a plain bit. What a peel asks is kept of each
// row in three numbers, and no row's qubits are read.
#![tactic(auto)]

ghost use Rattle.std.specs.Prelude.{◌≡◌};
ghost use Rattle.scans.specs.Half.{rows_of};
ghost use Rattle.turns.specs.Lent.{working, SameLists, Room};
ghost use Rattle.trying.specs.Trying.{enough?, Tried, Tries};

mod entries;
mod peels;
mod start;

use machine::HalfReport;
use scans::HalfRows;
use turns::WorkingLists;

// The answer of a try: nothing is known, so many turns lead where no row dangles and a qubit is left, or the report of the half, which is certain.
#[derive(Clone, Copy)]
pub enum TryAnswer {
    Unknown,
    Left(u16),
    Over(HalfReport),
}

// A turn made; or no row dangles; or the half may end in none, or lists were altered.
#[derive(Clone, Copy)]
enum Peel {
    Unknown,
    NoRow,
    Made,
}

// Whether the sizes are document 01's and the lists long enough.
fn is_enough(half: &HalfRows<'_>, lists: &WorkingLists<'_>) -> bool
    ensures { result ≡ enough? half.now.n (rows_of half.now) (working lists.now) }
{
    let size = half.n as usize;
    half.is_sized()
        & (10240 <= lists.work.len())
        & (size <= lists.marks.len())
        & (4 * size <= lists.forms.len())
}

// A try where sizes are in range and lists long enough: the start, then the turns.
fn tried(half: &HalfRows<'_>, limit: u16, fixed: u16, lists: &mut WorkingLists<'_>) -> TryAnswer
    requires { Room half.now.n (rows_of half.now) (working lists.old) }
    ensures same { SameLists lists.old lists.new }
    ensures tried { Tried half.now.n (rows_of half.now) limit fixed (working lists.old) (working lists.new) result }
{
    let rows = half.rows;
    lists::clear(lists.forms, 0, 4 * (half.n as usize));
    start::clear_rows(rows.count, lists.work);
    let Some(number) = start::open_marked(half, lists) else {
        return TryAnswer::Unknown;
    };
    kept::find_dangling(rows.count, lists.work);
    if start::is_lit_closed(half, lists) {
        return TryAnswer::Unknown;
    }
    peels::run(half, limit, fixed, number, lists)
}

// The half from the marks of its start, of which `fixed` are fixed qubits, up to the first turn that would be a guess. Marks and forms are left as the turns left them, and the
// work list with what is kept of the rows; where nothing is known the marks are those of the start again, and forms and work list may hold anything.
pub fn try_turns(
    half: &HalfRows<'_>,
    limit: u16,
    fixed: u16,
    lists: &mut WorkingLists<'_>,
) -> TryAnswer
    ensures same { SameLists lists.old lists.new }
    ensures tries { Tries half.now.n (rows_of half.now) limit fixed (working lists.old) (working lists.new) result }
{
    if !is_enough(half, lists) {
        return TryAnswer::Unknown;
    }
    let told = tried(half, limit, fixed, lists);
    if let TryAnswer::Unknown = told {
        start::reopen(half.n as usize, lists.marks);
    }
    told
}
