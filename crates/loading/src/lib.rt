// The records that load a code: its sizes, then its rows.
#![tactic(auto)]

ghost use Rattle.std.specs.Prelude.{◌≡◌, true, false, ◌+◌, ◌<◌};
ghost use Rattle.code.specs.Tests.{ascending?};
ghost use Rattle.loading.specs.Loading.{awaits?, clashing, progress_of, SizesTaken, RowTaken};

use code::{CodeLists, Row};
use records::{Answer, Pauli, Phase, Refusal, Reply, Sizes, State};
use rules::in_range;
use states::refused;

// With so many rows in: more are awaited, or the code is complete and has an empty shot.
fn progress(sizes: Sizes, rows: u16, clash: bool, reports: u16) -> Reply
    requires { sizes.x + sizes.z < 65536 }
    ensures { result ≡ progress_of sizes rows clash reports }
{
    let loading = State {
        phase: Phase::Loading,
        sizes,
        rows,
        clash,
        spoiled: false,
        stale: true,
        reports,
    };
    if rows < sizes.x + sizes.z {
        return Reply {
            state: loading,
            answer: Answer::Taken,
        };
    }
    Reply {
        state: State {
            phase: Phase::Ready,
            ..loading
        },
        answer: Answer::Complete(sizes),
    }
}

// Sizes drop any code and shot, empty the window and start loading.
pub fn take_sizes(st: State, sizes: Sizes, short: bool) -> Reply
    ensures { SizesTaken sizes.n sizes.x sizes.z st short result }
{
    if !in_range(sizes) {
        return refused(st, Refusal::Size);
    }
    if short {
        return refused(st, Refusal::Short);
    }
    progress(sizes, 0, false, 0)
}

// Whether the row awaited is of this kind. The range is tested for an altered state alone.
fn awaits(st: State, kind: Pauli) -> bool
    ensures { result ≡ awaits? kind st }
{
    if st.phase != Phase::Loading {
        return false;
    }
    if !in_range(st.sizes) {
        return false;
    }
    let sizes = st.sizes;
    match kind {
        Pauli::X => st.rows < sizes.x,
        Pauli::Z => sizes.x <= st.rows && st.rows < sizes.x + sizes.z,
    }
}

// Whether some X and Z rows share an odd number of qubits, with this row among them.
fn clashes(st: State, kind: Pauli, code: &CodeLists<'_>, qubits: &[u16]) -> bool
    ensures { result ≡ clashing kind st.clash code.now.flat.now code.now.ends.now st.sizes.x qubits.now }
{
    match kind {
        Pauli::X => st.clash,
        Pauli::Z => st.clash || !commuting::even_with(code, Row(0), Row(st.sizes.x), qubits),
    }
}

// A row that is awaited and ascends, to lists that are not short: refused as the last row of a code that clashes, else written.
fn add_row(st: State, kind: Pauli, flat: &mut [u16], ends: &mut [u16], qubits: &[u16]) -> Reply
    requires { (awaits? kind st ≡ true) × (ascending? st.sizes.n qubits.now ≡ true) }
    ensures { RowTaken kind st flat.old ends.old qubits.now false result flat.new ends.new }
{
    let clash = clashes(st, kind, &CodeLists { flat, ends }, qubits);
    let sizes = st.sizes;
    let rows = st.rows + 1;
    let last = rows == sizes.x + sizes.z;
    if last & clash {
        return refused(st, Refusal::Clash);
    }
    // There is room, but in an altered state or list.
    code::push_row(flat, ends, Row(st.rows), qubits);
    incidence::note_row(ends, sizes.n, Row(st.rows), qubits);
    progress(sizes, rows, clash, st.reports)
}

// A row of a kind, taken up in its turn.
pub fn take_row(
    st: State,
    kind: Pauli,
    flat: &mut [u16],
    ends: &mut [u16],
    qubits: &[u16],
    short: bool,
) -> Reply
    ensures { RowTaken kind st flat.old ends.old qubits.now short result flat.new ends.new }
{
    if !awaits(st, kind) {
        return refused(st, Refusal::Place);
    }
    if !code::ascending(st.sizes.n, qubits) {
        return refused(st, Refusal::Row);
    }
    if short {
        return refused(st, Refusal::Short);
    }
    add_row(st, kind, flat, ends, qubits)
}
