// The records that load a code, those of a shot, and the logical qubits, tested.
ghost use Rattle.std.specs.Prelude.{◌≡◌, false, ◌≤◌};
ghost use Rattle.records.specs.Records.{numbers};
ghost use Rattle.records.specs.Lent.{code_and_shot, SamePassed};
ghost use Rattle.loading.specs.Loading.{RowTaken};
ghost use Rattle.logical.specs.Logical.{Tests};
ghost use Rattle.reading.specs.Shapes.{decode?, RecordAs};
ghost use Rattle.stream.specs.Takes.{Takes};

use code::{CodeLists, KindRow, Qubit};
use reading::{Shape, number, qubits_of};
use readout::{RowReading, note_row};
use records::{PassedLists, Pauli, Refusal, Reply, Sizes, State};
use states::refused;

// A row as it stands in a record's bytes.
fn read_row(
    st: State,
    kind: Pauli,
    flat: &mut [u16],
    ends: &mut [u16],
    bytes: &[u8],
    w: usize,
    short: bool,
) -> Reply
    requires { w ≤ 16 }
    ensures { RowTaken kind st flat.old ends.old (numbers bytes.now 1 w) short result flat.new ends.new }
{
    let body = qubits_of(bytes, w);
    loading::take_row(st, kind, flat, ends, &body[..w], short)
}

// Whether a code that is read has k logical qubits.
fn test_logical(st: State, k: u16, passed: &PassedLists<'_>, short: bool) -> Reply
    ensures { Tests short k st passed.now.flat.now passed.now.ends.now result }
{
    let flat: &[u16] = &*passed.flat;
    let ends: &[u16] = &*passed.ends;
    logical::test(st, k, &CodeLists { flat, ends }, short)
}

// Any record but a decode.
pub fn take(
    st: State,
    shape: Shape,
    passed: &mut PassedLists<'_>,
    bytes: &[u8],
    short: bool,
) -> Reply
    requires { RecordAs bytes.now shape × (decode? shape ≡ false) }
    ensures takes { Takes short bytes.now st (code_and_shot passed.old) (code_and_shot passed.new) result }
    ensures window { passed.new.window.now ≡ passed.old.window.now }
    ensures same_passed { SamePassed passed.old passed.new }
{
    let first = number(bytes, 1);
    let row = KindRow(first);
    match shape {
        Shape::Unknown | Shape::Decode => refused(st, Refusal::Unknown),
        Shape::Wrong => refused(st, Refusal::Length),
        Shape::Size => {
            let sizes = Sizes {
                n: first,
                x: number(bytes, 3),
                z: number(bytes, 5),
            };
            loading::take_sizes(st, sizes, short)
        }
        Shape::Row(kind, w) => {
            read_row(st, kind, passed.flat, passed.ends, bytes, w as usize, short)
        }
        Shape::Lose => readout::lose(st, Qubit(first), passed.shot, short),
        Shape::Light(kind) => { note_row(st, RowReading::Lit, kind, row, passed.shot, short) }
        Shape::Unread(kind) => { note_row(st, RowReading::Unread, kind, row, passed.shot, short) }
        Shape::Logical => test_logical(st, first, passed, short),
    }
}
