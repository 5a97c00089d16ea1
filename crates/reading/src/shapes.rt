// What a record's bytes are: their kind, and whether the body has the kind's length.
ghost use Rattle.std.specs.Prelude.{◌≡◌, ◌≤◌};
ghost use Rattle.records.specs.Records.{kind_of, whole_length};
ghost use Rattle.reading.specs.Shapes.{kind_as, width_in, unknown?, decode?, RecordAs};

use crate::Shape;
use records::Pauli;

// The kind that a byte names; rows have 1 to 16 qubits.
#[tactic(auto, unfolding(records::specs::Records::kind_of))]
fn named(b: u8) -> Shape
    ensures { (kind_of b ≡ kind_as result) × (width_in result ≤ 16) }
{
    match b {
        1 => Shape::Size,
        2 => Shape::Lose,
        3 => Shape::Light(Pauli::Z),
        4 => Shape::Light(Pauli::X),
        5 => Shape::Decode,
        6 => Shape::Unread(Pauli::Z),
        7 => Shape::Unread(Pauli::X),
        8 => Shape::Logical,
        33..=48 => Shape::Row(Pauli::X, b - 32),
        65..=80 => Shape::Row(Pauli::Z, b - 64),
        _ => Shape::Unknown,
    }
}

impl Shape {
    // The length of a record of the kind, its kind byte counted; of an unknown kind no body is read.
    fn length(self) -> usize
        ensures { result ≡ whole_length (kind_as self) }
    {
        match self {
            Shape::Unknown | Shape::Wrong => 1,
            Shape::Size => 7,
            Shape::Row(_, w) => 1 + 2 * usize::from(w),
            Shape::Lose | Shape::Light(_) | Shape::Unread(_) | Shape::Logical => 3,
            Shape::Decode => 4,
        }
    }

    // Whether the byte named no kind.
    fn is_unknown(self) -> bool
        ensures { result ≡ unknown? self }
    {
        matches!(self, Shape::Unknown | Shape::Wrong)
    }

    // Whether it is a decode.
    pub fn is_decode(self) -> bool
        ensures { result ≡ decode? self }
    {
        matches!(self, Shape::Decode)
    }
}

// How many bytes a record has whose first byte is this.
pub fn whole_length(kind: u8) -> usize
    ensures { result ≡ whole_length (kind_of kind) }
{
    named(kind).length()
}

// What the bytes are.
pub fn shape_of(bytes: &[u8]) -> Shape
    ensures { RecordAs bytes.now result }
{
    if bytes.is_empty() {
        return Shape::Wrong;
    }
    let shape = named(bytes[0]);
    if shape.is_unknown() {
        return Shape::Unknown;
    }
    if bytes.len() != shape.length() {
        return Shape::Wrong;
    }
    shape
}
