// A record's bytes, read: what they are, how long a record is, and the numbers of its body.
#![tactic(auto)]

mod bytes;
mod shapes;

pub use bytes::{byte_at, number, qubits_of};
use records::Pauli;
pub use shapes::{shape_of, whole_length};

// What a record's bytes are: of no kind, not of its length, or of a kind; rows with their kind and their number of qubits.
#[derive(Clone, Copy, PartialEq, Eq)]
pub enum Shape {
    Unknown,
    Wrong,
    Size,
    Row(Pauli, u8),
    Lose,
    Light(Pauli),
    Unread(Pauli),
    Decode,
    Logical,
}
