// The numbers in a record's bytes.
ghost use Rattle.std.specs.Prelude.{◌≡◌, get_or};
ghost use Rattle.records.specs.Records;
ghost use Rattle.reading.specs.Shapes.{RowBody};

// The byte at place i; past the end there is 0.
pub fn byte_at(bytes: &[u8], i: usize) -> u8
    ensures { result ≡ get_or bytes.now i 0 }
{
    bytes.get(i).copied().unwrap_or(0)
}

// The number at byte i: two bytes, low byte first; past the end both are 0.
#[tactic(auto, unfolding(records::specs::Records::number))]
pub fn number(bytes: &[u8], i: usize) -> u16
    ensures { result ≡ Records.number bytes.now i }
{
    if bytes.len() <= i {
        return 0;
    }
    let low = u16::from(byte_at(bytes, i));
    let high = u16::from(byte_at(bytes, i + 1));
    low + 256 * high
}

// The w numbers of a row's body, at the start of an array, and 0 behind them; a row has at most 16.
pub fn qubits_of(bytes: &[u8], w: usize) -> [u16; 16]
    ensures { RowBody bytes.now w result }
{
    let mut qubits = [0u16; 16];
    if 16 < w {
        return qubits;
    }
    for i in 0..w {
        qubits[i] = number(bytes, 1 + 2 * i);
    }
    qubits
}
