// What a refusal wants.
ghost use Rattle.std.specs.Prelude.{◌≡◌, ◌+◌};

use reading::{byte_at, number};
use records::{Phase, Refusal, Sizes, State};
use std::fmt;

// How many rows have come, of how many.
#[derive(Drop)]
pub struct Loaded {
    rows: u16,
    all: u32,
}

impl Loaded {
    // Of a code that is being loaded: rows of both kinds are awaited.
    pub fn new(st: State) -> Loaded
        ensures { (result.rows ≡ st.rows) × (result.all ≡ st.sizes.x + st.sizes.z) }
    {
        let sizes = st.sizes;
        Loaded {
            rows: st.rows,
            all: u32::from(sizes.x) + u32::from(sizes.z),
        }
    }
}

impl fmt::Display for Loaded {
    fn fmt<W: fmt::Write>(&self, f: &mut fmt::Formatter<W>) -> fmt::Result {
        write!(f, "{} of {} rows", self.rows, self.all)
    }
}

// The word of a refusal, and what it wants. st: the state before the record; bytes: the record's.
#[derive(Drop)]
pub struct Wanted<'a> {
    pub st: State,
    pub refusal: Refusal,
    pub bytes: &'a [u8],
}

impl fmt::Display for Wanted<'_> {
    fn fmt<W: fmt::Write>(&self, f: &mut fmt::Formatter<W>) -> fmt::Result {
        let bytes = self.bytes;
        match self.refusal {
            Refusal::Unknown => write!(f, "unknown: kinds 1 to 8, 33 to 48 and 65 to 80 wanted"),
            Refusal::Length => write_length(f, bytes),
            Refusal::Size => write_sizes(f, bytes),
            Refusal::Place => write_place(f, self.st),
            Refusal::Row => {
                let n = self.st.sizes.n;
                write!(f, "row: qubits below {n}, strictly ascending, wanted")
            }
            Refusal::Clash => {
                write!(
                    f,
                    "clash: some X row and some Z row share an odd number of qubits"
                )
            }
            Refusal::Codeless => write_codeless(f, self.st),
            Refusal::Range => write_range(f, self.st.sizes, bytes),
            Refusal::Twice => write_twice(f, self.st.sizes, bytes),
            Refusal::Spoiled => write!(f, "spoiled: a record of this shot was refused"),
            Refusal::Short => write!(f, "short: a lent list is below its least length"),
            Refusal::Encoded => {
                let told = number(bytes, 1);
                write!(f, "encoded: the rows do not encode {told} qubits")
            }
        }
    }
}

// Refusal 2: how many bytes came, of how many.
fn write_length<W: fmt::Write>(f: &mut fmt::Formatter<W>, bytes: &[u8]) -> fmt::Result {
    let came = bytes.len();
    let whole = bytes.first().map_or(1, |&kind| reading::whole_length(kind));
    write!(f, "length: cut off, {came} of {whole} bytes")
}

// Refusal 3: the sizes, and what they may be.
fn write_sizes<W: fmt::Write>(f: &mut fmt::Formatter<W>, bytes: &[u8]) -> fmt::Result {
    let n = number(bytes, 1);
    let x = number(bytes, 3);
    let z = number(bytes, 5);
    write!(
        f,
        "size: {n} qubits, {x} X rows, {z} Z rows; 1 to 1024 and up to 512 of each wanted"
    )
}

// Refusal 4: which row is awaited, if one is.
fn write_place<W: fmt::Write>(f: &mut fmt::Formatter<W>, st: State) -> fmt::Result {
    let sizes = st.sizes;
    match st.phase {
        Phase::Empty => write!(f, "place: no code is loading"),
        Phase::Loading if st.rows < sizes.x => {
            write!(f, "place: row {} of {} X rows awaited", st.rows, sizes.x)
        }
        Phase::Loading => {
            write!(
                f,
                "place: row {} of {} Z rows awaited",
                st.rows - sizes.x,
                sizes.z
            )
        }
        Phase::Ready => write!(f, "place: the code is complete"),
    }
}

// Refusal 7: what there is instead of a complete code.
fn write_codeless<W: fmt::Write>(f: &mut fmt::Formatter<W>, st: State) -> fmt::Result {
    match st.phase {
        Phase::Empty => write!(f, "codeless: no code is loaded"),
        Phase::Loading => write!(f, "codeless: code incomplete: {}", Loaded::new(st)),
        Phase::Ready => write!(f, "codeless"),
    }
}

// What a record of a shot names, and how many there are of it: kinds 3 and 6 a Z row, 4 and 7 an X row.
fn named(bytes: &[u8], sizes: Sizes) -> (&'static str, u16) {
    match byte_at(bytes, 0) {
        2 => ("qubit", sizes.n),
        3 | 6 => ("Z row", sizes.z),
        _ => ("X row", sizes.x),
    }
}

// Refusal 8: which number, among how many.
fn write_range<W: fmt::Write>(
    f: &mut fmt::Formatter<W>,
    sizes: Sizes,
    bytes: &[u8],
) -> fmt::Result {
    let (name, n) = named(bytes, sizes);
    let k = number(bytes, 1);
    write!(f, "range: {name} {k} of {n} {name}s")
}

// Refusal 9: which number is there already.
fn write_twice<W: fmt::Write>(
    f: &mut fmt::Formatter<W>,
    sizes: Sizes,
    bytes: &[u8],
) -> fmt::Result {
    let (name, _) = named(bytes, sizes);
    let k = number(bytes, 1);
    write!(f, "twice: {name} {k} is in this shot already")
}
