// Whether a decode is refused: its lists and its tests.
#![tactic(auto)]

ghost use Rattle.std.specs.Prelude.{◌≡◌};
ghost use Rattle.records.specs.Lists.{held, lent_of, short_half};
ghost use Rattle.decodable.specs.Read.{half_read, six_read};
ghost use Rattle.decodable.specs.Tests.{lacking?, test_of};

use code::CodeLists;
use records::{Refusal, Reply, Sizes, State};
use rules::{codeless, in_range, short_lists};
use states::refused_decode;

// The lists of a half, to be read only.
#[derive(Clone, Copy)]
pub struct HalfRead<'a> {
    pub marks: &'a [u8],
    pub forms: &'a [u64],
    pub correction: &'a [u8],
}

// Whether one of the three lists of a half is too short for n qubits.
fn short_half(n: u16, half: &HalfRead<'_>) -> bool
    ensures { result ≡ short_half (half_read half.now) n }
{
    let size = usize::from(n);
    (half.marks.len() < size) | (half.forms.len() < 4 * size) | (half.correction.len() < size)
}

// Whether a list is short. Sizes that are out of range stand in an altered state only.
pub fn lacking(
    sizes: Sizes,
    code: &CodeLists<'_>,
    shot: &[u8],
    window: &[u16],
    work: &[u64],
    x: &HalfRead<'_>,
    z: &HalfRead<'_>,
) -> bool
    ensures { result ≡ lacking? sizes (lent_of (held code.now.flat.now code.now.ends.now shot.now) window.now work.now (six_read x.now z.now)) }
{
    let lists = short_lists(code.flat, code.ends, shot, window, work);
    let halves = short_half(sizes.n, x) | short_half(sizes.n, z);
    lists | halves | !in_range(sizes)
}

// The tests in the table's order; where one fails, the reply that refuses.
#[tactic(auto, unfolding(crate::specs::Tests::test_of))]
pub fn tested(st: State, lacking: bool) -> Result<(), Reply>
    ensures { result ≡ test_of st lacking }
{
    if codeless(st) {
        return Err(refused_decode(st, Refusal::Codeless));
    }
    if st.spoiled {
        return Err(refused_decode(st, Refusal::Spoiled));
    }
    if lacking {
        return Err(refused_decode(st, Refusal::Short));
    }
    Ok(())
}
