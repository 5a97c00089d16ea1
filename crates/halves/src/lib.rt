// The decode of a half of a shot.
#![tactic(auto)]

ghost use Rattle.machine.specs.Lent.{half_lists, SameHalf};
ghost use Rattle.halves.specs.Decode.{given, Decodes};

mod decode;
mod fills;

use code::Rows;
use machine::{HalfReport, LentHalf};
use scans::HalfRows;

// The decode of one half, of its own rows and the other kind's; None, and nothing written, where a size is out of range or a list too short. The work list is left with
// what is kept of its own rows.
pub fn decode_half(
    half: &HalfRows<'_>,
    lost: &[u8],
    others: Rows,
    budget: u8,
    limit: u16,
    work: &mut [u64],
    lists: &mut LentHalf<'_>,
) -> Option<HalfReport>
    ensures same { SameHalf lists.old lists.new }
    ensures decodes { Decodes (given half.now lost.now others budget limit) work.old work.new (half_lists lists.old) (half_lists lists.new) result }
{
    if !decode::is_enough(half, lost, others, work, lists) {
        return None;
    }
    let told = decode::run_half(
        half,
        lost,
        others,
        budget,
        limit,
        work,
        lists.marks,
        lists.forms,
    )?;
    decode::finish(
        half.n as usize,
        told.word,
        lists.marks,
        lists.forms,
        lists.correction,
    );
    Some(told)
}
