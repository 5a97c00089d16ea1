// A caller of the stream in another crate: it goes by the stream's one claim about whole lists of calls.
#![tactic(auto)]

ghost use Rattle.machine.specs.Lent.{SameHalf};
ghost use Rattle.records.specs.Lent.{lent_by, SamePassed};
ghost use Rattle.caller.specs.TwoRecords.{TwoRecords};

use machine::LentHalf;
use records::{PassedLists, Reply};

// Two records from a fresh start, with the same lists lent to both calls; the reply to the second.
pub fn two_records(
    passed: &mut PassedLists<'_>,
    work: &mut [u64],
    x: &mut LentHalf<'_>,
    z: &mut LentHalf<'_>,
    first: &[u8],
    second: &[u8],
) -> Reply
    ensures two_records { TwoRecords first.now second.now (lent_by passed.old work.old x.old z.old) (lent_by passed.new work.new x.new z.new) result }
    ensures same_passed { SamePassed passed.old passed.new }
    ensures same_x { SameHalf x.old x.new }
    ensures same_z { SameHalf z.old z.new }
{
    let to_first = stream::step(states::fresh(), passed, work, x, z, first);
    let to_second = stream::step(to_first.state, passed, work, x, z, second);
    to_second
}
