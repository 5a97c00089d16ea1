// The stream of records: one call for each record, from a fresh start.
#![tactic(auto)]

mod lent;
mod take;

ghost use Rattle.machine.specs.Lent.{SameHalf};
ghost use Rattle.records.specs.Lent.{lent_by, SamePassed};
ghost use Rattle.records.specs.Promise.{Promise};

use machine::LentHalf;
use records::{PassedLists, Reply, State};

// One record: the state and the lists that pass from call to call go in as the last call left them, with a work list and the lists of both halves of a decode.
pub fn step(
    st: State,
    passed: &mut PassedLists<'_>,
    work: &mut [u64],
    x: &mut LentHalf<'_>,
    z: &mut LentHalf<'_>,
    bytes: &[u8],
) -> Reply
    ensures promised { Promise st bytes.now (lent_by passed.old work.old x.old z.old) (lent_by passed.new work.new x.new z.new) result }
    ensures same_passed { SamePassed passed.old passed.new }
    ensures same_x { SameHalf x.old x.new }
    ensures same_z { SameHalf z.old z.new }
{
    let shape = reading::shape_of(bytes);
    if shape.is_decode() {
        let budget = reading::byte_at(bytes, 1);
        let limit = reading::number(bytes, 2);
        return lent::decode_lent(
            st,
            budget,
            limit,
            passed.flat,
            passed.ends,
            passed.shot,
            passed.window,
            work,
            x,
            z,
        );
    }
    let short = lent::short_passed(passed, work);
    take::take(st, shape, passed, bytes, short)
}
