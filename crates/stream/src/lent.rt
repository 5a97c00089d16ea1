// Calls with the lists that pass from call to call, each as a list of its own.
ghost use Rattle.std.specs.Prelude.{◌≡◌, length};
ghost use Rattle.machine.specs.Lent.{SameHalf};
ghost use Rattle.records.specs.Records.{report};
ghost use Rattle.records.specs.Lists.{held, lent_of, short_lists};
ghost use Rattle.records.specs.Lent.{code_and_shot};
ghost use Rattle.records.specs.Promise.{Promised};
ghost use Rattle.decoding.specs.Decoding.{six_lent};

use code::CodeLists;
use machine::LentHalf;
use records::{PassedLists, Reply, State};

// Whether a list of code, shot, window or work is below its least length.
pub fn short_passed(passed: &PassedLists<'_>, work: &[u64]) -> bool
    ensures { result ≡ short_lists (code_and_shot passed.now) (length passed.now.window.now) (length work.now) }
{
    rules::short_lists(passed.flat, passed.ends, passed.shot, passed.window, work)
}

// The decode of a shot. All lists are lent for writing, since one call cannot read a field and lend another of the same lists.
pub fn decode_lent(
    st: State,
    budget: u8,
    limit: u16,
    flat: &mut [u16],
    ends: &mut [u16],
    shot: &mut [u8],
    window: &mut [u16],
    work: &mut [u64],
    x: &mut LentHalf<'_>,
    z: &mut LentHalf<'_>,
) -> Reply
    ensures promised { Promised (report budget limit) st (lent_of (held flat.old ends.old shot.old) window.old work.old (six_lent x.old z.old)) (lent_of (held flat.new ends.new shot.new) window.new work.new (six_lent x.new z.new)) result }
    ensures same_x { SameHalf x.old x.new }
    ensures same_z { SameHalf z.old z.new }
{
    let flat: &[u16] = &*flat;
    let ends: &[u16] = &*ends;
    let code = CodeLists { flat, ends };
    decoding::decode(st, budget, limit, &code, shot, window, work, x, z)
}
