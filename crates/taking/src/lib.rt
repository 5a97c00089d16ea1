// The records of a block of input, one at a time.
#![tactic(auto)]

mod answering;

ghost use Rattle.std.specs.Prelude.{◌≡◌, length};
ghost use Rattle.records.specs.Lent.{SamePassed};
ghost use Rattle.taking.specs.Taking.{passed_by};
ghost use Rattle.taking.specs.Progress.{begin_of, Going, Filled};

use counts::Tally;
use cutting::{is_full, next_length};
use machine::LentHalf;
use records::{PassedLists, State};
use std::io::Write;

// How far a block is done. taken: the bytes of input taken. next: those of the next record, 0 where none is to be taken before what is put
// is written. put: the bytes of output put. noted: the records that they answer. over: no record follows, here or in a later block.
#[derive(Clone, Copy)]
pub struct Progress {
    pub state: State,
    pub tally: Tally,
    pub taken: usize,
    pub next: usize,
    pub put: usize,
    pub noted: usize,
    pub over: bool,
}

// Nothing of the output is put yet. room, most: how many bytes and how many places it has.
fn begin(
    state: State,
    tally: Tally,
    taken: usize,
    ended: bool,
    block: &[u8],
    room: usize,
    most: usize,
) -> Progress
    ensures { result ≡ begin_of state tally taken ended block.now room most }
{
    Progress {
        state,
        tally,
        taken,
        next: next_length(is_full(0, room, 0, most), block, taken, ended),
        put: 0,
        noted: 0,
        over: false,
    }
}

// Takes record after record, with lists for their decodes.
// Inlined, so that the program's loop knows the lengths of its lists.
#[inline(always)]
fn all_records<E: Write>(
    errors: &mut E,
    mut p: Progress,
    ended: bool,
    passed: &mut PassedLists<'_>,
    block: &[u8],
    out: &mut [u8],
    places: &mut [usize],
) -> Progress
    requires { (p.put ≡ 0) × (p.noted ≡ 0) × Going ended p block.now out.old places.old }
    ensures filled { Filled ended p (passed_by passed.old) (passed_by passed.new) block.now out.new places.new result }
    ensures same_passed { SamePassed passed.old passed.new }
{
    let mut work = [0u64; 10240];
    let mut x_marks = [0u8; 1024];
    let mut x_forms = [0u64; 4096];
    let mut x_correction = [0u8; 1024];
    let mut z_marks = [0u8; 1024];
    let mut z_forms = [0u64; 4096];
    let mut z_correction = [0u8; 1024];
    let work: &mut [u64] = &mut work;
    let mut x = LentHalf {
        marks: &mut x_marks,
        forms: &mut x_forms,
        correction: &mut x_correction,
    };
    let mut z = LentHalf {
        marks: &mut z_marks,
        forms: &mut z_forms,
        correction: &mut z_correction,
    };
    let most = places.len();
    while p.next > 0 {
        let at = p.noted;
        let bytes = answering::next_record(p, block);
        let reply = stream::step(p.state, passed, work, &mut x, &mut z, bytes);
        p = answering::answered(errors, p, ended, reply, block, &x, &z, out, most);
        places[at] = p.put;
    }
    p
}

// Takes the records that a block holds whole from byte `from` on and, where the input has ended, one that is cut off, as long as there is
// room for another answer. errors: what is told of refusals. places: where the lines of each record end.
pub fn take_records<E: Write>(
    errors: &mut E,
    st: State,
    tally: Tally,
    from: usize,
    ended: bool,
    passed: &mut PassedLists<'_>,
    block: &[u8],
    out: &mut [u8],
    places: &mut [usize],
) -> Progress
    ensures filled { Filled ended (begin_of st tally from ended block.now (length out.old) (length places.old)) (passed_by passed.old) (passed_by passed.new) block.now out.new places.new result }
    ensures same_passed { SamePassed passed.old passed.new }
{
    let p = begin(st, tally, from, ended, block, out.len(), places.len());
    all_records(errors, p, ended, passed, block, out, places)
}
