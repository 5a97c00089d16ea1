// A block of input, a buffer of output at a time.
#![tactic(auto)]

ghost use Rattle.std.specs.Prelude.{false, ◌≤◌, length};
ghost use Rattle.records.specs.Lent.{SamePassed};
ghost use Rattle.taking.specs.Taking.{passed_by};
ghost use Rattle.cutting.specs.Room.{is_full};
ghost use Rattle.blocks.specs.Blocks.{begun, Emptied, Begins, Went, Done};

use counts::Tally;
use output::Output;
use records::{PassedLists, State};
use std::io::Write;
use taking::Progress;

// How far a block is done. taken: the bytes taken. next: those of the next record, 0 where none is to be taken. over: no record follows,
// here or in a later block.
#[derive(Clone, Copy)]
pub struct Block {
    pub state: State,
    pub tally: Tally,
    pub taken: usize,
    pub next: usize,
    pub over: bool,
    pub output: Output,
}

// What is put is written. After a failed write no record is taken.
fn flushed<W: Write>(
    to: &mut W,
    p: Progress,
    output: Output,
    ended: bool,
    block: &[u8],
    out: &[u8],
    places: &[usize],
) -> Block
    requires { (p.put ≤ length out.now) × (p.noted ≤ length places.now) }
    ensures { Emptied ended p output block.now out.now places.now result }
{
    let after = output::flush(to, output, &out[..p.put], &places[..p.noted]);
    Block {
        state: p.state,
        tally: p.tally,
        taken: p.taken,
        next: cutting::next_length(after.failed | p.over, block, p.taken, ended),
        over: p.over,
        output: after,
    }
}

// Takes records until there is no room for another answer, and writes their lines.
fn one_buffer<W: Write, E: Write>(
    to: &mut W,
    errors: &mut E,
    b: Block,
    ended: bool,
    passed: &mut PassedLists<'_>,
    block: &[u8],
    out: &mut [u8],
    places: &mut [usize],
) -> Block
    requires { Begins ended b block.now (length out.old) (length places.old) }
    ensures went { Went ended b (passed_by passed.old) (passed_by passed.new) block.now result }
    ensures same_passed { SamePassed passed.old passed.new }
{
    let p = taking::take_records(
        errors, b.state, b.tally, b.taken, ended, passed, block, out, places,
    );
    flushed(to, p, b.output, ended, block, out, places)
}

// Takes the records of a block, and writes their lines before more is read. Nothing is taken where the output has failed or has no room
// for an answer.
pub fn one_block<W: Write, E: Write>(
    to: &mut W,
    errors: &mut E,
    state: State,
    tally: Tally,
    output: Output,
    ended: bool,
    passed: &mut PassedLists<'_>,
    block: &[u8],
    out: &mut [u8],
    places: &mut [usize],
) -> Block
    ensures done { Done ended (is_full 0 (length out.old) 0 (length places.old)) (begun state tally (passed_by passed.old) block.now) output (passed_by passed.new) block.now result }
    ensures same_passed { SamePassed passed.old passed.new }
{
    let full = cutting::is_full(0, out.len(), 0, places.len());
    let mut b = Block {
        state,
        tally,
        taken: 0,
        next: cutting::next_length(full | output.failed, block, 0, ended),
        over: false,
        output,
    };
    while b.next > 0 {
        b = one_buffer(to, errors, b, ended, passed, block, out, places);
    }
    b
}
