// The loop: a block of input at a time, to the end.
ghost use Rattle.std.specs.Prelude.{◌≡◌, false, ◌≤◌, length};
ghost use Rattle.records.specs.Lent.{SamePassed};
ghost use Rattle.taking.specs.Taking.{passed_by};
ghost use Rattle.cutting.specs.Room.{is_full};
ghost use Rattle.shots.specs.Run.{HasRoom, BlockTaken, Ran};

use counts::Tally;
use input::Refilled;
use output::Output;
use records::{PassedLists, State};
use std::io::{Read, Write};

// What passes from block to block: the state, the counts, how many bytes are held at the front of the next one, and what is written.
// last: the records are over. ended: no more bytes come. over: nothing more is read. error: errno where the last read failed.
#[derive(Clone, Copy)]
pub struct Between {
    state: State,
    tally: Tally,
    held: usize,
    output: Output,
    last: bool,
    ended: bool,
    over: bool,
    error: Option<i32>,
}

// Takes the records of the bytes held and read, and holds what is left.
fn take_block<W: Write, E: Write>(
    to: &mut W,
    errors: &mut E,
    here: Between,
    read: Refilled,
    passed: &mut PassedLists<'_>,
    block: &mut [u8],
    out: &mut [u8],
    places: &mut [usize],
) -> Between
    requires { (read.end ≤ length block.old) × (here.last ≡ false) × (is_full 0 (length out.old) 0 (length places.old) ≡ false) }
    ensures taken { BlockTaken here read (passed_by passed.old) block.old (passed_by passed.new) block.new result }
    ensures same_passed { SamePassed passed.old passed.new }
{
    let end = read.end;
    let b = blocks::one_block(
        to,
        errors,
        here.state,
        here.tally,
        here.output,
        read.ended,
        passed,
        &block[..end],
        out,
        places,
    );
    let after = b.output;
    Between {
        state: b.state,
        tally: b.tally,
        held: input::keep(block, b.taken, end),
        output: after,
        last: b.over,
        ended: read.ended,
        over: after.failed | b.over | read.ended,
        error: read.error,
    }
}

// Block after block to the end: of the input, after refusal 1 or a record that is cut off, or at a write that failed. A proved loop has to
// end, so the refills are counted down; each that does not end the run brings a byte, so that no input of up to 2^63 bytes uses them up.
pub fn run<R: Read, W: Write, E: Write>(
    from: &mut R,
    to: &mut W,
    errors: &mut E,
    passed: &mut PassedLists<'_>,
    block: &mut [u8],
    out: &mut [u8],
    places: &mut [usize],
) -> Between
    requires { HasRoom (length block.old) (length out.old) (length places.old) }
    ensures ran { Ran (passed_by passed.old) (passed_by passed.new) block.new result }
    ensures same_passed { SamePassed passed.old passed.new }
{
    let tally = Tally {
        bytes: 0,
        records: 0,
        codes: 0,
        decodes: 0,
        refusals: 0,
        last: None,
        more: 0,
    };
    let output = Output {
        bytes: 0,
        records: 0,
        failed: false,
    };
    let mut here = Between {
        state: states::fresh(),
        tally,
        held: 0,
        output,
        last: false,
        ended: false,
        over: false,
        error: None,
    };
    let mut refills = u64::MAX;
    while refills > 0 && !here.over {
        let read = input::refill(from, block, here.held);
        here = take_block(to, errors, here, read, passed, block, out, places);
        refills -= 1;
    }
    here
}

// Tells how the run ended.
pub fn tell<E: Write>(errors: &mut E, end: Between) {
    telling::tell_end(errors, end.tally, end.state);
    telling::tell_read(errors, end.error);
    if end.output.failed {
        telling::tell_write(errors, end.output.bytes, end.output.records);
    }
}
