// Standard input, or another reader, read to a block behind the bytes that are held there.
#![tactic(auto)]

ghost use Rattle.std.specs.Prelude.{◌≡◌, ◌-◌, ◌≤◌, length, take};
ghost use Rattle.input.specs.Reading.{is_again, Attempt, Refills, Keeps};

use std::io::Read;

// How many bytes there are then. ended: no more come. error: errno where that is since a read failed. reads: how many were made.
#[derive(Clone, Copy)]
pub struct Refilled {
    pub end: usize,
    pub ended: bool,
    pub error: Option<i32>,
    pub reads: u64,
}

// One read to the block behind the `held` bytes: how many it gave, or errno.
fn read_once<R: Read>(from: &mut R, block: &mut [u8], held: usize) -> Result<usize, i32>
    requires { held ≤ length block.old }
    ensures gives { Attempt (length block.old - held) result }
    ensures stays { take held block.new ≡ take held block.old }
{
    match from.read(&mut block[held..]) {
        Ok(count) => Ok(count),
        Err(error) => Err(output::error_number(&error)),
    }
}

// Reads to the block behind the `held` bytes, again where a read was interrupted or there is nothing to read for now. A proved loop has to
// end, so the reads are counted: the last of 2^64 - 1 is not tried again, and a read that gave nothing is then the end of the input.
pub fn refill<R: Read>(from: &mut R, block: &mut [u8], held: usize) -> Refilled
    ensures { Refills block.old block.new held result }
{
    if block.len() < held {
        return Refilled {
            end: held,
            ended: true,
            error: None,
            reads: 0,
        };
    }
    let mut got = read_once(from, block, held);
    let mut reads: u64 = 1;
    while reads < u64::MAX && is_again(got) {
        got = read_once(from, block, held);
        reads += 1;
    }
    let count = got.unwrap_or(0);
    Refilled {
        end: held + count,
        ended: count == 0,
        error: got.err(),
        reads,
    }
}

// Whether a read is to be tried again.
fn is_again(got: Result<usize, i32>) -> bool
    ensures { result ≡ is_again got }
{
    matches!(got, Err(error) if output::try_again(error))
}

// Moves the bytes from `from` up to `end` to the front; answers how many they are.
pub fn keep(block: &mut [u8], from: usize, end: usize) -> usize
    ensures { Keeps block.old block.new from end result }
{
    if block.len() < end || end < from {
        return 0;
    }
    block.copy_within(from..end, 0);
    end - from
}
