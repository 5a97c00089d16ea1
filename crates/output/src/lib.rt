// Standard output, or another writer: what it takes, and that it takes nothing more once a write has failed.
#![tactic(auto)]

ghost use Rattle.std.specs.Prelude.{◌≡◌, ◌≤◌, length, pos, MatchOption};
ghost use Rattle.std.specs.IoError.{raw_os_error};
ghost use Rattle.output.specs.Writing.{passing, Step, Reached, Whole, Flush};

use std::io;
use std::io::Write;
use std::thread::yield_now;

// The numbers that Linux gives these errors: a call was interrupted; there is nothing to read, or no room, for now; input or output failed.
const EINTR: i32 = 4;

const EAGAIN: i32 = 11;

const EIO: i32 = 5;

// What standard output has taken in the whole run: its bytes, and the records that they answer in full. failed: a write has failed.
#[derive(Clone, Copy)]
pub struct Output {
    pub bytes: u64,
    pub records: u64,
    pub failed: bool,
}

// Whether a read or a write that failed is tried again: it was interrupted, or there is nothing to read, or no room, for now. Then others
// run first.
pub fn try_again(error: i32) -> bool
    ensures { result ≡ passing error }
{
    if error == EAGAIN {
        yield_now();
        true
    } else {
        error == EINTR
    }
}

// The number of the error of a read or a write. One that is not the system's has none, and counts as input or output that failed.
pub fn error_number(error: &io::Error) -> i32
    ensures { MatchOption (raw_os_error error.now) (result ≡ pos 5) (λ n. result ≡ n) }
{
    error.raw_os_error().unwrap_or(EIO)
}

// One write of the bytes behind the first `count`, which are taken already: how many are taken then. It has failed where it took nothing and
// is not tried again.
fn write_once<W: Write>(to: &mut W, text: &[u8], count: usize) -> Option<usize>
    requires { count ≤ length text.now }
    ensures { Step count (length text.now) result }
{
    match to.write(&text[count..]) {
        Ok(0) => None,
        Ok(got) => Some(count + got),
        Err(error) if try_again(error_number(&error)) => Some(count),
        Err(_) => None,
    }
}

// Writes a text, and answers how many of its bytes were taken. What a write took is never written again, and what it did not take is tried
// again until a write fails. A proved loop has to end, so the writes are counted, up to a number that no output uses up.
fn write_out<W: Write>(to: &mut W, text: &[u8]) -> usize
    ensures most { result ≤ length text.now }
    ensures reached { Reached (length text.now) result }
{
    let mut count = 0;
    for _ in 0..u64::MAX {
        if count == text.len() {
            break;
        }
        let Some(taken) = write_once(to, text, count) else {
            break;
        };
        count = taken;
    }
    count
}

// How many records, from the first, end within the first `count` bytes. places: where the lines of each end.
fn whole_records(places: &[usize], count: usize) -> usize
    ensures { Whole places.now count result }
{
    places
        .iter()
        .position(|&end| end > count)
        .unwrap_or(places.len())
}

// Writes a text, and counts its bytes and its records that were taken. A failed output is handed back as it is, without a write.
pub fn flush<W: Write>(to: &mut W, output: Output, text: &[u8], places: &[usize]) -> Output
    ensures { Flush output text.now places.now result }
{
    if output.failed {
        return output;
    }
    let count = write_out(to, text);
    let whole = whole_records(places, count);
    Output {
        bytes: output.bytes.saturating_add(count as u64),
        records: output.records.saturating_add(whole as u64),
        failed: count < text.len(),
    }
}
