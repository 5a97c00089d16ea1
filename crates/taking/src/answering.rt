// The answer to a record.
ghost use Rattle.std.specs.Prelude.{◌≡◌, ◌+◌, ◌≤◌, ◌<◌, length};
ghost use Rattle.lines.specs.Lines.{lines_of};
ghost use Rattle.cutting.specs.Room.{answer_most};
ghost use Rattle.taking.specs.Progress.{record_at, Ready, PutAll, Answered};

use crate::Progress;
use cutting::{is_full, is_last, next_length};
use machine::LentHalf;
use records::Reply;
use std::io::Write;

// The part of a block that the next record occupies.
pub fn next_record(p: Progress, block: &[u8]) -> &[u8]
    requires { p.taken + p.next ≤ length block.now }
    ensures { result.now ≡ record_at p block.now }
{
    &block[p.taken..p.taken + p.next]
}

// The next record is answered: its lines are put to the output, and a refusal that begins a run is told to `errors`. x, z: the lists of the halves. most: the records that have a place.
pub fn answered<E: Write>(
    errors: &mut E,
    p: Progress,
    ended: bool,
    reply: Reply,
    block: &[u8],
    x: &LentHalf<'_>,
    z: &LentHalf<'_>,
    out: &mut [u8],
    most: usize,
) -> Progress
    requires { (p.taken + p.next ≤ length block.now) × (0 < p.next) × Ready ended p block.now out.old most × (length x.now.correction.now ≤ 1024) × (length z.now.correction.now ≤ 1024) }
    ensures { Answered ended p reply block.now x.now.correction.now z.now.correction.now out.old out.new most result }
{
    let state = reply.state;
    let answer = reply.answer;
    let bytes = next_record(p, block);
    telling::tell_refusal(errors, p.tally, p.state, answer, bytes);
    let put = put_lines(out, p.put, reply, bytes[0], x, z);
    let over = is_last(answer);
    let taken = p.taken + p.next;
    let noted = p.noted + 1;
    let full = is_full(put, out.len(), noted, most);
    Progress {
        state,
        tally: p.tally.add(bytes.len(), answer),
        taken,
        next: next_length(full | over, block, taken, ended),
        put,
        noted,
        over,
    }
}

// The lines of an answer are put behind the first `at` bytes, which have room for them; where they end.
fn put_lines(
    out: &mut [u8],
    at: usize,
    reply: Reply,
    kind: u8,
    x: &LentHalf<'_>,
    z: &LentHalf<'_>,
) -> usize
    requires { (at + answer_most ≤ length out.old) × (length x.now.correction.now ≤ 1024) × (length z.now.correction.now ≤ 1024) }
    ensures { PutAll (lines_of kind reply.answer x.now.correction.now z.now.correction.now reply.state.sizes.n) at out.old out.new result }
{
    let n = reply.state.sizes.n;
    let of_x: &[u8] = &*x.correction;
    let of_z: &[u8] = &*z.correction;
    lines::put_answer(out, at, reply.answer, kind, of_x, of_z, n).unwrap_or(at)
}
