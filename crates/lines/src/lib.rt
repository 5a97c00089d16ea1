// The lines of an answer, put to a list of bytes.
#![tactic(auto)]

mod halves;

ghost use Rattle.std.specs.Prelude.{◌≡◌, ◌+◌, leb, length};
ghost use Rattle.text.specs.Line.{Adds};
ghost use Rattle.lines.specs.Lines.{code_line, refused_line, lines_of, room_for, Lined};

use halves::put_half;
use records::{Answer, Refusal, Sizes};
use text::Line;

// The line of a complete code.
fn put_code(line: &mut Line<'_>, sizes: Sizes)
    ensures { Adds (code_line sizes) line.old line.new }
{
    line.put_text(b"code");
    line.put_number(sizes.n as u64);
    line.put_number(sizes.x as u64);
    line.put_number(sizes.z as u64);
    line.put_byte(b'\n');
}

// The line of a refusal.
fn put_refusal(line: &mut Line<'_>, refusal: Refusal, kind: u8)
    ensures { Adds (refused_line refusal kind) line.old line.new }
{
    line.put_text(b"refused");
    line.put_number(rules::refusal_number(refusal) as u64);
    line.put_number(kind as u64);
    line.put_byte(b'\n');
}

// The lines of an answer; a record that was only taken has none. x and z: the corrections of the halves.
fn put_lines(line: &mut Line<'_>, answer: Answer, kind: u8, x: &[u8], z: &[u8], n: u16)
    ensures { Adds (lines_of kind answer x.now z.now n) line.old line.new }
{
    match answer {
        Answer::Refused(refusal) => put_refusal(line, refusal, kind),
        Answer::Taken => {}
        Answer::Complete(sizes) => put_code(line, sizes),
        Answer::Decoded(report) => {
            put_half(line, b'X', report.x, x, n);
            put_half(line, b'Z', report.z, z, n);
        }
    }
}

// The room that is enough for every answer with these corrections.
fn room_for(n: u16, x: &[u8], z: &[u8]) -> usize
    ensures { result ≡ room_for n x.now z.now }
{
    let n = usize::from(n);
    256 + 6 * (n.min(x.len()) + n.min(z.len()))
}

// Whether so many bytes have room behind the first `at`.
fn has_room(out: &[u8], at: usize, most: usize) -> bool
    ensures { result ≡ leb (at + most) (length out.now) }
{
    at <= out.len() && most <= out.len() - at
}

// Puts the lines of an answer behind the first `at` bytes, and answers where they end; where they may have no room nothing is put.
// kind: the record's first byte. n: the code's qubits.
pub fn put_answer(
    out: &mut [u8],
    at: usize,
    answer: Answer,
    kind: u8,
    x: &[u8],
    z: &[u8],
    n: u16,
) -> Option<usize>
    ensures { Lined (lines_of kind answer x.now z.now n) (room_for n x.now z.now) at out.old out.new result }
{
    if !has_room(out, at, room_for(n, x, z)) {
        return None;
    }
    let mut line = Line {
        bytes: out,
        end: at,
    };
    put_lines(&mut line, answer, kind, x, z, n);
    Some(line.end)
}
