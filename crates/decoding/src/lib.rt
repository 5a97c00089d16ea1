// The record that decodes a shot.
#![tactic(auto)]

ghost use Rattle.std.specs.Prelude.{◌≡◌, ◌≤◌, length};
ghost use Rattle.machine.specs.Lent.{SameHalf};
ghost use Rattle.records.specs.Records.{report};
ghost use Rattle.records.specs.Lists.{held, lent_of};
ghost use Rattle.records.specs.Promise.{Promised};
ghost use Rattle.decodable.specs.Tests.{lacking?};
ghost use Rattle.decoding.specs.Decoding.{readings_of, report_in, six_lent, Reports, Replies};

use code::{CodeLists, Row, Rows};
use decodable::{HalfRead, lacking, tested};
use halves::decode_half;
use machine::{HalfReport, LentHalf, Word};
use readout::begin;
use records::{Answer, Reply, Report, Sizes, State};
use scans::HalfRows;
use states::{ended, reported};

// The part of the shot's list that has the rows' elements.
fn readings(shot: &[u8]) -> &[u8]
    requires { 1024 ≤ length shot.now }
    ensures { result.now ≡ readings_of shot.now }
{
    &shot[1024..]
}

// What is reported of a half. One that is refused is told as stopped before its first turn.
fn report_in(answer: Option<HalfReport>) -> HalfReport
    ensures { result ≡ report_in answer }
{
    answer.unwrap_or(HalfReport {
        word: Word::Stopped,
        fixed: 0,
        turns: 0,
        guesses: 0,
        live: 0,
    })
}

// Whether a list is short, of lists as a decode is lent them.
fn lacks(
    sizes: Sizes,
    code: &CodeLists<'_>,
    shot: &[u8],
    window: &[u16],
    work: &[u64],
    x: &LentHalf<'_>,
    z: &LentHalf<'_>,
) -> bool
    ensures { result ≡ lacking? sizes (lent_of (held code.now.flat.now code.now.ends.now shot.now) window.now work.now (six_lent x.now z.now)) }
{
    let x_read = HalfRead {
        marks: &*x.marks,
        forms: &*x.forms,
        correction: &*x.correction,
    };
    let z_read = HalfRead {
        marks: &*z.marks,
        forms: &*z.forms,
        correction: &*z.correction,
    };
    lacking(sizes, code, shot, window, work, &x_read, &z_read)
}

// Both halves: X errors from the Z rows, Z errors from the X rows.
fn decode_halves(
    sizes: Sizes,
    budget: u8,
    limit: u16,
    code: &CodeLists<'_>,
    shot: &[u8],
    work: &mut [u64],
    x: &mut LentHalf<'_>,
    z: &mut LentHalf<'_>,
) -> Report
    requires { 1024 ≤ length shot.now }
    ensures reports { Reports sizes budget limit (held code.now.flat.now code.now.ends.now shot.now) work.old work.new (six_lent x.old z.old) (six_lent x.new z.new) result }
    ensures same_x { SameHalf x.old x.new }
    ensures same_z { SameHalf z.old z.new }
{
    let x_rows = Rows {
        first: Row(0),
        count: sizes.x,
    };
    let z_rows = Rows {
        first: Row(sizes.x),
        count: sizes.z,
    };
    let x_half = HalfRows {
        n: sizes.n,
        code: *code,
        lit: readings(shot),
        rows: z_rows,
    };
    let z_half = HalfRows {
        rows: x_rows,
        ..x_half
    };
    let of_x = decode_half(&x_half, shot, x_rows, budget, limit, work, x);
    let of_z = decode_half(&z_half, shot, z_rows, budget, limit, work, z);
    Report {
        x: report_in(of_x),
        z: report_in(of_z),
    }
}

// The reply to a decode: the shot is ended, and the report enters the window.
fn report_of(st: State, decoded: Report, window: &mut [u16]) -> Reply
    ensures { Replies st decoded window.old window.new result }
{
    let reports = window::enter(st.reports, decoded, window);
    Reply {
        state: reported(ended(st), reports),
        answer: Answer::Decoded(decoded),
    }
}

// The decode of a shot, which ends it.
pub fn decode(
    st: State,
    budget: u8,
    limit: u16,
    code: &CodeLists<'_>,
    shot: &mut [u8],
    window: &mut [u16],
    work: &mut [u64],
    x: &mut LentHalf<'_>,
    z: &mut LentHalf<'_>,
) -> Reply
    ensures promised { Promised (report budget limit) st (lent_of (held code.now.flat.now code.now.ends.now shot.old) window.old work.old (six_lent x.old z.old)) (lent_of (held code.now.flat.now code.now.ends.now shot.new) window.new work.new (six_lent x.new z.new)) result }
    ensures same_x { SameHalf x.old x.new }
    ensures same_z { SameHalf z.old z.new }
{
    let sizes = st.sizes;
    let short = lacks(sizes, code, shot, window, work, x, z);
    if let Err(refusal) = tested(st, short) {
        return refusal;
    }
    begin(st, shot);
    let decoded = decode_halves(sizes, budget, limit, code, shot, work, x, z);
    report_of(st, decoded, window)
}
