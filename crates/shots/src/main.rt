// Reads records from standard input, and writes the lines of their answers to standard output.
#![tactic(auto)]

mod arguments;
mod run;

use records::PassedLists;

// The lists of code, shot and window at their least lengths, the blocks in which the program reads and writes, and places for the records that a
// block of output answers.
fn read_records(rt: HostRuntime) {
    let mut flat = [0u16; 16384];
    let mut ends = [0u16; 16384];
    let mut shot = [0u8; 2048];
    let mut window = [0u16; 2560];
    let mut input = [0u8; 65536];
    let mut out = [0u8; 65536];
    let mut places = [0usize; 16384];
    let mut passed = PassedLists {
        flat: &mut flat,
        ends: &mut ends,
        shot: &mut shot,
        window: &mut window,
    };
    let mut errors = rt.stderr();
    let end = run::run(
        &mut rt.stdin(),
        &mut rt.stdout(),
        &mut errors,
        &mut passed,
        &mut input,
        &mut out,
        &mut places,
    );
    run::tell(&mut errors, end);
}

// An argument is answered, and nothing is read.
fn main(rt: HostRuntime) {
    if arguments::answered(&rt, arguments::count(&rt)) {
        return;
    }
    read_records(rt);
}
