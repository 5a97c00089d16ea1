// The program's arguments.
ghost use Rattle.std.specs.Prelude.{◌≡◌, ◌≤◌, leb};

use std::env::{Env, FillError};

// What `--help` tells.
fn tell_help(rt: &impl Print) {
    let _ = rt.println("usage: shots < RECORDS");
    let _ = rt.println(
        "Reads records of a code and its shots from standard input, and writes a line for each complete code, each half",
    );
    let _ = rt.println(
        "of a decode and each refused record to standard output. Standard error tells what is wrong and where.",
    );
    let _ = rt.println("  --help     tells this");
    let _ = rt.println("  --version  tells the version of the records");
}

// What `--version` tells.
fn tell_version(rt: &impl Print) {
    let _ = println!(rt; "shots {}", records::VERSION);
}

// What any other argument is told.
fn tell_unknown(rt: &impl Eprint) {
    let _ = rt.eprintln(
        "shots: takes no argument but --help or --version; records are read from standard input",
    );
}

// Whether the program has the argument `i`; argument 0 is its own name.
fn is_given(rt: &impl Env, i: usize) -> bool {
    let mut buffer = [0u8; 16];
    !matches!(rt.arg(i, &mut buffer), Err(FillError::NotPresent))
}

// How many arguments the program has, its own name among them; three where there are more.
pub fn count(rt: &impl Env) -> usize
    ensures { result ≤ 3 }
{
    if is_given(rt, 2) {
        3
    } else if is_given(rt, 1) {
        2
    } else {
        1
    }
}

// Whether the program has arguments, of which the first is its own name; `--help` and `--version` are answered, and any other one too.
pub fn answered(rt: &(impl Env + Print + Eprint), count: usize) -> bool
    ensures { result ≡ leb 2 count }
{
    if count < 2 {
        return false;
    }
    answer(rt, count);
    true
}

// The answer to the arguments.
fn answer(rt: &(impl Env + Print + Eprint), count: usize) {
    let mut buffer = [0u8; 16];
    let n = rt.arg(1, &mut buffer).unwrap_or(0);
    match &buffer[..n] {
        b"--help" if count == 2 => tell_help(rt),
        b"--version" if count == 2 => tell_version(rt),
        _ => tell_unknown(rt),
    }
}
