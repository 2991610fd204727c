// The test program: answers the lines of each file that an argument names, one after the other, or of standard input where there is no
// argument. Where one cannot be opened, read or fitted into the space, or a write fails: a line on standard error, and status 1.
#![tactic(auto)]

use std::env::Env;
use std::fs::File;
use std::process::ExitCode;
use std::rt::Files;
use std::{env, io};
use test_run::answer_input;

fn answer_file<R: Files + Print>(rt: &R, path: &str) -> io::Result<()> {
    answer_input(rt, &mut File::open(rt, path)?)
}

// Says on standard error with which input what failed, and gives the status.
fn failed(rt: &impl Eprint, input: &str, error: io::Error) -> ExitCode {
    let _ = eprintln!(rt; "test_calls: {input}: {error}");
    ExitCode::FAILURE
}

fn answer_all<R: Files + Env + AllocGlobal + Input + Print + Eprint>(
    rt: &R,
) -> Result<(), ExitCode> {
    let mut paths = env::args(rt).map_err(|error| failed(rt, "arguments", error))?;
    let _program = paths.next();
    if paths.len() == 0 {
        let answered = answer_input(rt, &mut rt.reader());
        return answered.map_err(|error| failed(rt, "standard input", error));
    }
    for path in paths {
        answer_file(rt, &path).map_err(|error| failed(rt, &path, error))?;
    }
    Ok(())
}

fn main(rt: HostRuntime) -> ExitCode {
    answer_all(&rt).err().unwrap_or(ExitCode::SUCCESS)
}
