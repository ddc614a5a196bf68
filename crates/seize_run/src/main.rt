//! Runs scripts of calls on a collector in one caller's hands, and prints which values are gone, and what the calls answer.
#![tactic(auto)]

use seize_script::{Failure, PutInside, report, run_program};
use std::env;
use std::io::{BufWriter, ErrorKind};
use std::process::ExitCode;

fn main(rt: HostRuntime) -> ExitCode {
    let status = match run(&rt) {
        Ok(status) => status,
        Err(failure) => report(&failure, &mut rt.stderr()),
    };
    ExitCode::from(status)
}

fn run(rt: &HostRuntime) -> Result<u8, Failure<'static>> {
    let words = words(rt)?;
    let mut args = Vec::new(rt.alloc());
    for word in &words {
        args.push(word.as_str())?;
    }
    let Ok(output) = BufWriter::new(rt.alloc(), rt.stdout()) else {
        return Err(Failure::NoMemory);
    };
    Ok(run_program(
        rt.alloc(),
        args.as_slice(),
        rt.stdin(),
        output,
        rt.stderr(),
        PutInside,
    ))
}

/// The arguments. None of the program's has another encoding than UTF-8.
fn words(rt: &HostRuntime) -> Result<Vec<String>, Failure<'static>> {
    let mut words = Vec::new(rt.alloc());
    match env::args(rt) {
        Ok(args) => {
            for word in args.skip(1) {
                words.push(word)?;
            }
            Ok(words)
        }
        Err(error) if error.kind() == ErrorKind::OutOfMemory => Err(Failure::NoMemory),
        Err(_) => Err(Failure::Usage),
    }
}
