//! Threads that use one collector as hard as they can, round after round, for some seconds. Each round has a collector of its own. Its
//! threads register and end, or are forgotten; they read, swap and exchange under guards of both kinds, refresh, flush and retire.
//! After each round every value has ended once, and none before the guard that had found it left.
//!
//! With a number of threads and of seconds it prints one line; with no argument it does nothing. The status is 1 where a value was lost,
//! ended twice or early, and 2 where the arguments are wrong.
#![tactic(auto)]

mod dice;
mod round;
mod spans;
mod turns;

use round::{Tally, round};
use seize::Refusal;
use std::alloc::Global;
use std::process::ExitCode;
use std::rt::Clock;
use std::sync::Wait;
use std::thread::Threads;
use std::time::{Duration, Instant};
use std::{env, io};

fn main(rt: HostRuntime) -> ExitCode {
    match asked(&rt) {
        Ok(Some(request)) => match run(&rt, rt.alloc(), request) {
            Ok(tally) => told(&rt, request, tally),
            Err(_) => ExitCode::FAILURE,
        },
        Ok(None) => ExitCode::SUCCESS,
        Err(_) => {
            let _ = eprintln!(rt;
                "usage: seize_stress_tests THREADS SECONDS, with 1, 2 or 4 threads"
            );
            ExitCode::from(2)
        }
    }
}

/// So many threads, for so long.
#[derive(Clone, Copy)]
struct Request {
    threads: u64,
    seconds: u64,
}

fn asked(rt: &HostRuntime) -> io::Result<Option<Request>> {
    let mut words = env::args(rt)?.skip(1);
    let Some(threads) = words.next() else {
        return Ok(None);
    };
    let wrong = || io::Error::from(io::ErrorKind::InvalidInput);
    let threads = match threads.as_str() {
        "1" => 1,
        "2" => 2,
        "4" => 4,
        _ => return Err(wrong()),
    };
    let Some(seconds) = words.next() else {
        return Err(wrong());
    };
    match seconds.as_str().parse::<u64>() {
        Ok(seconds) => Ok(Some(Request { threads, seconds })),
        Err(_) => Err(wrong()),
    }
}

// As an error of the program.
fn refused(_refusal: Refusal) -> io::Error {
    io::ErrorKind::OutOfMemory.into()
}

// Rounds until so many seconds have passed, and one at least.
fn run<R: Clock + Threads + Wait + Sync>(
    rt: &R,
    alloc: Global,
    request: Request,
) -> io::Result<Tally> {
    let start = Instant::now(rt)?;
    let wanted = Duration::from_secs(request.seconds);
    let mut tally = Tally::none();
    for seed in 0..u64::MAX {
        tally = tally.and(round(rt, alloc, request.threads, seed).map_err(refused)?);
        if Instant::now(rt)?.duration_since(start) >= wanted {
            break;
        }
    }
    Ok(tally)
}

fn told(rt: &HostRuntime, request: Request, tally: Tally) -> ExitCode {
    let Request { threads, seconds } = request;
    let line = println!(rt; "stress threads={threads} seconds={seconds} {tally}");
    if line.is_err() || tally.is_bad() {
        ExitCode::FAILURE
    } else {
        ExitCode::SUCCESS
    }
}
