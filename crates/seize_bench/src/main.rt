//! Times of the store's calls beside those of a box or a plain reference, and of steps on words that threads share. With no argument it
//! does nothing and prints nothing; with the name of a work and a number of threads it prints one line:
//! `port WORK THREADS median least clean peak`.
#![tactic(auto)]

mod alone;
mod blocks;
mod clock;
mod guards;
mod lookups;
mod maps;
mod nests;
mod swaps;
mod team;
mod work;

use clock::Report;
use std::process::ExitCode;
use std::{env, io};
use work::Work;

fn main(rt: HostRuntime) -> ExitCode {
    match asked(&rt) {
        Ok(Request::Nothing) => ExitCode::SUCCESS,
        Ok(Request::Unknown) => {
            let _ = eprintln!(rt; "usage: seize_bench WORK [1 | 2 | 4]");
            ExitCode::from(2)
        }
        Ok(Request::Work(work, threads)) => match work.measure(&rt, threads, rt.alloc()) {
            Ok(report) => told(&rt, work, threads, report),
            Err(_) => ExitCode::FAILURE,
        },
        Err(_) => ExitCode::FAILURE,
    }
}

/// What the arguments ask for.
#[derive(Clone, Copy)]
enum Request {
    Nothing,
    Unknown,
    /// A work on so many threads.
    Work(Work, u64),
}

fn asked(rt: &HostRuntime) -> io::Result<Request> {
    let mut words = env::args(rt)?.skip(1);
    let Some(word) = words.next() else {
        return Ok(Request::Nothing);
    };
    let Some(work) = Work::named(word.as_str()) else {
        return Ok(Request::Unknown);
    };
    let threads = match words.next() {
        None => Some(work.least_threads()),
        Some(word) => work.threads(word.as_str()),
    };
    Ok(threads.map_or(Request::Unknown, |threads| Request::Work(work, threads)))
}

fn told(rt: &HostRuntime, work: Work, threads: u64, report: Report) -> ExitCode {
    let line = println!(rt;
        "port {} {threads} {report} {}",
        work.name(),
        work.peak(threads)
    );
    if line.is_err() || report.is_odd() {
        ExitCode::FAILURE
    } else {
        ExitCode::SUCCESS
    }
}
