//! What an atomic swap takes, by which the other times are read.
use crate::clock::Samples;
use crate::team::runs;
use std::io;
use std::rt::Clock;
use std::sync::atomic::AtomicU64;
use std::sync::atomic::Ordering::SeqCst;
use std::thread::Threads;
use std::time::CpuClock;

/// How often a thread swaps in a run.
const SWAPPED: u64 = 200_000;

fn each_swapped() -> io::Result<u64> {
    let word = AtomicU64::new(0);
    let mut sum: u64 = 0;
    for value in 0..SWAPPED {
        sum = sum.wrapping_add(word.swap(value, SeqCst));
    }
    Ok(sum)
}

/// Runs in which each thread swaps a word of its own.
pub(crate) fn swap<R: Clock + CpuClock + Threads + Sync>(
    rt: &R,
    threads: u64,
    samples: &mut Samples,
) -> io::Result<()> {
    runs(rt, threads, SWAPPED, samples, &|| each_swapped())
}
