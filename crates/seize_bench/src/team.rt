//! Threads that begin a work together, so that starting them is no part of its time.
ghost use Rattle.std.specs.Prelude.{IfOk};

use crate::clock::{RUNS, Samples, Span};
use std::hint::spin_loop;
use std::io::ErrorKind;
use std::rt::Clock;
use std::sync::atomic::AtomicU64;
use std::sync::atomic::Ordering::SeqCst;
use std::thread::Threads;
use std::time::CpuClock;
use std::{io, thread};

/// How often a thread looks whether the others are there: some seconds.
const LOOKS: u64 = 1_000_000_000;

/// So many threads, of which some have come.
#[derive(Drop)]
pub(crate) struct Team {
    size: u64,
    come: AtomicU64,
}

impl Team {
    pub(crate) fn of(size: u64) -> Team {
        Team {
            size,
            come: AtomicU64::new(0),
        }
    }

    /// Comes, waits for the others, and does the work.
    pub(crate) fn timed<R: Clock + CpuClock, T: Drop, F: FnOnce() -> T>(
        &self,
        rt: &R,
        work: F,
    ) -> io::Result<(Span, T)>
        requires { F.pre work }
        ensures { IfOk result (λ done. F.post work done.1) }
    {
        self.wait()?;
        let span = Span::begun(rt)?;
        let done = work();
        Ok((span.ended(rt)?, done))
    }

    fn wait(&self) -> io::Result<()> {
        self.come.fetch_add(1, SeqCst);
        for _ in 0..LOOKS {
            if self.come.load(SeqCst) >= self.size {
                return Ok(());
            }
            spin_loop();
        }
        Err(ErrorKind::TimedOut.into())
    }
}

/// What two threads did of one work, one after the other or side by side.
fn both(one: (Span, u64), two: (Span, u64)) -> (Span, u64) {
    (one.0.joined(two.0), one.1.wrapping_add(two.1))
}

fn pair<R: Threads + Sync, F: Fn() -> io::Result<(Span, u64)> + Sync>(
    rt: &R,
    work: &F,
) -> io::Result<(Span, u64)>
    requires { F.IsAlwaysCallable work.now }
{
    let (one, two) = thread::join(rt, work, work);
    Ok(both(one?, two?))
}

/// A run in which 1, 2 or 4 threads each do the work, which is timed by a team of so many.
pub(crate) fn one_run<R: Threads + Sync, F: Fn() -> io::Result<(Span, u64)> + Sync>(
    rt: &R,
    threads: u64,
    work: &F,
) -> io::Result<(Span, u64)>
    requires { F.IsAlwaysCallable work.now }
{
    match threads {
        4 => {
            let (one, two) = thread::join(
                rt,
                || -> io::Result<(Span, u64)>
                    requires { F.IsAlwaysCallable work.now }
                { pair(rt, work) },
                || -> io::Result<(Span, u64)>
                    requires { F.IsAlwaysCallable work.now }
                { pair(rt, work) },
            );
            Ok(both(one?, two?))
        }
        2 => pair(rt, work),
        _ => work(),
    }
}

/// Runs in which 1, 2 or 4 threads each do the work, which is so many operations.
pub(crate) fn runs<R: Clock + CpuClock + Threads + Sync, F: Fn() -> io::Result<u64> + Sync>(
    rt: &R,
    threads: u64,
    count: u64,
    samples: &mut Samples,
    work: &F,
) -> io::Result<()>
    requires { F.IsAlwaysCallable work.now }
{
    for _ in 0..RUNS {
        let team = Team::of(threads);
        let (span, sum) = one_run(
            rt,
            threads,
            &|| -> io::Result<(Span, u64)>
                requires { F.IsAlwaysCallable work.now }
            {
                let (span, sum) = team.timed(rt, work)?;
                Ok((span, sum?))
            },
        )?;
        samples.add(span, threads, count, sum)?;
    }
    Ok(())
}
