//! Works of threads that share a collector: each has a registration and guards of its own, or all share one guard. They read links, put
//! values of new blocks in, and retire what came out, or what was never in a link.
ghost use Rattle.std.specs.Prelude.{◌≡◌, ◌+◌, ◌≤◌, IfOk};
ghost use Rattle.seize.specs.Collectors.{its_links, its_words};
ghost use Rattle.seize.specs.Guards.{owned_collector};
ghost use Rattle.seize.specs.Registrations.{registered_in};

mod standing;
mod turns;

use crate::clock::{RUNS, Samples, Span};
use crate::team::{Team, one_run};
use seize::{Collector, IdSource, OwnedGuard, Refusal, Registration};
use standing::stand_all;
use std::alloc::Global;
use std::io::ErrorKind;
use std::rt::Clock;
use std::sync::Wait;
use std::thread::Threads;
use std::time::CpuClock;
use std::{io, thread};
pub(crate) use turns::{Job, RETIRED, ROW, Turns};

/// For how many processors a collector is made.
const PROCESSORS: usize = 4;

/// How many values go from one thread to another in a run.
pub(crate) const SENT: usize = 16_384;

/// As an error of the program.
pub(crate) fn refused(_refusal: Refusal) -> io::Error {
    ErrorKind::OutOfMemory.into()
}

// A collector with so many links, each with a value, and batches of so many values.
fn collector(
    rt: &impl Wait,
    alloc: Global,
    links: usize,
    size: usize,
) -> Result<Collector<u64>, Refusal>
    ensures { IfOk result (λ made. its_links (its_words made) ≡ links) }
{
    let made: Collector<u64> = Collector::new(alloc, &mut IdSource::new(), PROCESSORS, links)?;
    let made = made.batch_size(size);
    fill(rt, &made, links)?;
    Ok(made)
}

// A value for each link.
fn fill(rt: &impl Wait, collector: &Collector<u64>, links: usize) -> Result<(), Refusal>
    requires { its_links (its_words collector.now) ≡ links }
{
    let mut pass = collector.pass();
    let registration = collector.register(rt, &mut pass)?;
    let done = turns::put_in_all(&registration, 0, links, rt);
    registration.end(rt, &mut pass);
    done?;
    Ok(())
}

// The turns of a registration, timed, beside a guard that stands where the job asks for it.
fn timed<R: Clock + CpuClock + Wait>(
    rt: &R,
    team: &Team,
    registration: &Registration<'_, u64>,
    turns: Turns,
) -> io::Result<(Span, u64)>
    requires { its_links (registered_in registration.now) ≡ 1024 }
{
    let mut pass = registration.collector().pass();
    let stands = if turns.job == Job::Nested {
        Some(registration.enter(&mut pass).map_err(refused)?)
    } else {
        None
    };
    let done = team.timed(
        rt,
        || -> Result<u64, Refusal>
            requires { its_links (registered_in registration.now) ≡ 1024 }
        { turns.done(registration, rt) },
    );
    if let Some(guard) = stands {
        guard.leave(rt, &mut pass);
    }
    let (span, sum) = done?;
    Ok((span, sum.map_err(refused)?))
}

// A thread's part of a run, with a registration.
fn part<R: Clock + CpuClock + Wait>(
    rt: &R,
    team: &Team,
    collector: &Collector<u64>,
    turns: Turns,
) -> io::Result<(Span, u64)>
    requires { its_links (its_words collector.now) ≡ 1024 }
{
    let mut pass = collector.pass();
    let registration = collector.register(rt, &mut pass).map_err(refused)?;
    let done = timed(rt, team, &registration, turns);
    registration.end(rt, &mut pass);
    done
}

/// Runs in which 1, 2 or 4 threads each make the turns, over one collector whose links hold values from the beginning.
pub(crate) fn measure<R: Clock + CpuClock + Threads + Wait + Sync>(
    rt: &R,
    threads: u64,
    alloc: Global,
    turns: Turns,
    samples: &mut Samples,
) -> io::Result<()> {
    let collector = collector(rt, alloc, ROW, turns.size).map_err(refused)?;
    runs(rt, threads, &collector, turns, samples)
}

/// The same beside so many owned guards that stand from the beginning, and leave in the end.
pub(crate) fn measure_beside<R: Clock + CpuClock + Threads + Wait + Sync>(
    rt: &R,
    threads: u64,
    alloc: Global,
    many: u64,
    turns: Turns,
    samples: &mut Samples,
) -> io::Result<()> {
    let collector = collector(rt, alloc, ROW, turns.size).map_err(refused)?;
    let standing = stand_all(rt, alloc, &collector, many).map_err(refused)?;
    let done = runs(rt, threads, &collector, turns, samples);
    for one in standing {
        one.leave(rt);
    }
    done
}

// The runs over this collector.
fn runs<R: Clock + CpuClock + Threads + Wait + Sync>(
    rt: &R,
    threads: u64,
    collector: &Collector<u64>,
    turns: Turns,
    samples: &mut Samples,
) -> io::Result<()>
    requires { its_links (its_words collector.now) ≡ 1024 }
{
    for _ in 0..RUNS {
        let team = Team::of(threads);
        let (span, sum) = one_run(
            rt,
            threads,
            &|| -> io::Result<(Span, u64)>
                requires { its_links (its_words collector.now) ≡ 1024 }
            { part(rt, &team, collector, turns) },
        )?;
        samples.add(span, threads, turns.count(), sum)?;
    }
    Ok(())
}

// A thread's part of a run, with a guard that it shares.
fn shared_part<R: Clock + CpuClock + Wait>(
    rt: &R,
    team: &Team,
    guard: &OwnedGuard<'_, u64>,
    turns: Turns,
) -> io::Result<(Span, u64)>
    requires { its_links (owned_collector guard.now) ≡ 1024 }
{
    let (span, sum) = team.timed(
        rt,
        || -> Result<u64, Refusal>
            requires { its_links (owned_collector guard.now) ≡ 1024 }
        {
            if turns.job == Job::See {
                Ok(turns::see_shared(guard, turns.turns))
            } else {
                turns::put_shared(guard, turns.turns, turns.step, rt)
            }
        },
    )?;
    Ok((span, sum.map_err(refused)?))
}

// A run in which threads share a guard, which leaves after it.
fn shared_run<R: Clock + CpuClock + Threads + Wait + Sync>(
    rt: &R,
    threads: u64,
    collector: &Collector<u64>,
    turns: Turns,
) -> io::Result<(Span, u64)>
    requires { its_links (its_words collector.now) ≡ 1024 }
{
    let mut pass = collector.pass();
    let guard = collector.enter_owned(rt, &mut pass).map_err(refused)?;
    let team = Team::of(threads);
    let done = shared_by(rt, threads, &team, &guard, turns);
    guard.leave(rt, &mut pass);
    done
}

// The same with this guard.
fn shared_by<R: Clock + CpuClock + Threads + Wait + Sync>(
    rt: &R,
    threads: u64,
    team: &Team,
    guard: &OwnedGuard<'_, u64>,
    turns: Turns,
) -> io::Result<(Span, u64)>
    requires { its_links (owned_collector guard.now) ≡ 1024 }
{
    one_run(
        rt,
        threads,
        &|| -> io::Result<(Span, u64)>
            requires { its_links (owned_collector guard.now) ≡ 1024 }
        { shared_part(rt, team, guard, turns) },
    )
}

/// Runs in which 1, 2 or 4 threads make the turns under one guard, which they share.
pub(crate) fn measure_shared<R: Clock + CpuClock + Threads + Wait + Sync>(
    rt: &R,
    threads: u64,
    alloc: Global,
    turns: Turns,
    samples: &mut Samples,
) -> io::Result<()> {
    let collector = collector(rt, alloc, ROW, turns.size).map_err(refused)?;
    for _ in 0..RUNS {
        let (span, sum) = shared_run(rt, threads, &collector, turns)?;
        samples.add(span, threads, turns.count(), sum)?;
    }
    Ok(())
}

// One side of a pipe: a registration puts values into links from one on, or takes them out and retires them.
fn side<R: Clock + CpuClock + Wait>(
    rt: &R,
    team: &Team,
    collector: &Collector<u64>,
    first: usize,
    puts: bool,
) -> io::Result<(Span, u64)>
    requires { first + 16384 ≤ its_links (its_words collector.now) }
{
    let mut pass = collector.pass();
    let registration = collector.register(rt, &mut pass).map_err(refused)?;
    let done = timed_side(rt, team, &registration, first, puts);
    registration.end(rt, &mut pass);
    let (span, sum) = done?;
    Ok((span, sum.map_err(refused)?))
}

// The same, timed.
fn timed_side<R: Clock + CpuClock + Wait>(
    rt: &R,
    team: &Team,
    registration: &Registration<'_, u64>,
    first: usize,
    puts: bool,
) -> io::Result<(Span, Result<u64, Refusal>)>
    requires { first + 16384 ≤ its_links (registered_in registration.now) }
{
    team.timed(
        rt,
        || -> Result<u64, Refusal>
            requires { first + 16384 ≤ its_links (registered_in registration.now) }
        {
            if puts {
                turns::put_in_all(registration, first, SENT, rt)
            } else {
                turns::take_from_all(registration, first, SENT, rt)
            }
        },
    )
}

// One run: the links from `at` on are filled by one thread, while another empties those from `from` on.
fn piped<R: Clock + CpuClock + Threads + Wait + Sync>(
    rt: &R,
    collector: &Collector<u64>,
    at: usize,
    from: usize,
) -> io::Result<(Span, u64)>
    requires at { at + 16384 ≤ its_links (its_words collector.now) }
    requires from { from + 16384 ≤ its_links (its_words collector.now) }
{
    let team = Team::of(2);
    let team = &team;
    let (one, two) = thread::join(
        rt,
        move || -> io::Result<(Span, u64)>
            requires { at + 16384 ≤ its_links (its_words collector.now) }
        { side(rt, team, collector, at, true) },
        move || -> io::Result<(Span, u64)>
            requires { from + 16384 ≤ its_links (its_words collector.now) }
        { side(rt, team, collector, from, false) },
    );
    let (span, sum) = one?;
    let (other, more) = two?;
    Ok((span.joined(other), sum.wrapping_add(more)))
}

/// Runs in each of which one thread puts values of new blocks into links, while another takes out and retires those of the run before.
pub(crate) fn pipe<R: Clock + CpuClock + Threads + Wait + Sync>(
    rt: &R,
    alloc: Global,
    samples: &mut Samples,
) -> io::Result<()> {
    let collector = collector(rt, alloc, 2 * SENT, 32).map_err(refused)?;
    for run in 0..RUNS {
        let (at, from) = if run.is_multiple_of(2) {
            (0, SENT)
        } else {
            (SENT, 0)
        };
        let (span, sum) = piped(rt, &collector, at, from)?;
        samples.add(span, 2, SENT as u64, sum)?;
    }
    Ok(())
}
