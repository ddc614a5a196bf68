//! What is timed, and what is made of the times.
use std::alloc::{AllocError, Global};
use std::rt::Clock;
use std::time::{CpuClock, Duration, Instant};
use std::{fmt, io};

/// When a work began and ended, and how long the process had had the processors at both times.
#[derive(Clone, Copy)]
pub(crate) struct Span {
    start: Instant,
    end: Instant,
    used: Duration,
    used_at_end: Duration,
}

impl Span {
    /// A work that begins now and has not ended.
    pub(crate) fn begun<R: Clock + CpuClock>(rt: &R) -> io::Result<Span> {
        let used = rt.process_cpu_time()?;
        let start = Instant::now(rt)?;
        Ok(Span {
            start,
            end: start,
            used,
            used_at_end: used,
        })
    }

    /// The work ends now.
    pub(crate) fn ended<R: Clock + CpuClock>(self, rt: &R) -> io::Result<Span> {
        let end = Instant::now(rt)?;
        Ok(Span {
            end,
            used_at_end: rt.process_cpu_time()?,
            ..self
        })
    }

    /// From the earlier beginning of the two to the later end.
    pub(crate) fn joined(self, other: Span) -> Span {
        Span {
            start: self.start.min(other.start),
            end: self.end.max(other.end),
            used: self.used.min(other.used),
            used_at_end: self.used_at_end.max(other.used_at_end),
        }
    }
}

/// How many runs there are of each work.
pub(crate) const RUNS: u64 = 75;

/// The times of an operation in runs, in thousandths of a nanosecond, and how many runs were undisturbed.
#[derive(Drop)]
pub(crate) struct Samples {
    picos: Vec<u64>,
    clean: u64,
    kept: u64,
}

impl Samples {
    pub(crate) fn new(alloc: Global) -> Result<Samples, AllocError> {
        Ok(Samples {
            picos: Vec::with_capacity(alloc, RUNS as usize)?,
            clean: 0,
            kept: 0,
        })
    }

    /// A run in which each of so many threads did so many operations, and what they computed, so that it can't be left out. The run was
    /// undisturbed where the threads together had processors for 0.93 of the time or more.
    pub(crate) fn add(
        &mut self,
        span: Span,
        threads: u64,
        count: u64,
        sum: u64,
    ) -> Result<(), AllocError> {
        let wall = span.end.duration_since(span.start).as_nanos();
        let used = span.used_at_end.saturating_sub(span.used).as_nanos();
        let whole = wall.saturating_mul(threads as u128);
        if used.saturating_mul(100) >= whole.saturating_mul(93) {
            self.clean = self.clean.saturating_add(1);
        }
        self.kept = self.kept.wrapping_add(sum);
        let picos = wall.saturating_mul(1000) / (count.max(1) as u128);
        self.picos.push(picos.min(u64::MAX as u128) as u64)?;
        Ok(())
    }

    pub(crate) fn report(self) -> Report {
        let mut picos = self.picos;
        picos.sort_unstable();
        Report {
            median: picos.get(picos.len() / 2).copied().unwrap_or(0),
            least: picos.first().copied().unwrap_or(0),
            percent: self.clean.saturating_mul(100) / (picos.len().max(1) as u64),
            sum: self.kept,
        }
    }
}

/// The times of a work in thousandths of a nanosecond, how many of a hundred runs were undisturbed, and what the work computed.
#[derive(Clone, Copy)]
pub(crate) struct Report {
    median: u64,
    least: u64,
    percent: u64,
    sum: u64,
}

impl Report {
    /// Whether the works computed what no work computes.
    pub(crate) fn is_odd(self) -> bool {
        self.sum == u64::MAX
    }
}

impl fmt::Display for Report {
    fn fmt<W: fmt::Write>(&self, f: &mut fmt::Formatter<W>) -> fmt::Result {
        write!(
            f,
            "{}.{:03} {}.{:03} 0.{:02}",
            self.median / 1000,
            self.median % 1000,
            self.least / 1000,
            self.least % 1000,
            self.percent.min(99)
        )
    }
}
