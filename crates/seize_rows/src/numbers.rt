//! Numbers of slots where many threads register at once.
use seize::{Collector, IdSource, Registration};
use std::alloc::{AllocError, Global};
use std::sync::Wait;
use std::test::*;
use std::thread;
use std::thread::Threads;

// How many threads there are: as many as a word has bits.
const MANY: usize = 64;

// A registration on its way to another thread: a thread answers only what has a `Drop`.
struct Held<'c>(Registration<'c, u64>);

impl Drop for Held<'_> {
    fn drop(self) {
        let Held(registration) = self;
        registration.forget();
    }
}

impl Held<'_> {
    // The bit of its number, of a word where it has one.
    fn bit(&self) -> u64 {
        match u32::try_from(self.0.thread_id()) {
            Ok(number) => 1u64.checked_shl(number).unwrap_or(0),
            Err(_) => 0,
        }
    }

    // The registration ends.
    fn end(self, rt: &impl Wait) -> bool {
        let Held(registration) = self;
        let mut pass = registration.collector().pass();
        registration.end(rt, &mut pass)
    }
}

// A registration, if memory was there.
fn register<'c>(rt: &impl Wait, collector: &'c Collector<u64>) -> Option<Held<'c>> {
    let mut pass = collector.pass();
    let registration = collector.register(rt, &mut pass).ok()?;
    Some(Held(registration))
}

// So many threads register, each once. None ends meanwhile.
fn register_all<'c, R: Threads + Wait + Sync>(
    rt: &R,
    alloc: Global,
    collector: &'c Collector<u64>,
) -> Result<Vec<Option<Held<'c>>>, AllocError> {
    thread::map_indices(rt, alloc, MANY, &|_| register(rt, collector))
}

// All end. It gives the bits of their numbers, and how many ended.
fn end_all(rt: &impl Wait, all: Vec<Option<Held<'_>>>) -> (u64, usize) {
    let mut bits = 0;
    let mut ends: usize = 0;
    for held in all {
        if let Some(held) = held {
            bits |= held.bit();
            ends = ends.wrapping_add(usize::from(held.end(rt)));
        }
    }
    (bits, ends)
}

// As many threads as a word has bits register at once. Their numbers fill the word, so each is there, and none twice. When all have
// ended, the next one gets number 0.
#[test]
fn threads_that_register_at_once_have_the_least_numbers(rt: HostRuntime) -> Result<(), Fail> {
    let collector: Collector<u64> = Collector::new(rt.alloc(), &mut IdSource::new(), 1, 0)?;
    let all = register_all(&rt, rt.alloc(), &collector)?;
    assert_eq!(rt; end_all(&rt, all), (u64::MAX, MANY));
    let mut pass = collector.pass();
    let next = collector.register(&rt, &mut pass).expect(&rt, "memory");
    assert_eq!(rt; next.thread_id(), 0);
    assert!(rt; next.end(&rt, &mut pass));
    Ok(())
}
