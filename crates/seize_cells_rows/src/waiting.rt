//! A thread that waits for a lock, while another one holds it in a work that waits for that thread.
ghost use Rattle.std.specs.Prelude.{◌≡◌};

use crate::counters::Counter;
use seize_cells::{Lock, LockWork};
use std::sync::Wait;
use std::sync::atomic::AtomicU64;
use std::sync::atomic::Ordering::SeqCst;
use std::thread;

/// How often the holder yields once it was asked, so that the other thread falls asleep.
const YIELDS: u32 = 5_000;

/// Two flags, each of which is raised once.
#[derive(Drop)]
pub struct Flags {
    /// The lock is held.
    pub held: AtomicU64,
    /// The other thread is about to ask for it.
    pub asked: AtomicU64,
}

impl Flags {
    /// None is raised.
    pub fn new() -> Flags {
        Flags {
            held: AtomicU64::new(0),
            asked: AtomicU64::new(0),
        }
    }
}

/// Waits until the flag is raised.
fn wait_for(rt: &impl Wait, flag: &AtomicU64) {
    for _ in rt.forever() {
        if flag.load(SeqCst) != 0 {
            return;
        }
        thread::yield_now();
    }
}

/// Holds the lock until the other thread has asked for it, and for a while after that. It notes how many works there were before.
#[derive(Drop)]
pub struct Holding<'a, R: Wait> {
    rt: &'a R,
    flags: &'a Flags,
}

impl<'a, R: Wait> LockWork<Counter, u64, ()> for Holding<'a, R> {
    ghost may = { λ _ _ _. Unit };

    ghost gives = { λ _ before after _ found _. (after ≡ before) × (found ≡ before.count) };

    fn work(self, counter: &mut Counter, found: &mut u64) {
        self.flags.held.store(1, SeqCst);
        wait_for(self.rt, &self.flags.asked);
        for _ in 0..YIELDS {
            thread::yield_now();
        }
        *found = counter.count;
    }
}

/// Fills the counter.
#[derive(Drop)]
pub struct Filling;

impl LockWork<Counter, u64, ()> for Filling {
    ghost may = { λ _ _ _. Unit };

    ghost gives = { λ _ before after _ found _. (after.limit ≡ before.limit)
        × (after.count ≡ before.limit) × (found ≡ before.count) };

    fn work(self, counter: &mut Counter, found: &mut u64) {
        *found = counter.count;
        counter.count = counter.limit;
    }
}

/// Holds the lock until another thread waits for it. It gives how far the counter had counted.
pub fn hold<R: Wait>(rt: &R, lock: &Lock<Counter>, flags: &Flags) -> u64 {
    let mut found = 0;
    lock.with(rt, Holding { rt, flags }, &mut found);
    found
}

/// Asks for the lock while it is held, and fills the counter. It gives how far that had counted.
pub fn ask<R: Wait>(rt: &R, lock: &Lock<Counter>, flags: &Flags) -> u64 {
    let mut found = 0;
    wait_for(rt, &flags.held);
    flags.asked.store(1, SeqCst);
    lock.with(rt, Filling, &mut found);
    found
}
