//! Signs by which threads wait for each other.

use std::sync::atomic::{AtomicU64, Ordering};
use std::thread;

// How often a thread looks for a sign at most.
const LOOKS: u64 = 30_000_000;

/// Gives the sign once more.
pub(crate) fn set(sign: &AtomicU64) {
    sign.fetch_add(1, Ordering::SeqCst);
}

/// Waits until the sign was given so many times. It says whether it ever was.
pub(crate) fn wait_for(sign: &AtomicU64, times: u64) -> bool {
    for _ in 0..LOOKS {
        if sign.load(Ordering::SeqCst) >= times {
            return true;
        }
        thread::yield_now();
    }
    false
}
