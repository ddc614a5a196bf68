//! A latch for which threads wait asleep: some attempts with yields between them, and then a bell, which is rung at each give while someone
//! waits.
ghost use Rattle.std.specs.Prelude.{◌≡◌, IfSome};

use crate::latch::Latch;
use seize_content::CellToken;
use std::sync::Wait;
use std::sync::atomic::AtomicU64;
use std::sync::atomic::Ordering::SeqCst;
use std::thread;

/// How often a thread tries, with a yield after each attempt, before it waits asleep.
const YIELDS: u32 = 20;

/// A latch and its bell.
#[derive(Drop)]
pub(crate) struct TokenLock {
    latch: Latch,
    // How often it was rung. A thread sleeps on its low half.
    bell: AtomicU64,
    // How many threads wait, or are about to.
    waiting: AtomicU64,
}

impl TokenLock {
    /// A lock with this token.
    pub(crate) fn new(token: CellToken) -> TokenLock
        ensures { result.latch ≡ token.name }
    {
        TokenLock {
            latch: Latch::new(token),
            bell: AtomicU64::new(0),
            waiting: AtomicU64::new(0),
        }
    }

    /// The token, as soon as nobody has it.
    #[inline(always)]
    pub(crate) fn take(&self, rt: &impl Wait) -> CellToken
        ensures { result.name ≡ self.now.latch }
    {
        for _ in 0..YIELDS {
            if let Some(token) = self.latch.try_take() {
                return token;
            }
            thread::yield_now();
        }
        self.wait(rt)
    }

    /// The token, if nobody has it.
    #[inline(always)]
    pub(crate) fn try_take(&self) -> Option<CellToken>
        ensures { IfSome result (λ token. token.name ≡ self.now.latch) }
    {
        self.latch.try_take()
    }

    // The same as `take`, asleep. What rings between the look at the bell and the attempt is not missed: the thread does not fall asleep
    // then.
    #[cold]
    #[inline(never)]
    fn wait(&self, rt: &impl Wait) -> CellToken
        ensures { result.name ≡ self.now.latch }
    {
        self.waiting.fetch_add(1, SeqCst);
        for _ in rt.forever() {
            let seen = (self.bell.load(SeqCst) & 0xffff_ffff) as u32;
            if let Some(token) = self.latch.try_take() {
                self.waiting.fetch_sub(1, SeqCst);
                return token;
            }
            self.bell.park(rt, seen);
        }
        unreachable!()
    }

    /// Lays the token back, and wakes one of those who wait.
    #[inline(always)]
    pub(crate) fn give(&self, token: CellToken)
        requires { token.name ≡ self.now.latch }
    {
        self.latch.give(token);
        if self.waiting.load(SeqCst) != 0 {
            self.bell.fetch_add(1, SeqCst);
            self.bell.wake_one();
        }
    }
}
