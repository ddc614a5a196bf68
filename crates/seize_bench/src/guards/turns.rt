//! What a thread does in a run, turn by turn.
ghost use Rattle.std.specs.Prelude.{◌≡◌, ◌<◌, ◌≤◌, ◌+◌, ℕ, Option, IfSome};
ghost use Rattle.seize.specs.Blocks.{content_of};
ghost use Rattle.seize.specs.Collectors.{BelongsTo, IsPassOf, its_links};
ghost use Rattle.seize.specs.Guards.{core_collector, owned_collector};
ghost use Rattle.seize.specs.Registrations.{registered_in};

use seize::{Guard, GuardCore, Owned, OwnedGuard, Pass, Refusal, Registration};
use std::sync::Wait;

/// How many links a collector has, but for `Pipe`.
pub(crate) const ROW: usize = 1024;

/// What a thread does in each turn.
#[derive(Clone, Copy, PartialEq, Eq)]
pub(crate) enum Job {
    /// It enters and leaves.
    Enter,
    /// The same, beside a guard that stands.
    Nested,
    /// It makes an owned guard, which leaves.
    EnterOwned,
    /// It enters, reads a link, and leaves; or puts a value in, and retires what came out.
    Visit,
    /// It enters, reads all links, and leaves.
    See,
    /// It enters, retires 32 values of new blocks, and leaves.
    Retire,
    /// It enters, swaps nothing into the first link, and leaves.
    Exchange,
    /// Its guard refreshes.
    Refresh,
    /// Its guard reads the first link, and refreshes.
    ReadRefresh,
    /// Its guard retires the value of a new block, and flushes.
    Flush,
}

/// A job, and how often it is done.
#[derive(Clone, Copy)]
pub(crate) struct Turns {
    pub(crate) job: Job,
    /// How many turns a run has.
    pub(crate) turns: u64,
    /// How many operations a turn is.
    pub(crate) each: u64,
    /// How many values fill a batch.
    pub(crate) size: usize,
    /// How many links it goes on from one turn to the next: none, where it stays at the first.
    pub(crate) step: u64,
    /// In how many of a hundred turns it puts a value in.
    pub(crate) updates: u64,
}

/// How many values a turn of `Retire` retires.
pub(crate) const RETIRED: u64 = 32;

impl Turns {
    /// So many turns, each of so many operations.
    pub(crate) fn of(job: Job, turns: u64, each: u64) -> Turns {
        Turns {
            job,
            turns,
            each,
            size: 32,
            step: 0,
            updates: 0,
        }
    }

    /// Turns that enter, read a link or put a value in, and leave.
    pub(crate) fn visits(step: u64, size: usize, updates: u64) -> Turns {
        Turns {
            size,
            step,
            updates,
            ..Turns::of(Job::Visit, 20_000, 1)
        }
    }

    /// Turns that enter, read all links, and leave.
    pub(crate) fn see() -> Turns {
        Turns::of(Job::See, 500, ROW as u64)
    }

    /// Turns that enter, retire values, and leave.
    pub(crate) fn retire() -> Turns {
        Turns::of(Job::Retire, 1_000, RETIRED)
    }

    /// How many operations a run has.
    pub(crate) fn count(self) -> u64 {
        self.turns.wrapping_mul(self.each)
    }

    /// All of them, by this registration. It gives a sum of what was read.
    pub(crate) fn done<W: Wait>(
        self,
        registration: &Registration<'_, u64>,
        rt: &W,
    ) -> Result<u64, Refusal>
        requires { its_links (registered_in registration.now) ≡ 1024 }
    {
        let mut pass = registration.collector().pass();
        match self.job {
            Job::Enter | Job::Nested => enter_many(registration, self.turns, rt, &mut pass),
            Job::EnterOwned => own_many(registration, self.turns, rt, &mut pass),
            Job::Visit => self.visit_many(registration, rt, &mut pass),
            Job::See => see_many(registration, self.turns, rt, &mut pass),
            Job::Retire => retire_many(registration, self.turns, rt, &mut pass),
            Job::Exchange => exchange_many(registration, self.turns, rt, &mut pass),
            Job::Refresh | Job::ReadRefresh => {
                let reads = self.job == Job::ReadRefresh;
                refresh_many(registration, self.turns, reads, rt, &mut pass)
            }
            Job::Flush => flush_many(registration, self.turns, rt, &mut pass),
        }
    }

    // Reads or puts values in, at one link after the other.
    fn visit_many<W: Wait>(
        self,
        registration: &Registration<'_, u64>,
        rt: &W,
        pass: &mut Pass,
    ) -> Result<u64, Refusal>
        requires { IsPassOf (registered_in registration.now) pass.old × (its_links (registered_in registration.now) ≡ 1024) }
    {
        let mut at = self.step.wrapping_mul(registration.thread_id() as u64);
        let mut due: u64 = 0;
        let mut sum: u64 = 0;
        for turn in 0..self.turns {
            at = at.wrapping_add(self.step);
            due = due.wrapping_add(self.updates);
            let link = (at % ROW as u64) as usize;
            if due >= 100 {
                due = due.wrapping_sub(100);
                put(registration, link, turn, rt, pass)?;
            } else {
                sum = sum.wrapping_add(read(registration, link, rt, pass)?);
            }
        }
        Ok(sum)
    }
}

fn enter_many<W: Wait>(
    registration: &Registration<'_, u64>,
    turns: u64,
    rt: &W,
    pass: &mut Pass,
) -> Result<u64, Refusal>
    requires { IsPassOf (registered_in registration.now) pass.old }
{
    for _ in 0..turns {
        let guard = registration.enter(pass)?;
        guard.leave(rt, pass);
    }
    Ok(turns)
}

// Makes so many owned guards, one after another, each of which leaves.
fn own_many<W: Wait>(
    registration: &Registration<'_, u64>,
    turns: u64,
    rt: &W,
    pass: &mut Pass,
) -> Result<u64, Refusal>
    requires { IsPassOf (registered_in registration.now) pass.old }
{
    let collector = registration.collector();
    for _ in 0..turns {
        let guard = collector.enter_owned(rt, pass)?;
        guard.leave(rt, pass);
    }
    Ok(turns)
}

// Enters, reads a link, and leaves. It gives the value there.
fn read<W: Wait>(
    registration: &Registration<'_, u64>,
    link: usize,
    rt: &W,
    pass: &mut Pass,
) -> Result<u64, Refusal>
    requires of { IsPassOf (registered_in registration.now) pass.old × (link < its_links (registered_in registration.now)) }
    ensures pass { IsPassOf (registered_in registration.now) pass.new }
{
    let guard = registration.enter(pass)?;
    let found = guard.protect(link, pass).map_or(0, |shared| *shared);
    guard.leave(rt, pass);
    Ok(found)
}

// Puts a block into a link, or none, and retires what was there. It is inlined, as a user would write it out.
#[inline(always)]
fn replace<G: Guard<u64>, W: Wait>(
    guard: &G,
    link: usize,
    new: Option<Owned<u64>>,
    rt: &W,
    pass: &mut Pass,
)
    requires of { IsPassOf (G.its_collector guard.now) pass.old × (link < its_links (G.its_collector guard.now)) }
    requires new { IfSome new (λ owned. BelongsTo G.Reclaimer.owners (G.its_collector guard.now) owned) }
    requires rule { (x : Option ℕ) → G.Reclaimer.keeps link x (content_of new) }
    ensures pass { IsPassOf (G.its_collector guard.now) pass.new }
{
    if let Some(old) = guard.core().swap(link, new, pass) {
        guard.defer_retire(rt, pass, old);
    }
}

// Enters, puts the value of a new block into a link, retires what was there, and leaves.
fn put<W: Wait>(
    registration: &Registration<'_, u64>,
    link: usize,
    value: u64,
    rt: &W,
    pass: &mut Pass,
) -> Result<(), Refusal>
    requires of { IsPassOf (registered_in registration.now) pass.old × (link < its_links (registered_in registration.now)) }
    ensures pass { IsPassOf (registered_in registration.now) pass.new }
{
    let guard = registration.enter(pass)?;
    let done = match registration.owned(value) {
        Ok(new) => {
            replace(&guard, link, Some(new), rt, pass);
            Ok(())
        }
        Err((refusal, _)) => Err(refusal),
    };
    guard.leave(rt, pass);
    done
}

// Enters, takes out what a link holds, retires it, and leaves.
fn take<W: Wait>(
    registration: &Registration<'_, u64>,
    link: usize,
    rt: &W,
    pass: &mut Pass,
) -> Result<(), Refusal>
    requires of { IsPassOf (registered_in registration.now) pass.old × (link < its_links (registered_in registration.now)) }
    ensures pass { IsPassOf (registered_in registration.now) pass.new }
{
    let guard = registration.enter(pass)?;
    replace(&guard, link, None, rt, pass);
    guard.leave(rt, pass);
    Ok(())
}

/// Puts the value of a new block into each of so many links from one on, with a guard for each.
pub(crate) fn put_in_all<W: Wait>(
    registration: &Registration<'_, u64>,
    first: usize,
    links: usize,
    rt: &W,
) -> Result<u64, Refusal>
    requires { first + links ≤ its_links (registered_in registration.now) }
{
    let mut pass = registration.collector().pass();
    for n in 0..links {
        put(registration, first + n, n as u64, rt, &mut pass)?;
    }
    Ok(links as u64)
}

/// Takes out what each of so many links from one on holds, and retires it, with a guard for each.
pub(crate) fn take_from_all<W: Wait>(
    registration: &Registration<'_, u64>,
    first: usize,
    links: usize,
    rt: &W,
) -> Result<u64, Refusal>
    requires { first + links ≤ its_links (registered_in registration.now) }
{
    let mut pass = registration.collector().pass();
    for n in 0..links {
        take(registration, first + n, rt, &mut pass)?;
    }
    Ok(links as u64)
}

// The sum of the values that the links hold.
fn sum_links(core: &GuardCore<'_, u64>, pass: &mut Pass) -> u64
    requires of { IsPassOf (core_collector core.now) pass.old × (its_links (core_collector core.now) ≡ 1024) }
    ensures pass { IsPassOf (core_collector core.now) pass.new }
{
    let mut sum: u64 = 0;
    for link in 0..ROW {
        sum = sum.wrapping_add(core.protect(link, pass).map_or(0, |shared| *shared));
    }
    sum
}

fn see_many<W: Wait>(
    registration: &Registration<'_, u64>,
    turns: u64,
    rt: &W,
    pass: &mut Pass,
) -> Result<u64, Refusal>
    requires { IsPassOf (registered_in registration.now) pass.old × (its_links (registered_in registration.now) ≡ 1024) }
{
    let mut sum: u64 = 0;
    for _ in 0..turns {
        let guard = registration.enter(pass)?;
        sum = sum.wrapping_add(sum_links(&guard, pass));
        guard.leave(rt, pass);
    }
    Ok(sum)
}

fn exchange_many<W: Wait>(
    registration: &Registration<'_, u64>,
    turns: u64,
    rt: &W,
    pass: &mut Pass,
) -> Result<u64, Refusal>
    requires { IsPassOf (registered_in registration.now) pass.old × (its_links (registered_in registration.now) ≡ 1024) }
{
    for _ in 0..turns {
        take(registration, 0, rt, pass)?;
    }
    Ok(turns)
}

// Retires so many values of new blocks, which were in no link.
fn retire_new<W: Wait>(
    registration: &Registration<'_, u64>,
    many: u64,
    rt: &W,
    pass: &mut Pass,
) -> Result<(), Refusal>
    requires { IsPassOf (registered_in registration.now) pass.old }
    ensures { IsPassOf (registered_in registration.now) pass.new }
{
    for value in 0..many {
        match registration.owned(value) {
            Ok(new) => {
                let new = registration.collector().unlinked(new);
                registration.retire(rt, pass, new);
            }
            Err((refusal, _)) => return Err(refusal),
        }
    }
    Ok(())
}

fn retire_many<W: Wait>(
    registration: &Registration<'_, u64>,
    turns: u64,
    rt: &W,
    pass: &mut Pass,
) -> Result<u64, Refusal>
    requires { IsPassOf (registered_in registration.now) pass.old }
{
    for _ in 0..turns {
        let guard = registration.enter(pass)?;
        let done = retire_new(registration, RETIRED, rt, pass);
        guard.leave(rt, pass);
        done?;
    }
    Ok(turns)
}

// Refreshes a guard so many times, and before that reads the first link, if it is to.
fn refresh_many<W: Wait>(
    registration: &Registration<'_, u64>,
    turns: u64,
    reads: bool,
    rt: &W,
    pass: &mut Pass,
) -> Result<u64, Refusal>
    requires { IsPassOf (registered_in registration.now) pass.old × (its_links (registered_in registration.now) ≡ 1024) }
{
    let mut guard = registration.enter(pass)?;
    let mut sum: u64 = 0;
    for _ in 0..turns {
        if reads {
            sum = sum.wrapping_add(guard.protect(0, pass).map_or(0, |shared| *shared));
        }
        guard.refresh(rt, pass);
    }
    guard.leave(rt, pass);
    Ok(sum)
}

// Retires so many values of new blocks, and flushes after each.
fn flush_many<W: Wait>(
    registration: &Registration<'_, u64>,
    turns: u64,
    rt: &W,
    pass: &mut Pass,
) -> Result<u64, Refusal>
    requires { IsPassOf (registered_in registration.now) pass.old }
{
    let guard = registration.enter(pass)?;
    let mut done = Ok(turns);
    for _ in 0..turns {
        if let Err(refusal) = retire_new(registration, 1, rt, pass) {
            done = Err(refusal);
        }
        guard.flush(rt, pass);
    }
    guard.leave(rt, pass);
    done
}

/// Reads all links so many times over, under a guard that threads share. It gives the sum of the values.
pub(crate) fn see_shared(guard: &OwnedGuard<'_, u64>, turns: u64) -> u64
    requires { its_links (owned_collector guard.now) ≡ 1024 }
{
    let mut pass = guard.collector().pass();
    let mut sum: u64 = 0;
    for _ in 0..turns {
        sum = sum.wrapping_add(sum_links(guard, &mut pass));
    }
    sum
}

/// Puts the value of a new block into one link after the other and retires what was there, under a guard that threads share.
pub(crate) fn put_shared<W: Wait>(
    guard: &OwnedGuard<'_, u64>,
    turns: u64,
    step: u64,
    rt: &W,
) -> Result<u64, Refusal>
    requires { its_links (owned_collector guard.now) ≡ 1024 }
{
    let mut pass = guard.collector().pass();
    let mut at: u64 = 0;
    for turn in 0..turns {
        at = at.wrapping_add(step);
        let new = guard
            .collector()
            .owned(turn)
            .map_err(|(refusal, _)| refusal)?;
        let link = (at % ROW as u64) as usize;
        replace(guard, link, Some(new), rt, &mut pass);
    }
    Ok(turns)
}
