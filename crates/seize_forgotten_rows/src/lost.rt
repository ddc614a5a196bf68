//! What slots left as they ended, beside lost guards, whose slots are active for good. It is attempted as all is reclaimed, by the slot of
//! a free number: what is enough waits for those slots from then on, and what is too little comes back to the rest, which the slot that is
//! taken next has. So none of it ends, then or later. What waited for forgotten slots before the guards were lost ends, once.
ghost use Rattle.std.specs.Prelude.{◌<◌};
ghost use Rattle.seize.specs.Collectors.{IsPassOf, its_links, its_words};
ghost use Rattle.seize.specs.Registrations.{registered_in};

use crate::forgotten::{Digits, Telling, forget_guard, register, retire};
use seize::{Guard, LocalGuard, OwnedGuard, Pass, Refusal, Registration};
use seize_test_kit::telling::{defer, telling};
use seize_test_kit::values::Digit;
use std::alloc::Global;
use std::mem;
use std::process::Abort;
use std::sync::Wait;
use std::sync::atomic::{AtomicU64, Ordering};
use std::test::*;

// A guard that can be lost.
struct Held<'r, 'c, 'a>(LocalGuard<'r, 'c, Digit<'a>>);

impl Drop for Held<'_, '_, '_> {
    fn drop(self) {
        let Held(guard) = self;
        let mut pass = guard.collector().pass();
        guard.forget(&mut pass);
    }
}

// So can an owned one.
struct HeldOwned<'c, 'a>(OwnedGuard<'c, Digit<'a>>);

impl Drop for HeldOwned<'_, '_> {
    fn drop(self) {
        let HeldOwned(guard) = self;
        guard.forget();
    }
}

// And a registration.
struct HeldToo<'c, 'a>(Registration<'c, Digit<'a>>);

impl Drop for HeldToo<'_, '_> {
    fn drop(self) {
        let HeldToo(registration) = self;
        registration.forget();
    }
}

// How a guard is lost: an owned one, or one of a registration, which ends then or is lost too.
#[derive(Clone, Copy)]
enum Way {
    Owned,
    OfARegistration,
    WithItsRegistration,
}

// What is left beside how many lost guards.
#[derive(Clone, Copy)]
struct Row {
    // How many guards are lost.
    lost: usize,
    // How many values a batch has.
    size: usize,
    // The digit behind the last one that is left: what is left begins with 3.
    end: u64,
}

// The three ways.
const WAYS: [Way; 3] = [Way::Owned, Way::OfARegistration, Way::WithItsRegistration];

// Rows in which what is left has fewer values than slots are active as it is attempted. In the first two it is not full, so that happens
// once, while the slot that does it is active. In the last one it is full, and is attempted before that too, beside the lost slots alone.
const TOO_LITTLE: [Row; 3] = [
    Row {
        lost: 1,
        size: 2,
        end: 4,
    },
    Row {
        lost: 2,
        size: 3,
        end: 5,
    },
    Row {
        lost: 2,
        size: 1,
        end: 4,
    },
];

// Rows in which it has enough. In the first one it is not full, and has as many values as the lost slot and the attempting one. In the
// others it is full, and has more than the lost slot, or as many as the two.
const ENOUGH: [Row; 3] = [
    Row {
        lost: 1,
        size: 3,
        end: 5,
    },
    Row {
        lost: 1,
        size: 2,
        end: 5,
    },
    Row {
        lost: 2,
        size: 2,
        end: 5,
    },
];

// The guard of a registration is lost.
fn lose_guard<'a>(
    registration: &Registration<'_, Digit<'a>>,
    pass: &mut Pass,
) -> Result<(), Refusal>
    requires { IsPassOf (registered_in registration.now) pass.old }
    ensures { IsPassOf (registered_in registration.now) pass.new }
{
    let guard = registration.enter(pass)?;
    mem::forget(Held(guard));
    Ok(())
}

// A guard is lost in this way.
fn lose(rt: &impl Wait, collector: &Telling<'_>, way: Way) -> Result<(), Refusal> {
    let mut pass = collector.pass();
    if let Way::Owned = way {
        mem::forget(HeldOwned(collector.enter_owned(rt, &mut pass)?));
        return Ok(());
    }
    let registration = collector.register(rt, &mut pass)?;
    let lost = lose_guard(&registration, &mut pass);
    if let Way::WithItsRegistration = way {
        mem::forget(HeldToo(registration));
    } else {
        registration.end(rt, &mut pass);
    }
    lost
}

// So many are.
fn lose_all(rt: &impl Wait, collector: &Telling<'_>, lost: usize, way: Way) -> Result<(), Refusal> {
    for _ in 0..lost {
        lose(rt, collector, way)?;
    }
    Ok(())
}

// Slot 0 is forgotten with a guard, and 1 and 2 wait for it.
fn wait_for_forgotten<'a>(
    rt: &impl Wait,
    collector: &Telling<'a>,
    told: &'a AtomicU64,
) -> Result<(), Refusal> {
    let mut pass = collector.pass();
    let first = collector.register(rt, &mut pass)?;
    let entered = forget_guard(&first, &mut pass);
    first.forget();
    let second = collector.register(rt, &mut pass)?;
    work(rt, &second, 1, told, &mut pass);
    second.end(rt, &mut pass);
    entered
}

// A guard retires this digit and the next one, flushes and leaves.
fn work<'a>(
    rt: &impl Wait,
    registration: &Registration<'_, Digit<'a>>,
    digit: u64,
    told: &'a AtomicU64,
    pass: &mut Pass,
)
    requires { IsPassOf (registered_in registration.now) pass.old }
    ensures { IsPassOf (registered_in registration.now) pass.new }
{
    if let Ok(guard) = registration.enter(pass) {
        defer(rt, &guard, digit, told, pass);
        defer(rt, &guard, digit.wrapping_add(1), told, pass);
        guard.flush(rt, pass);
        guard.leave(rt, pass);
    }
}

// Two slots at once retire 3, and what comes then, and end. No other one takes what the first left.
fn leave<'a>(
    rt: &impl Wait,
    collector: &Telling<'a>,
    end: u64,
    told: &'a AtomicU64,
) -> Result<(), Refusal> {
    let mut pass = collector.pass();
    let one = collector.register(rt, &mut pass)?;
    retire(rt, collector, &one, 3..4, told, &mut pass);
    let other = collector.register(rt, &mut pass);
    one.end(rt, &mut pass);
    let other = other?;
    let mut its = collector.pass();
    retire(rt, collector, &other, 4..end, told, &mut its);
    other.end(rt, &mut its);
    Ok(())
}

// All of it, in this order.
fn leave_beside_lost<'a>(
    rt: &impl Wait,
    collector: &Telling<'a>,
    row: Row,
    way: Way,
    told: &'a AtomicU64,
) -> Result<(), Refusal> {
    wait_for_forgotten(rt, collector, told)?;
    lose_all(rt, collector, row.lost, way)?;
    leave(rt, collector, row.end, told)
}

// Registers twice at once, and ends both. It gives the numbers, and whether both went back.
fn register_two(rt: &impl Wait, collector: &Telling<'_>) -> Result<(usize, usize, bool), Refusal> {
    let mut pass = collector.pass();
    let one = collector.register(rt, &mut pass)?;
    let other = register(rt, collector);
    let number = one.thread_id();
    let ended = one.end(rt, &mut pass);
    let (second, went) = other?;
    Ok((number, second, ended && went))
}

// All is reclaimed twice, with two slots in use between. The first time 1 and 2 end, and nothing else ever. The numbers of the slots that
// were not lost are free each time.
fn reclaim_twice<R: Wait + Abort>(
    rt: &R,
    collector: &mut Telling<'_>,
    row: Row,
    told: &AtomicU64,
) -> Result<(), Refusal> {
    let mut heard = Digits { all: 0 };
    assert_eq!(rt; told.load(Ordering::SeqCst), 0);
    assert!(rt; !collector.reclaim_all(&mut heard));
    assert_eq!(rt; (heard.all, told.load(Ordering::SeqCst)), (12, 12));
    assert_eq!(rt;
        register_two(rt, collector)?,
        (0, row.lost.wrapping_add(1), true)
    );
    assert!(rt; !collector.reclaim_all(&mut heard));
    assert_eq!(rt; (heard.all, told.load(Ordering::SeqCst)), (12, 12));
    Ok(())
}

// A guard puts this digit into the link.
fn put_by<'a>(
    rt: &impl Wait,
    registration: &Registration<'_, Digit<'a>>,
    digit: u64,
    told: &'a AtomicU64,
    pass: &mut Pass,
) -> Result<(), Refusal>
    requires of { IsPassOf (registered_in registration.now) pass.old × (0 < its_links (registered_in registration.now)) }
    ensures { IsPassOf (registered_in registration.now) pass.new }
{
    let block = match registration.owned(Digit { digit, told }) {
        Ok(block) => block,
        Err((refusal, _)) => return Err(refusal),
    };
    let guard = registration.enter(pass)?;
    if let Some(old) = guard.swap(0, Some(block), pass) {
        guard.defer_retire(rt, pass, old);
    }
    guard.leave(rt, pass);
    Ok(())
}

// A slot does so, and ends.
fn put<'a>(
    rt: &impl Wait,
    collector: &Telling<'a>,
    digit: u64,
    told: &'a AtomicU64,
) -> Result<(), Refusal>
    requires { 0 < its_links (its_words collector.now) }
{
    let mut pass = collector.pass();
    let registration = collector.register(rt, &mut pass)?;
    let put = put_by(rt, &registration, digit, told, &mut pass);
    registration.end(rt, &mut pass);
    put
}

// A slot takes what was left, and leaves it again. As all is reclaimed it comes back, and so it does when another slot had it. In the drop
// each value fills a batch. So what is left in the first two rows waits for the lost slots then; in the last one it comes back once more,
// and goes to the slot that takes out what the link holds. None of that ends.
#[test]
fn what_is_too_little_beside_lost_guards_comes_back(rt: HostRuntime) -> Result<(), Fail> {
    for row in TOO_LITTLE {
        for way in WAYS {
            let told = AtomicU64::new(0);
            let mut collector = telling(rt.alloc(), row.size)?;
            put(&rt, &collector, 8, &told)?;
            leave_beside_lost(&rt, &collector, row, way, &told)?;
            assert_eq!(rt;
                register(&rt, &collector)?,
                (row.lost.wrapping_add(1), true)
            );
            reclaim_twice(&rt, &mut collector, row, &told)?;
            drop(collector);
            assert_eq!(rt; told.load(Ordering::SeqCst), 12);
        }
    }
    Ok(())
}

// What was left waits for the lost slots once all is reclaimed, and nothing is left then. It does not end, nor does what the link holds.
#[test]
fn what_is_enough_beside_lost_guards_waits_for_them(rt: HostRuntime) -> Result<(), Fail> {
    for row in ENOUGH {
        for way in WAYS {
            let told = AtomicU64::new(0);
            let mut collector = telling(rt.alloc(), row.size)?;
            put(&rt, &collector, 8, &told)?;
            leave_beside_lost(&rt, &collector, row, way, &told)?;
            reclaim_twice(&rt, &mut collector, row, &told)?;
            drop(collector);
            assert_eq!(rt; told.load(Ordering::SeqCst), 12);
        }
    }
    Ok(())
}

// A slot takes what was left, retires 5 and 6 behind it, and ends. With 5, or with 6, it is enough. It gives its number, and whether that
// went back.
fn take_on<'a>(
    rt: &impl Wait,
    collector: &Telling<'a>,
    told: &'a AtomicU64,
) -> Result<(usize, bool), Refusal> {
    let mut pass = collector.pass();
    let registration = collector.register(rt, &mut pass)?;
    work(rt, &registration, 5, told, &mut pass);
    let number = registration.thread_id();
    Ok((number, registration.end(rt, &mut pass)))
}

// The slot that takes what came back retires more, and ends; then another one does. Neither is the last one in use, since lost slots are,
// and nothing ends, also not as all is reclaimed again.
#[test]
fn what_came_back_beside_lost_guards_is_taken_on(rt: HostRuntime) -> Result<(), Fail> {
    for row in TOO_LITTLE {
        for way in WAYS {
            let told = AtomicU64::new(0);
            let mut collector = telling(rt.alloc(), row.size)?;
            leave_beside_lost(&rt, &collector, row, way, &told)?;
            reclaim_twice(&rt, &mut collector, row, &told)?;
            assert_eq!(rt; take_on(&rt, &collector, &told)?, (0, true));
            assert_eq!(rt; register(&rt, &collector)?, (0, true));
            assert_eq!(rt; told.load(Ordering::SeqCst), 12);
            assert!(rt; !collector.reclaim_all(&mut ()));
            drop(collector);
            assert_eq!(rt; told.load(Ordering::SeqCst), 12);
        }
    }
    Ok(())
}

// The same where only the drop reclaims all: 1 and 2 end, and nothing else does.
#[test]
fn what_was_left_beside_lost_guards_stays_at_the_drop(rt: HostRuntime) -> Result<(), Fail> {
    for row in [TOO_LITTLE[0], TOO_LITTLE[2], ENOUGH[0]] {
        for way in WAYS {
            let told = AtomicU64::new(0);
            let collector = telling(rt.alloc(), row.size)?;
            put(&rt, &collector, 8, &told)?;
            leave_beside_lost(&rt, &collector, row, way, &told)?;
            assert_eq!(rt; told.load(Ordering::SeqCst), 0);
            drop(collector);
            assert_eq!(rt; told.load(Ordering::SeqCst), 12);
        }
    }
    Ok(())
}
