//! Blocks that came out of a link, and are retired by another thread.
ghost use Rattle.std.specs.Prelude.{◌≡◌, ◌<◌, IfOk, IfSome};
ghost use Rattle.seize.specs.Links.{IsUnlinkedOf};
ghost use Rattle.seize.specs.Collectors.{IsBlockOf, IsPassOf, its_links, its_words};
ghost use Rattle.seize.specs.Guards.{owned_collector};
ghost use Rattle.seize.specs.Registrations.{registered_in};

use seize::{Collector, IdSource, Owned, OwnedGuard, Pass, Refusal, Registration, Unlinked};
use seize_test_kit::marked::{Marked, ended, ends_of, marks};
use std::alloc::Global;
use std::process::Abort;
use std::sync::Wait;
use std::sync::atomic::AtomicU64;
use std::test::*;
use std::thread;
use std::thread::Threads;

// A block on its way to another thread, with a registration by which it is retired there: a closure holds only what has a `Drop`.
struct Handed<'r, 'c, 'a, R: Wait> {
    rt: &'r R,
    registration: Registration<'c, Marked<'a>>,
    block: Unlinked<'c, Marked<'a>>,
    ghost its: { IsUnlinkedOf (registered_in registration) block },
}

impl<R: Wait> Drop for Handed<'_, '_, '_, R> {
    fn drop(self) {
        self.retire();
    }
}

impl<R: Wait> Handed<'_, '_, '_, R> {
    // Reads the block's number, and retires it. It says how often the number had ended then.
    fn retire(self) -> (u64, u64) {
        let Handed {
            rt,
            registration,
            block,
        } = self;
        let mut pass = registration.collector().pass();
        let (number, marks) = (block.value, block.marks);
        registration.retire(rt, &mut pass, block);
        let ends = ends_of(marks, number);
        registration.end(rt, &mut pass);
        (number, ends)
    }
}

// A collector with one link, and batches of one value.
fn collector<'a>(alloc: Global) -> Result<Collector<Marked<'a>>, Refusal>
    ensures { IfOk result (λ made. 0 < its_links (its_words made)) }
{
    let made: Collector<Marked<'a>> = Collector::new(alloc, &mut IdSource::new(), 1, 1)?;
    Ok(made.batch_size(1))
}

// Another thread retires the block.
fn retire_elsewhere<'c, 'a, R: Threads + Wait + Sync>(
    rt: &R,
    registration: Registration<'c, Marked<'a>>,
    block: Unlinked<'c, Marked<'a>>,
) -> (u64, u64)
    requires { IsUnlinkedOf (registered_in registration) block }
{
    let handed = Handed {
        rt,
        registration,
        block,
    };
    let (came, _) = thread::join(rt, move || handed.retire(), || {});
    came
}

// Swaps this value into the link, or nothing. What comes out is retired on another thread, by a registration that ends there.
fn put<'c, 'a, R: Threads + Wait + Sync>(
    rt: &R,
    guard: &OwnedGuard<'c, Marked<'a>>,
    value: Option<Owned<Marked<'a>>>,
    registration: Registration<'c, Marked<'a>>,
    pass: &mut Pass,
) -> Option<(u64, u64)>
    requires of { IsPassOf (owned_collector guard.now) pass.old × (0 < its_links (owned_collector guard.now)) }
    requires value { IfSome value (λ owned. IsBlockOf (owned_collector guard.now) owned) }
    requires by { registered_in registration ≡ owned_collector guard.now }
    ensures { IsPassOf (owned_collector guard.now) pass.new }
{
    match guard.swap(0, value, pass) {
        Some(block) => Some(retire_elsewhere(rt, registration, block)),
        None => {
            registration.end(rt, pass);
            None
        }
    }
}

// Puts the numbers 0 and 1 into the link, and nothing at last. It says which came out and was retired on another thread, and how often that
// had ended there.
fn put_two<'a, R: Threads + Wait + Sync + Abort>(
    rt: &R,
    collector: &Collector<Marked<'a>>,
    marks: &'a [AtomicU64],
) -> [Option<(u64, u64)>; 3]
    requires { 0 < its_links (its_words collector.now) }
{
    let mut pass = collector.pass();
    let guard = collector.enter_owned(rt, &mut pass).expect(rt, "memory");
    let first = collector.register(rt, &mut pass).expect(rt, "memory");
    let zero = guard.owned(Marked { value: 0, marks }).ok();
    let none = put(rt, &guard, zero, first, &mut pass);
    let second = collector.register(rt, &mut pass).expect(rt, "memory");
    let one = guard.owned(Marked { value: 1, marks }).ok();
    let some = put(rt, &guard, one, second, &mut pass);
    assert_eq!(rt; ended(marks), (0, 0));
    let third = collector.register(rt, &mut pass).expect(rt, "memory");
    let old = guard.swap(0, None, &mut pass);
    guard.leave(rt, &mut pass);
    assert_eq!(rt; (ends_of(marks, 0), ends_of(marks, 1)), (1, 0));
    let last = match old {
        Some(block) => Some(retire_elsewhere(rt, third, block)),
        None => {
            third.end(rt, &mut pass);
            None
        }
    };
    [none, some, last]
}

// Another thread retires a block under this thread's guard, as a batch of its own: it waits for the guard, and ends as that leaves. A block
// that is retired when the guard that took it out has left ends on the other thread.
#[test]
fn a_block_is_retired_by_another_thread(rt: HostRuntime) -> Result<(), Fail> {
    let marks = marks(rt.alloc(), 2)?;
    let collector = collector(rt.alloc())?;
    let came = put_two(&rt, &collector, marks.as_slice());
    assert_eq!(rt; came, [None, Some((0, 0)), Some((1, 1))]);
    assert_eq!(rt; ended(marks.as_slice()), (2, 0));
    drop(collector);
    assert_eq!(rt; ended(marks.as_slice()), (2, 0));
    Ok(())
}
