//! Numbers, their places, and the table.
use seize_table::thread_id::{BUCKETS, MAX_INDEX, Numbers, Thread};
use seize_table::tls::{Filled, Loaded, ThreadLocal};
use seize_table::{Labelled, Refusal};
use std::alloc::Global;
use std::cell::Cell;
use std::mem::size_of;
use std::process::Abort;
use std::sync::atomic::{AtomicU64, Ordering};
use std::sync::{Arc, Wait};
use std::test::Fail;
use std::thread;
use std::thread::Threads;

// A value that counts its end, and says who made it.
struct Counted<'a> {
    ends: &'a AtomicU64,
    maker: u64,
}

impl Drop for Counted<'_> {
    fn drop(self) {
        let Counted { ends, maker: _ } = self;
        ends.fetch_add(1, Ordering::SeqCst);
    }
}

impl Labelled for Counted<'_> {
    ghost label = { λ c. c.maker };
}

fn place(id: usize) -> Option<(usize, usize)> {
    let thread = Thread::new(id)?;
    Some((thread.bucket, thread.entry))
}

// The bucket and the entry by counting entries from number 0 on.
fn counted_place(id: usize) -> (usize, usize) {
    let mut left = id;
    let mut capacity = 32usize;
    for bucket in 0..8 {
        if left < capacity {
            return (bucket, left);
        }
        left -= capacity;
        capacity = capacity.saturating_mul(2);
    }
    (8, left)
}

#[test]
fn numbers_have_places(rt: HostRuntime) {
    for (id, want) in [
        (0, (0, 0)),
        (31, (0, 31)),
        (32, (1, 0)),
        (95, (1, 63)),
        (96, (2, 0)),
        (MAX_INDEX, (58, (1 << 63) - 1)),
    ] {
        assert!(rt; place(id) == Some(want), "at {id}");
    }
    assert!(rt; MAX_INDEX == 18446744073709551583);
    assert!(rt; place(18446744073709551584).is_none());
    assert!(rt; place(usize::MAX).is_none());
}

#[test]
fn places_are_counted(rt: HostRuntime) {
    for id in 0..224 {
        assert!(rt; place(id) == Some(counted_place(id)), "at {id}");
    }
}

#[test]
fn capacities_sum_to_all_numbers(rt: HostRuntime) {
    let mut sum = 0u128;
    for bucket in 0..BUCKETS {
        sum = sum.saturating_add(Thread::bucket_capacity(bucket) as u128);
    }
    assert!(rt; sum == MAX_INDEX as u128 + 1);
}

#[test]
fn numbers_are_used_again(rt: HostRuntime) -> Result<(), Fail> {
    let mut numbers = Numbers::new(rt.alloc());
    let first = numbers.take()?;
    let second = numbers.take()?;
    let third = numbers.take()?;
    assert_eq!(rt; (first, second, third), (0, 1, 2));
    numbers.give(second);
    assert_eq!(rt; numbers.take()?, 1);
    assert_eq!(rt; numbers.take()?, 3);
    Ok(())
}

// The size of a request for memory by which a test says that it is set up. tools/memory knows it too.
const SIGN: usize = 4_099;

// A number goes back, and is taken again, without memory.
#[test]
fn numbers_go_back_without_memory(rt: HostRuntime) -> Result<(), Fail> {
    let mut numbers = Numbers::new(rt.alloc());
    let first = numbers.take()?;
    let sign: Vec<u8> = Vec::with_capacity(rt.alloc(), SIGN)?;
    drop(sign);
    numbers.give(first);
    assert_eq!(rt; (first, numbers.take()?), (0, 0));
    Ok(())
}

// Whether numbers other than 0, 1, 2 and the greatest of the type are in use.
fn others(numbers: &Numbers) -> (bool, bool, bool, bool) {
    (
        numbers.others(0),
        numbers.others(1),
        numbers.others(2),
        numbers.others(usize::MAX),
    )
}

#[test]
fn others_are_in_use_or_not(rt: HostRuntime) -> Result<(), Fail> {
    let mut numbers = Numbers::new(rt.alloc());
    assert_eq!(rt; others(&numbers), (false, false, false, false));
    let first = numbers.take()?;
    assert_eq!(rt; others(&numbers), (false, true, true, true));
    let second = numbers.take()?;
    assert_eq!(rt; others(&numbers), (true, true, true, true));
    let third = numbers.take()?;
    assert_eq!(rt; (first, second, third), (0, 1, 2));
    numbers.give(first);
    assert_eq!(rt; others(&numbers), (true, true, true, true));
    numbers.give(third);
    assert_eq!(rt; others(&numbers), (true, false, true, true));
    numbers.give(second);
    assert_eq!(rt; others(&numbers), (false, false, false, false));
    assert_eq!(rt; numbers.take()?, 0);
    assert_eq!(rt; others(&numbers), (false, true, true, true));
    Ok(())
}

fn at(rt: &impl Abort, id: usize) -> Thread {
    Thread::new(id).expect(rt, "a number with a place")
}

#[test]
fn a_table_keeps_the_first_value(rt: HostRuntime) -> Result<(), Fail> {
    for (capacity, buckets) in [(0, 1), (31, 1), (32, 2)] {
        let table: ThreadLocal<u64> = ThreadLocal::with_capacity(rt.alloc(), capacity)?;
        assert_eq!(rt; table.buckets(), buckets);
        assert_eq!(rt; *table.load_or(|| 1, at(&rt, 0))?, 1);
        assert_eq!(rt; *table.load_or(|| 2, at(&rt, 0))?, 1);
        assert_eq!(rt; table.try_load(at(&rt, 0)).map(|found| *found), Some(1));
        assert!(rt; table.try_load(at(&rt, 1)).is_none());
        assert!(rt; table.iter().map(|x| *x).eq([1u64]));
    }
    Ok(())
}

#[test]
fn a_fill_makes_its_own_bucket(rt: HostRuntime) -> Result<(), Fail> {
    let table: ThreadLocal<u64> = ThreadLocal::with_capacity(rt.alloc(), 0)?;
    assert_eq!(rt; *table.load(at(&rt, 500))?, 0);
    assert_eq!(rt; table.buckets(), 2);
    assert_eq!(rt; *table.load_or(|| 7, at(&rt, 31))?, 7);
    assert_eq!(rt; *table.load_or(|| 8, at(&rt, 95))?, 8);
    assert_eq!(rt; table.buckets(), 3);
    assert!(rt; table.iter().map(|x| *x).eq([7u64, 8, 0]));
    Ok(())
}

#[test]
fn no_table_is_too_large(rt: HostRuntime) {
    let table: Result<ThreadLocal<u64>, Refusal> = ThreadLocal::with_capacity(
        rt.alloc(),
        18446744073709551584,
    );
    assert!(rt; matches!(table, Err(Refusal::NoNumbers)));
}

#[test]
fn tokens_show_one_value(rt: HostRuntime) -> Result<(), Fail> {
    let table: ThreadLocal<u64> = ThreadLocal::with_capacity(rt.alloc(), 0)?;
    let thread = at(&rt, 40);
    assert!(rt; table.try_load(thread).is_none());
    let Loaded {
        value,
        filled: mut seen,
    } = table.load_or(|| 5, thread)?;
    let mut again = seen.again();
    assert_eq!(rt; *value, 5);
    assert_eq!(rt; *table.value(thread, &mut seen), 5);
    let found = table.load_or(|| 6, thread)?;
    assert_eq!(rt; *found, 5);
    table.agree(thread, &mut again, found.filled);
    Ok(())
}

// What is put into an entry stays there, and what comes after it comes back; where memory is refused the value comes back too.
#[test]
fn a_value_that_is_put_stays(rt: HostRuntime) -> Result<(), Fail> {
    let table: ThreadLocal<u64> = ThreadLocal::with_capacity(rt.alloc(), 0)?;
    let thread = at(&rt, 40);
    assert!(rt; table.put(5, thread).is_ok());
    assert_eq!(rt; table.try_load(thread).map(|found| *found), Some(5));
    assert_eq!(rt; table.put(6, thread).err(), Some(6));
    assert_eq!(rt; table.try_load(thread).map(|found| *found), Some(5));
    assert_eq!(rt; table.buckets(), 2);
    Ok(())
}

#[test]
fn tokens_have_no_bytes(rt: HostRuntime) {
    assert_eq!(rt; size_of::<Filled<u64>>(), 0);
    assert_eq!(rt; size_of::<Loaded<'_, u64>>(), size_of::<&u64>());
}

#[test]
fn the_end_of_a_table_ends_each_value_once(rt: HostRuntime) -> Result<(), Fail> {
    let ends = AtomicU64::new(0);
    let table = ThreadLocal::with_capacity(rt.alloc(), 1)?;
    let ends_seen = &ends;
    table.load_or(
        move || Counted {
            ends: ends_seen,
            maker: 1,
        },
        at(&rt, 0),
    )?;
    assert_eq!(rt; ends.load(Ordering::SeqCst), 0);
    drop(table);
    assert_eq!(rt; ends.load(Ordering::SeqCst), 1);
    Ok(())
}

fn made<'a>(made: &AtomicU64, ends: &'a AtomicU64, maker: u64) -> Counted<'a> {
    made.fetch_add(1, Ordering::SeqCst);
    Counted { ends, maker }
}

// Both threads fill one entry: how many values were made, how many of them had ended while the table stood, and how many
// after it; and whether both calls answered one value.
fn race<R: Threads + Sync>(
    rt: &R,
    alloc: Global,
    thread: Thread,
) -> Result<(u64, u64, u64, bool), Refusal> {
    let count = AtomicU64::new(0);
    let ends = AtomicU64::new(0);
    let table = ThreadLocal::with_capacity(alloc, 0)?;
    let (one, two) = thread::join(
        rt,
        || table
            .load_or(|| made(&count, &ends, 1), thread)
            .map(|value| value.maker),
        || table
            .load_or(|| made(&count, &ends, 2), thread)
            .map(|value| value.maker),
    );
    let same = one? == two?;
    let standing = ends.load(Ordering::SeqCst);
    drop(table);
    Ok((
        count.load(Ordering::SeqCst),
        standing,
        ends.load(Ordering::SeqCst),
        same,
    ))
}

#[test]
fn two_fills_at_once_keep_one(rt: HostRuntime) -> Result<(), Fail> {
    for _ in 0..1000 {
        let (made, standing, after, same) = race(&rt, rt.alloc(), at(&rt, 40))?;
        assert!(rt; same);
        assert!(rt; made == 1 || made == 2);
        assert_eq!(rt; made, standing.wrapping_add(1));
        assert_eq!(rt; made, after);
    }
    Ok(())
}

#[test]
fn threads_fill_a_table_side_by_side(rt: HostRuntime) -> Result<(), Fail> {
    let table: Arc<ThreadLocal<usize>, Global> = Arc::new(
        rt.alloc(),
        ThreadLocal::with_capacity(rt.alloc(), 0)?,
    )?;
    let mut children = Vec::new(rt.alloc());
    for id in 0..64 {
        let table = Arc::try_clone(&table)?;
        let thread = at(&rt, id);
        children.push(thread::spawn(&rt, move || {
            table.load_or(|| id, thread).map(|found| *found)
        })?)?;
    }
    for (id, child) in children.into_iter().enumerate() {
        assert_eq!(rt; child.join(&rt)?, id);
    }
    assert_eq!(rt; table.iter().count(), 64);
    assert!(rt; table.iter().map(|x| *x).eq(0..64));
    Ok(())
}

fn is_sent<T: Send>(value: T) -> T {
    value
}

fn is_shared<T: Sync>(value: &T) -> &T {
    value
}

// A table is `Send` for every `T: Send`, and `Sync` for every `T: Send + Sync`: these two are refused where it isn't.
fn sends<T: Labelled + Drop + Send>(table: ThreadLocal<T>) -> ThreadLocal<T> {
    is_sent(table)
}

fn shares<T: Labelled + Drop + Send + Sync>(table: &ThreadLocal<T>) -> &ThreadLocal<T> {
    is_shared(table)
}

#[test]
fn a_table_is_sent_and_shared(rt: HostRuntime) -> Result<(), Fail> {
    let table: ThreadLocal<u64> = sends(ThreadLocal::with_capacity(rt.alloc(), 0)?);
    assert_eq!(rt; shares(&table).buckets(), 1);
    Ok(())
}

// The tests from here on are run with each of their requests for memory refused in turn. A call that is refused is made again,
// and then answers what it would have answered first.

// A table of this capacity, made again where it was refused.
fn table_of(rt: &impl Abort, alloc: Global, capacity: usize) -> Result<ThreadLocal<u64>, Refusal> {
    match ThreadLocal::with_capacity(alloc, capacity) {
        Ok(table) => Ok(table),
        Err(refusal) => {
            assert_eq!(rt; refusal, Refusal::NoMemory);
            ThreadLocal::with_capacity(alloc, capacity)
        }
    }
}

#[test]
fn a_refused_table_is_made_again(rt: HostRuntime) -> Result<(), Fail> {
    let table = table_of(&rt, rt.alloc(), 96)?;
    assert_eq!(rt; table.buckets(), 3);
    assert_eq!(rt; table.iter().count(), 0);
    Ok(())
}

// Fills the entry with `value`, counting the calls of the closure.
fn fill(
    table: &ThreadLocal<u64>,
    calls: &Cell<u64>,
    value: u64,
    thread: Thread,
) -> Result<u64, Refusal> {
    let filled = table.load_or(
        || {
            calls.set(calls.get().wrapping_add(1));
            value
        },
        thread,
    )?;
    Ok(*filled)
}

#[test]
fn a_refused_fill_has_not_called_its_closure(rt: HostRuntime) -> Result<(), Fail> {
    let table = table_of(&rt, rt.alloc(), 0)?;
    let calls = Cell::new(0);
    for (done, id) in [0, 1, 40, 41, 500].into_iter().enumerate() {
        let thread = at(&rt, id);
        let before = table.buckets();
        let mut want = 1;
        if let Err(refusal) = fill(&table, &calls, 1, thread) {
            assert_eq!(rt; refusal, Refusal::NoMemory);
            assert_eq!(rt; calls.get(), done as u64);
            assert!(rt; table.try_load(thread).is_none());
            assert_eq!(rt; table.iter().count(), done);
            assert_eq!(rt; table.buckets(), before);
            want = 2;
        }
        assert_eq!(rt; fill(&table, &calls, 2, thread)?, want);
        assert_eq!(rt; calls.get(), (done as u64).wrapping_add(1));
        assert_eq!(rt; fill(&table, &calls, 3, thread)?, want);
        assert_eq!(rt; calls.get(), (done as u64).wrapping_add(1));
    }
    assert_eq!(rt; table.buckets(), 3);
    Ok(())
}

#[test]
fn a_refused_load_fills_nothing(rt: HostRuntime) -> Result<(), Fail> {
    let table = table_of(&rt, rt.alloc(), 0)?;
    for (done, id) in [0, 40, 500].into_iter().enumerate() {
        let thread = at(&rt, id);
        let before = table.buckets();
        if let Err(refusal) = table.load(thread) {
            assert_eq!(rt; refusal, Refusal::NoMemory);
            assert!(rt; table.try_load(thread).is_none());
            assert_eq!(rt; table.iter().count(), done);
            assert_eq!(rt; table.buckets(), before);
        }
        assert_eq!(rt; *table.load(thread)?, 0);
        assert_eq!(rt; table.iter().count(), done.saturating_add(1));
    }
    assert_eq!(rt; table.buckets(), 3);
    Ok(())
}

#[test]
fn a_refused_put_gives_the_value_back(rt: HostRuntime) -> Result<(), Fail> {
    let table = table_of(&rt, rt.alloc(), 0)?;
    let thread = at(&rt, 40);
    if let Err(back) = table.put(5, thread) {
        assert_eq!(rt; back, 5);
        assert!(rt; table.try_load(thread).is_none());
        assert_eq!(rt; table.buckets(), 1);
        assert!(rt; table.put(5, thread).is_ok());
    }
    assert_eq!(rt; table.try_load(thread).map(|found| *found), Some(5));
    assert_eq!(rt; table.buckets(), 2);
    Ok(())
}

#[test]
fn a_refused_number_is_taken_again(rt: HostRuntime) -> Result<(), Fail> {
    let mut numbers = Numbers::new(rt.alloc());
    for want in 0..100 {
        let number = match numbers.take() {
            Ok(number) => number,
            Err(refusal) => {
                assert_eq!(rt; refusal, Refusal::NoMemory);
                numbers.take()?
            }
        };
        assert_eq!(rt; number, want);
    }
    Ok(())
}
