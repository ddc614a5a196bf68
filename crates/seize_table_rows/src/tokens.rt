//! Tokens of a table's entries, free of the type of their values: what a caller can pass on of their contracts.
ghost use Rattle.std.specs.Prelude.{◌≡◌, IfOk};
ghost use Rattle.seize_table.specs.Named.{name_of};

use seize_table::Refusal;
use seize_table::thread_id::Thread;
use seize_table::tls::{AllFilled, FilledAt, ThreadLocal};
use std::alloc::Global;
use std::mem::size_of;
use std::process::Abort;
use std::test::Fail;

// What the entry holds, which is what the token says: the label of a number is the number.
fn told(table: &ThreadLocal<u64>, thread: Thread, token: &FilledAt) -> u64
    requires { (token.now.table ≡ name_of table.now) × (token.now.number ≡ thread.id) }
    ensures { result ≡ token.now.label }
{
    *table.at(thread, token)
}

// The same by two tokens of the entry, each of a load of its own.
fn told_twice(
    table: &ThreadLocal<u64>,
    thread: Thread,
    one: &FilledAt,
    other: &FilledAt,
) -> (u64, u64)
    requires one { (one.now.table ≡ name_of table.now) × (one.now.number ≡ thread.id) }
    requires other { (other.now.table ≡ name_of table.now) × (other.now.number ≡ thread.id) }
    ensures { result.0 ≡ result.1 }
{
    one.agree(other);
    (told(table, thread, one), told(table, thread, other))
}

// Fills the entry with the value, and shows it.
fn filled(table: &ThreadLocal<u64>, thread: Thread, value: u64) -> Result<FilledAt, Refusal>
    ensures { IfOk result (λ token. (token.table ≡ name_of table.now) × (token.number ≡ thread.id)) }
{
    let mut found = table.load_or(|| value, thread)?;
    Ok(table.filled_at(thread, &mut found.filled))
}

// What the entry holds once it was filled with the value, and then no more with the other.
fn told_of_two(
    table: &ThreadLocal<u64>,
    thread: Thread,
    value: u64,
    other: u64,
) -> Result<(u64, u64), Refusal> {
    let one = filled(table, thread, value)?;
    let two = filled(table, thread, other)?;
    Ok(told_twice(table, thread, &one, &two.again()))
}

fn at(rt: &impl Abort, id: usize) -> Thread {
    Thread::new(id).expect(rt, "a number with a place")
}

#[test]
fn a_token_leads_to_its_entry(rt: HostRuntime) -> Result<(), Fail> {
    let table: ThreadLocal<u64> = ThreadLocal::with_capacity(rt.alloc(), 0)?;
    for (id, value) in [(0, 7), (31, 8), (32, 9), (95, 10), (500, 11)] {
        let found = told_of_two(&table, at(&rt, id), value, 12)?;
        assert_eq!(rt; found, (value, value));
    }
    Ok(())
}

#[test]
fn tokens_without_types_have_no_bytes(rt: HostRuntime) {
    assert_eq!(rt; size_of::<FilledAt>(), 0);
    assert_eq!(rt; size_of::<AllFilled>(), 0);
}

fn is_sent<T: Send>(value: T) -> T {
    value
}

fn is_shared<T: Sync>(value: &T) -> &T {
    value
}

#[test]
fn tokens_are_sent_and_shared(rt: HostRuntime) -> Result<(), Fail> {
    let table: ThreadLocal<u64> = ThreadLocal::with_capacity(rt.alloc(), 0)?;
    let one = is_sent(filled(&table, at(&rt, 0), 1)?);
    drop(is_shared(&one).again());
    Ok(())
}
