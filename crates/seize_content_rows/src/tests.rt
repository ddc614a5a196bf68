//! Cells on one thread and on several, and what has no bytes.
ghost use Rattle.std.specs.Prelude.{◌≡◌, ◌≤◌};

use crate::cells::{count, marked_post, turn, two_cells, two_owners};
use crate::values::{Counted, Fields};
use seize_content::{CellToken, Pool, Sight, Start, Steady, SteadyCell, Ticket, TokenCell};
use std::mem::{forget, size_of};
use std::sync::atomic::{AtomicU64, Ordering};
use std::test::*;
use std::thread;
use std::thread::Threads;

const TIMES: u64 = 100_000;

#[test]
fn each_owner_of_a_token_finds_what_the_last_one_wrote(rt: HostRuntime) {
    assert_eq!(rt; two_owners(5u64, 7, 9), (5, 7, 9));
    assert_eq!(rt; two_cells(1u8, 2), (1, 2));
    assert_eq!(rt; marked_post(3, 4), (4, 3));
    let (cell, mut token) = TokenCell::new(Fields { next: 3, slot: 1 });
    let Fields { next, slot } = cell.get(&mut token);
    cell.set(&mut token, Fields { next: 4, slot });
    let Fields { next: other, slot } = cell.get(&mut token);
    assert_eq!(rt; (next, other, slot), (3, 4, 1));
}

// The token goes to another thread and comes back, twice. What is found there is what was written here, and the other way round.
fn passed_round<R: Threads + Sync>(rt: &R, value: u64) -> (u64, u64, u64) {
    let (cell, token) = TokenCell::new(value);
    let place = &cell;
    let ((first, token), _) = thread::join(
        rt,
        move || -> (u64, CellToken)
            requires { token.name ≡ place.now.name }
            ensures { result.1.name ≡ place.entry.now.name }
        { turn(place, token, 11) },
        || (),
    );
    let (second, token) = turn(place, token, 12);
    let (_, (third, _)) = thread::join(
        rt,
        || (),
        move || -> (u64, CellToken)
            requires { token.name ≡ place.now.name }
            ensures { result.1.name ≡ place.entry.now.name }
        { turn(place, token, 13) },
    );
    (first, second, third)
}

// What is written on another thread is found here.
fn written_there<M: Copy + Send, R: Threads + Sync>(rt: &R, first: M, second: M) -> M
    ensures { M.row.coded.code result ≡ M.row.coded.code second }
{
    let (cell, token) = TokenCell::new(first);
    let place = &cell;
    let (mut token, _) = thread::join(
        rt,
        move || -> CellToken
            requires { token.name ≡ place.now.name }
            ensures { (result.name ≡ place.entry.now.name) × (result.value ≡ M.row.coded.code second) }
        { turn(place, token, second).1 },
        || (),
    );
    cell.get(&mut token)
}

#[test]
fn a_token_goes_from_thread_to_thread(rt: HostRuntime) {
    assert_eq!(rt; passed_round(&rt, 10), (10, 11, 12));
    assert_eq!(rt; written_there(&rt, 1u64, 2), 2);
}

// Two threads share two cells, and each counts in the one whose token it has. Then they change places.
fn counted_by_two<R: Threads + Sync>(rt: &R) -> (u64, u64) {
    let (first, token) = TokenCell::new(0);
    let (second, other) = TokenCell::new(0);
    let (one, two) = (&first, &second);
    let (token, other) = thread::join(
        rt,
        move || -> CellToken
            requires { token.name ≡ one.now.name }
            ensures { result.name ≡ one.entry.now.name }
        { count(one, token, TIMES) },
        move || -> CellToken
            requires { other.name ≡ two.now.name }
            ensures { result.name ≡ two.entry.now.name }
        { count(two, other, TIMES) },
    );
    let (mut other, mut token) = thread::join(
        rt,
        move || -> CellToken
            requires { other.name ≡ two.now.name }
            ensures { result.name ≡ two.entry.now.name }
        { count(two, other, 1) },
        move || -> CellToken
            requires { token.name ≡ one.now.name }
            ensures { result.name ≡ one.entry.now.name }
        { count(one, token, 2) },
    );
    (first.get(&mut token), second.get(&mut other))
}

#[test]
fn threads_count_in_the_cells_whose_tokens_they_have(rt: HostRuntime) {
    assert_eq!(rt; counted_by_two(&rt), (100_002, 100_001));
}

// A cell ends with its value, wherever the token is.
#[test]
fn a_cell_ends_its_value_once(rt: HostRuntime) {
    let ends = AtomicU64::new(0);
    let (cell, mut token) = TokenCell::new(Counted {
        ends: &ends,
        name: 5,
    });
    let old = cell.replace(
        &mut token,
        Counted {
            ends: &ends,
            name: 6,
        },
    );
    let name = old.name;
    drop(old);
    let before = ends.load(Ordering::SeqCst);
    drop(token);
    drop(cell);
    assert_eq!(rt; (name, before, ends.load(Ordering::SeqCst)), (5, 1, 2));
}

// A cell ends with its value, also where its token was forgotten.
#[test]
fn a_steady_cell_ends_its_value_once(rt: HostRuntime) {
    let ends = AtomicU64::new(0);
    let (cell, token) = SteadyCell::new(Counted {
        ends: &ends,
        name: 5,
    });
    forget(token);
    let before = ends.load(Ordering::SeqCst);
    drop(cell);
    assert_eq!(rt; (before, ends.load(Ordering::SeqCst)), (0, 1));
}

// Who may see and hold cells and rights on other threads.
fn is_sent<T: Send>(value: T) -> T {
    value
}

fn is_shared<T: Sync>(value: &T) -> &T {
    value
}

fn sight_sends<'g>(sight: Sight<'g>) -> Sight<'g> {
    is_sent(sight)
}

fn cell_sends<M: Send>(cell: TokenCell<M>) -> TokenCell<M> {
    is_shared(&cell);
    is_sent(cell)
}

fn steady_sends<M: Steady + Send>(cell: SteadyCell<M>) -> SteadyCell<M> {
    is_shared(&cell);
    is_sent(cell)
}

fn token_sends(token: CellToken) -> CellToken {
    is_shared(&token);
    is_sent(token)
}

// Rights have no bytes, whatever the value is. A cell has those of its value.
#[test]
fn rights_have_no_bytes(rt: HostRuntime) {
    assert_eq!(rt; (size_of::<Start>(), size_of::<Ticket>()), (0, 0));
    assert_eq!(rt; (size_of::<Pool>(), size_of::<Sight<'_>>()), (0, 0));
    assert_eq!(rt;
        (size_of::<CellToken>(), size_of::<TokenCell<[u64; 8]>>()),
        (0, 64)
    );
    assert_eq!(rt;
        size_of::<SteadyCell<Counted<'_>>>(),
        size_of::<Counted<'_>>()
    );
}
