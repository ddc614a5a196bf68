//! Two readers and two publishers of one cell. No reader sees an older version after a newer one, or a version of which a part is
//! another's.
ghost use Rattle.std.specs.Prelude.{◌<◌, IfOk};
ghost use Rattle.seize.specs.Collectors.{its_links, its_words};

use seize::{Collector, IdSource, Refusal};
use seize_versions::{ByNumber, Reader, Version, Versions};
use std::alloc::Global;
use std::convert::Infallible;
use std::sync::Wait;
use std::test::Fail;
use std::thread;
use std::thread::Threads;

// How many versions a thread publishes.
const MANY: u64 = 500;

// The number of the last version.
const LAST: u64 = 1_000;

// More than the exchanges of the other publisher.
const TRIES: u32 = 2_000;

// How often a reader reads, at most.
const READINGS: u64 = 200_000;

// Two parts, each of which is the number of the version.
#[derive(Clone, Copy, Drop)]
struct Parts {
    one: u64,
    other: u64,
}

// A collector with one link.
fn collector(alloc: Global) -> Result<Collector<Version<Parts>, ByNumber>, Refusal>
    ensures { IfOk result (λ made. 0 < its_links (its_words made)) }
{
    Collector::with_reclaimer(alloc, &mut IdSource::new(), 4, 1, ByNumber)
}

fn next(parts: Option<&Parts>) -> Result<Parts, Infallible> {
    let before = match parts {
        Some(parts) => parts.one,
        None => 0,
    };
    let number = before.wrapping_add(1);
    Ok(Parts {
        one: number,
        other: number,
    })
}

// How many versions it published whose numbers were greater than all that it saw.
fn publish_many<W: Wait>(rt: &W, publisher: &mut Reader<'_, '_, Parts>) -> u64 {
    let mut right = 0u64;
    for _ in 0..MANY {
        let before = publisher.newest();
        if let Ok(number) = publisher.publish(rt, next, TRIES) {
            right = right.wrapping_add(u64::from(before < number));
        }
        publisher.refresh(rt);
    }
    right
}

fn publish<W: Wait>(rt: &W, versions: &Versions<'_, Parts>) -> Result<u64, Refusal> {
    let mut publisher = versions.reader(rt)?;
    let right = publish_many(rt, &mut publisher);
    publisher.leave(rt);
    Ok(right)
}

// Whether this may be read by who saw that number before.
fn is_right(before: u64, version: Option<Version<Parts>>) -> bool {
    match version {
        Some(version) => {
            let Parts { one, other } = version.value;
            before <= version.number && one == version.number && other == version.number
        }
        None => before == 0,
    }
}

// How many readings were wrong, until the last version was read.
fn read_many<W: Wait>(rt: &W, reader: &mut Reader<'_, '_, Parts>) -> u64 {
    let mut wrong = 0u64;
    for n in 0..READINGS {
        let before = reader.newest();
        let version = reader.read();
        wrong = wrong.wrapping_add(u64::from(!is_right(before, version)));
        if reader.newest() == LAST {
            return wrong;
        }
        if n % 16 == 0 {
            reader.refresh(rt);
        }
    }
    wrong
}

fn read<W: Wait>(rt: &W, versions: &Versions<'_, Parts>) -> Result<u64, Refusal> {
    let mut reader = versions.reader(rt)?;
    let wrong = read_many(rt, &mut reader);
    reader.leave(rt);
    Ok(wrong)
}

// How many versions two threads published.
fn publish_by_two<R: Threads + Wait + Sync>(
    rt: &R,
    versions: &Versions<'_, Parts>,
) -> Result<u64, Refusal> {
    let (one, other) = thread::join(
        rt,
        move || publish(rt, versions),
        move || publish(rt, versions),
    );
    Ok(one?.wrapping_add(other?))
}

// How many readings of two threads were wrong.
fn read_by_two<R: Threads + Wait + Sync>(
    rt: &R,
    versions: &Versions<'_, Parts>,
) -> Result<u64, Refusal> {
    let (one, other) = thread::join(rt, move || read(rt, versions), move || read(rt, versions));
    Ok(one?.wrapping_add(other?))
}

fn all<R: Threads + Wait + Sync>(
    rt: &R,
    versions: &Versions<'_, Parts>,
) -> Result<(u64, u64), Refusal> {
    let (right, wrong) = thread::join(
        rt,
        move || publish_by_two(rt, versions),
        move || read_by_two(rt, versions),
    );
    Ok((right?, wrong?))
}

// Two threads publish 500 versions each, and two others read meanwhile. None is lost.
#[test]
fn no_reader_sees_an_older_version(rt: HostRuntime) -> Result<(), Fail> {
    let collector = collector(rt.alloc())?;
    let versions = Versions::new(&collector);
    let (right, wrong) = all(&rt, &versions)?;
    let mut reader = versions.reader(&rt)?;
    let last = reader.read_with(|version| version.map(|it| it.number));
    reader.leave(&rt);
    assert_eq!(rt; right, LAST);
    assert_eq!(rt; wrong, 0);
    assert_eq!(rt; last, Some(LAST));
    Ok(())
}
