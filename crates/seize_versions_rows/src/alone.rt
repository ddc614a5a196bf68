//! A cell of versions in one thread's hands.
ghost use Rattle.std.specs.Prelude.{◌<◌, IfOk};
ghost use Rattle.seize.specs.Collectors.{its_links, its_words};

use seize::{Collector, IdSource, Refusal};
use seize_versions::{ByNumber, NotPublished, Reader, Version, Versions};
use std::alloc::Global;
use std::sync::Wait;
use std::test::Fail;

// A collector with one link.
fn collector(alloc: Global) -> Result<Collector<Version<u64>, ByNumber>, Refusal>
    ensures { IfOk result (λ made. 0 < its_links (its_words made)) }
{
    Collector::with_reclaimer(alloc, &mut IdSource::new(), 1, 1, ByNumber)
}

// 10, and then ten times as much. It refuses after 100, with that.
fn tenfold(value: Option<&u64>) -> Result<u64, u64> {
    match value {
        Some(100) => Err(100),
        Some(number) => Ok(number.wrapping_mul(10)),
        None => Ok(10),
    }
}

// The number and the value of what the cell holds.
fn held(reader: &mut Reader<'_, '_, u64>) -> Option<(u64, u64)> {
    reader.read().map(|version| (version.number, version.value))
}

// What a publication answers, and what the cell holds then.
type Step = (Result<u64, NotPublished<u64>>, Option<(u64, u64)>);

fn step<W: Wait>(rt: &W, reader: &mut Reader<'_, '_, u64>, tries: u32) -> Step {
    let published = reader.publish(rt, tenfold, tries);
    (published, held(reader))
}

// Four publications, of which the second is not tried. The reader refreshes before the third.
fn steps<W: Wait>(rt: &W, reader: &mut Reader<'_, '_, u64>) -> [Step; 4] {
    let first = step(rt, reader, 1);
    let second = step(rt, reader, 0);
    reader.refresh(rt);
    let third = step(rt, reader, 1);
    let fourth = step(rt, reader, 1);
    [first, second, third, fourth]
}

// What the calls of `steps` are to give.
const EXPECTED: [Step; 4] = [
    (Ok(1), Some((1, 10))),
    (Err(NotPublished::Contended), Some((1, 10))),
    (Ok(2), Some((2, 100))),
    (Err(NotPublished::Refused(100)), Some((2, 100))),
];

#[test]
fn each_version_has_the_next_number(rt: HostRuntime) -> Result<(), Fail> {
    let collector = collector(rt.alloc())?;
    let versions = Versions::new(&collector);
    let mut reader = versions.reader(&rt)?;
    let before = (reader.newest(), held(&mut reader));
    let told = steps(&rt, &mut reader);
    let newest = reader.newest();
    reader.leave(&rt);
    assert!(rt; before == (0, None));
    assert!(rt; told == EXPECTED);
    assert_eq!(rt; newest, 2);
    Ok(())
}

// A reader that comes later finds what is there. A function is lent the version.
#[test]
fn a_second_reader_finds_the_version(rt: HostRuntime) -> Result<(), Fail> {
    let collector = collector(rt.alloc())?;
    let versions = Versions::new(&collector);
    let mut first = versions.reader(&rt)?;
    let published = first.publish(&rt, tenfold, 1);
    first.leave(&rt);
    let mut second = versions.reader(&rt)?;
    let value = second.read_with(|version| version.map(|it| it.value));
    let newest = second.newest();
    let (guard, mut pass) = second.into_parts();
    guard.leave(&rt, &mut pass);
    assert!(rt; published == Ok(1));
    assert_eq!(rt; value, Some(10));
    assert_eq!(rt; newest, 1);
    Ok(())
}
