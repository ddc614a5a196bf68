//! Publications that are made again where memory was refused: the second time each serves as if there had been no first one.
//! `tools/lacking` refuses one request after another.
ghost use Rattle.std.specs.Prelude.{◌<◌, IfOk};
ghost use Rattle.seize.specs.Collectors.{its_links, its_words};

use seize::{Collector, IdSource, Refusal};
use seize_versions::{ByNumber, Reader, Version, Versions};
use std::alloc::Global;
use std::convert::Infallible;
use std::process::Abort;
use std::sync::Wait;
use std::test::Fail;

// A collector with one link.
fn one_link(alloc: Global) -> Result<Collector<Version<u64>, ByNumber>, Refusal>
    ensures { IfOk result (λ made. 0 < its_links (its_words made)) }
{
    Collector::with_reclaimer(alloc, &mut IdSource::new(), 1, 1, ByNumber)
}

fn collector(alloc: Global) -> Result<Collector<Version<u64>, ByNumber>, Refusal>
    ensures { IfOk result (λ made. 0 < its_links (its_words made)) }
{
    match one_link(alloc) {
        Ok(collector) => Ok(collector),
        Err(_) => one_link(alloc),
    }
}

fn reader<'v, 'c>(
    rt: &(impl Wait + Abort),
    versions: &'v Versions<'c, u64>,
) -> Reader<'v, 'c, u64> {
    match versions.reader(rt) {
        Ok(reader) => reader,
        Err(_) => versions.reader(rt).expect(rt, "memory"),
    }
}

// 10, and then one more.
fn next(value: Option<&u64>) -> Result<u64, Infallible> {
    Ok(match value {
        Some(number) => number.wrapping_add(1),
        None => 10,
    })
}

fn publish(rt: &(impl Wait + Abort), reader: &mut Reader<'_, '_, u64>) -> u64 {
    match reader.publish(rt, next, 1) {
        Ok(number) => number,
        Err(_) => reader.publish(rt, next, 1).ok().expect(rt, "memory"),
    }
}

// The numbers of three publications, and the value that is there then.
fn publish_some(
    rt: &(impl Wait + Abort),
    reader: &mut Reader<'_, '_, u64>,
) -> ([u64; 3], Option<u64>) {
    let first = publish(rt, reader);
    let second = publish(rt, reader);
    let third = publish(rt, reader);
    let value = reader.read().map(|version| version.value);
    ([first, second, third], value)
}

#[test]
fn refused_publications_serve_when_made_again(rt: HostRuntime) -> Result<(), Fail> {
    let collector = collector(rt.alloc())?;
    let versions = Versions::new(&collector);
    let mut reader = reader(&rt, &versions);
    let (numbers, value) = publish_some(&rt, &mut reader);
    reader.leave(&rt);
    assert_eq!(rt; numbers, [1, 2, 3]);
    assert_eq!(rt; value, Some(12));
    Ok(())
}
