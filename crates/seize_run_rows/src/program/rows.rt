//! The built-in rows, and arguments that name none.
use super::*;
use std::io::Write;

/// Each row with what it prints; those with numbered values have tests of their own.
pub(super) const ROWS: [(&str, &str); 17] = [
    ("single", "slot 0; --; gone a; gone b"),
    (
        "reentrant",
        "slot 0; slot 1; --; --; gone v1; gone v2; gone v3; gone v4; gone v5",
    ),
    (
        "refresh",
        "slot 0; slot 1; --; --; gone v1; gone v2; gone v3; gone v4; gone v5",
    ),
    (
        "enough",
        "slot 0; slot 1; slot 2; --; --; gone x; gone y; gone z",
    ),
    ("zero", "gone a; slot 0; --"),
    (
        "further",
        "gone p; gone x; gone q; gone r; slot 0; --; gone s",
    ),
    (
        "all",
        "slot 0; slot 1; --; gone a; gone b; gone d; gone c; slot 0",
    ),
    ("reuse", "slot 0; slot 1; slot 2; slot 1; kept; slot 3"),
    (
        "refused",
        "refused 5 NotInUse; slot 0; refused 6 NotActive; refused 6 NotActive; slot 1; refused 7 WrongKind",
    ),
    ("links", "slot 0; empty; found; --; gone a"),
    (
        "many",
        "slot 0; --; gone p; gone w1; gone w2; gone w3; gone w4; gone w5; gone w6; gone w7; gone w8; gone w9; gone w10",
    ),
    (
        "crowd",
        "slot 0; slot 1; slot 2; slot 3; slot 4; --; gone v1; gone v2; gone v3; gone v4; gone v5",
    ),
    ("left", "gone a; slot 0; --; slot 0; --; gone b; gone c"),
    ("rest", "slot 0; slot 1; slot 0; --; gone b; gone a; gone c"),
    (
        "taken",
        "slot 0; slot 1; slot 2; --; gone a; gone b; slot 0",
    ),
    ("last", "slot 0; --; gone p; gone q; gone r; gone s"),
    ("held", "slot 0; slot 1; kept; slot 0; --; gone a"),
];

#[test]
fn rows(rt: HostRuntime) -> Result<(), Fail> {
    for (name, shown) in ROWS {
        let output = lines(rt.alloc(), shown)?;
        prints(&rt, &["row", name], b"", output.as_slice())?;
    }
    Ok(())
}

/// Each flush is an attempt of its own, so the last value is the first of the list.
#[test]
fn flushes(rt: HostRuntime) -> Result<(), Fail> {
    let mut output = lines(rt.alloc(), "slot 0; --")?;
    for i in (1..=30u8).rev() {
        writeln!(output, "gone v{i}")?;
    }
    prints(&rt, &["row", "flushes"], b"", output.as_slice())
}

#[test]
fn fives(rt: HostRuntime) -> Result<(), Fail> {
    let mut output = lines(rt.alloc(), "slot 0; --")?;
    for batch in (0..6u8).rev() {
        for i in 1..=5u8 {
            let name = batch * 5 + i;
            writeln!(output, "gone v{name}")?;
        }
    }
    prints(&rt, &["row", "fives"], b"", output.as_slice())
}

/// A row's script is no input, and the same calls as an input print the same.
#[test]
fn the_same_as_a_script(rt: HostRuntime) -> Result<(), Fail> {
    let script = lines(
        rt.alloc(),
        "size 2 links 0; register; enter 0; retire 0 a; leave 0; tick; enter 0; retire 0 b; leave 0",
    )?;
    let output = lines(rt.alloc(), "slot 0; --; gone a; gone b")?;
    prints(&rt, &["script"], script.as_slice(), output.as_slice())
}

#[test]
fn other_arguments(rt: HostRuntime) -> Result<(), Fail> {
    let usage = "usage: seize-run row NAME | seize-run script";
    fails(&rt, &[], b"", 2, usage)?;
    fails(&rt, &["row"], b"", 2, usage)?;
    fails(&rt, &["row", "single", "single"], b"", 2, usage)?;
    fails(&rt, &["script", "single"], b"", 2, usage)?;
    fails(&rt, &["single"], b"", 2, usage)?;
    fails(&rt, &["Script"], b"", 2, usage)
}

#[test]
fn unknown_rows(rt: HostRuntime) -> Result<(), Fail> {
    fails(&rt, &["row", "nothing"], b"", 2, "no row nothing")?;
    fails(&rt, &["row", "Single"], b"", 2, "no row Single")?;
    fails(&rt, &["row", "singles"], b"", 2, "no row singles")?;
    fails(&rt, &["row", ""], b"", 2, "no row ")
}
