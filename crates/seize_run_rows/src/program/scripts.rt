//! The grammar of scripts and its limits.
use super::*;
use seize_script::LONGEST_SCRIPT;
use std::io::Write;

const SCRIPT: [&str; 1] = ["script"];

/// Scripts that run, as lines, and what they print.
const GOOD: [(&str, &str); 15] = [
    ("size 1 links 0", ""),
    ("size 18446744073709551615 links 1024", ""),
    ("; ; size 1 links 0; ; register", "slot 0"),
    (
        "size 1 links 0; register; retire 0 abcdefg1",
        "gone abcdefg1; slot 0",
    ),
    (
        "size 1 links 0; leave 18446744073709551615",
        "refused 5 NotInUse",
    ),
    (
        "size 1 links 0; register; retire 1 a(b,c)",
        "slot 0; refused 5 NotInUse",
    ),
    (
        "size 1 links 1; register; enter 0; swap 0 0 a; swap 0 0 -; protect 0 0; leave 0",
        "gone a; slot 0; empty",
    ),
    ("size 1 links 0; tick; tick; all; tick", "--; --; --"),
    (
        "size 1 links 1024; register; protect 0 1023",
        "slot 0; refused 6 NotActive",
    ),
    // what a slot retired under earlier guards stays in its batch
    (
        "size 3 links 0; register; register; enter 0; retire 0 b1; leave 0; enter 0; retire 0 b2; leave 0; \
        enter 1; enter 0; retire 0 a; leave 1; tick; leave 0",
        "slot 0; slot 1; --; gone b1; gone b2; gone a",
    ),
    // the number of a forgotten guard is free once all is reclaimed
    (
        "size 4 links 0; owned; register; end 1; register; end 1; all; register",
        "slot 0; slot 1; slot 1; slot 0",
    ),
    // a slot that is taken attempts a full batch before it enters
    (
        "size 2 links 0; register; register; register; retire 0 a; end 0; retire 1 b(c); end 1; tick; owned; leave 0; tick; all",
        "slot 0; slot 1; slot 2; --; gone a; gone b; slot 0; --; gone c",
    ),
    // what waits for another slot, and what is put, is left as a number goes back
    (
        "size 1 links 0; register; owned; retire 0 a(b(c)); end 0; tick; register; tick; leave 1; tick; end 0",
        "slot 0; slot 1; --; slot 0; --; gone a; gone b; gone c; --",
    ),
    // the last owned slot leaves nothing
    (
        "size 4 links 0; owned; retire 0 p(q); tick; leave 0",
        "slot 0; --; gone p; gone q",
    ),
    // what slots left comes after all batches
    (
        "size 3 links 0; register; register; retire 0 a; end 0; retire 1 b; all; register",
        "slot 0; slot 1; gone b; gone a; slot 0",
    ),
];

/// First lines that break the grammar.
const BAD_FIRST: [&str; 14] = [
    "register",
    "size 1",
    "size 1 links",
    "size 1 links 1025",
    "size 01 links 0",
    "size 1 links 00",
    "size 18446744073709551616 links 0",
    "size 1 links 18446744073709551616",
    "size  1 links 0",
    "size 1  links 0",
    "size 1 links 0 ",
    " size 1 links 0",
    "size 1 links 0 0",
    "Size 1 links 0",
];

/// Other lines that break the grammar, in a script with one link.
const BAD: [&str; 51] = [
    "size 1 links 1",
    " register",
    "register ",
    "register 0",
    "Register",
    "registers",
    "owned 0",
    "enter",
    "enter ",
    "enter x",
    "enter 00",
    "enter 01",
    "enter  0",
    "enter 0 ",
    "enter 0 0",
    "enter -0",
    "enter +0",
    "enter 18446744073709551616",
    "leave 0x",
    "end",
    "refresh 0,",
    "flush 0.0",
    "retire 0",
    "retire 0 ",
    "retire a",
    "retire 0 A",
    "retire 0 1a",
    "retire 0 a_b",
    "retire 0 abcdefghi",
    "retire 0 -",
    "retire 0 a b",
    "retire 0 a,b",
    "retire 0 ()",
    "retire 0 a()",
    "retire 0 a(",
    "retire 0 a)",
    "retire 0 a(b",
    "retire 0 a(b,)",
    "retire 0 a(,b)",
    "retire 0 a(b, c)",
    "retire 0 a(b))",
    "retire 0 a(b)c",
    "retire 0 a (b)",
    "protect 0",
    "protect 0 1",
    "swap 0 0",
    "swap 0 0 -a",
    "swap 0 1 a",
    "swap 0 1 -",
    "tick 0",
    "all ",
];

#[test]
fn good_scripts(rt: HostRuntime) -> Result<(), Fail> {
    for (script, shown) in GOOD {
        let script = lines(rt.alloc(), script)?;
        let output = lines(rt.alloc(), shown)?;
        prints(&rt, &SCRIPT, script.as_slice(), output.as_slice())?;
    }
    Ok(())
}

/// The last line needs no line feed.
#[test]
fn no_line_feed(rt: HostRuntime) -> Result<(), Fail> {
    prints(&rt, &SCRIPT, b"size 1 links 0\nregister", b"slot 0\n")?;
    prints(&rt, &SCRIPT, b"size 1 links 0", b"")
}

/// Without a first line the first line is bad, whatever its number.
#[test]
fn nothing_to_read(rt: HostRuntime) -> Result<(), Fail> {
    fails(&rt, &SCRIPT, b"", 2, "line 1: bad line")?;
    fails(&rt, &SCRIPT, b"\n\n\n", 2, "line 1: bad line")
}

#[test]
fn bad_first_lines(rt: HostRuntime) -> Result<(), Fail> {
    for line in BAD_FIRST {
        fails(&rt, &SCRIPT, line.as_bytes(), 2, "line 1: bad line")?;
    }
    fails(
        &rt,
        &SCRIPT,
        b"\n\nsize 1 links 0 \n",
        2,
        "line 3: bad line",
    )
}

/// The line stands behind an empty one, and before one that is bad too. Nothing is run.
#[test]
fn bad_lines(rt: HostRuntime) -> Result<(), Fail> {
    for line in BAD {
        let mut script = lines(rt.alloc(), "size 1 links 1; register; ")?;
        script.extend_from_slice(line.as_bytes())?;
        script.extend_from_slice(b"\nlater\n")?;
        fails(&rt, &SCRIPT, script.as_slice(), 2, "line 4: bad line")?;
    }
    Ok(())
}

/// Bytes that are no text, and other ends of lines.
#[test]
fn other_bytes(rt: HostRuntime) -> Result<(), Fail> {
    fails(&rt, &SCRIPT, b"\xff", 2, "line 1: bad line")?;
    fails(&rt, &SCRIPT, b"size 1 links 0\r\n", 2, "line 1: bad line")?;
    fails(&rt, &SCRIPT, b"size 1 links 0\n\xc3", 2, "line 2: bad line")?;
    fails(
        &rt,
        &SCRIPT,
        b"size 1 links 0\nenter \xff",
        2,
        "line 2: bad line",
    )?;
    fails(
        &rt,
        &SCRIPT,
        b"size 1 links 0\nretire 0 \xc3\xa9",
        2,
        "line 2: bad line",
    )?;
    fails(
        &rt,
        &SCRIPT,
        b"size 1 links 0\ntick\0",
        2,
        "line 2: bad line",
    )
}

/// Numbers that were given back are taken again, the least first, among many.
#[test]
fn many_numbers(rt: HostRuntime) -> Result<(), Fail> {
    let mut script = lines(rt.alloc(), "size 1 links 0")?;
    let mut output = Vec::new(rt.alloc());
    for n in 0..2_000u16 {
        script.extend_from_slice(b"register\n")?;
        writeln!(output, "slot {n}")?;
    }
    for n in (0..1_000u16).rev() {
        writeln!(script, "end {n}")?;
    }
    for n in 0..1_000u16 {
        script.extend_from_slice(b"owned\n")?;
        writeln!(output, "slot {n}")?;
    }
    prints(&rt, &SCRIPT, script.as_slice(), output.as_slice())
}

/// A script that retires a value so deep by a slot without a guard.
fn nested(alloc: Global, depth: u32) -> Result<Vec<u8>, AllocError> {
    let mut script = lines(alloc, "size 1 links 0; register")?;
    script.extend_from_slice(b"retire 0 a")?;
    for _ in 1..depth {
        script.extend_from_slice(b"(a")?;
    }
    for _ in 1..depth {
        script.push(b')')?;
    }
    script.push(b'\n')?;
    Ok(script)
}

#[test]
fn deep_values(rt: HostRuntime) -> Result<(), Fail> {
    let script = nested(rt.alloc(), 64)?;
    let mut output = Vec::new(rt.alloc());
    for _ in 0..64u8 {
        output.extend_from_slice(b"gone a\n")?;
    }
    output.extend_from_slice(b"slot 0\n")?;
    prints(&rt, &SCRIPT, script.as_slice(), output.as_slice())?;
    let script = nested(rt.alloc(), 65)?;
    fails(&rt, &SCRIPT, script.as_slice(), 2, "line 3: bad line")?;
    let script = nested(rt.alloc(), 100_001)?;
    fails(&rt, &SCRIPT, script.as_slice(), 2, "line 3: bad line")
}

/// The limit of bytes holds whatever the lines are.
#[test]
fn long_scripts(rt: HostRuntime) -> Result<(), Fail> {
    let mut script = vec![in rt.alloc(); b'\n'; LONGEST_SCRIPT - 23]?;
    script.extend_from_slice(b"size 1 links 0\nregister")?;
    prints(&rt, &SCRIPT, script.as_slice(), b"slot 0\n")?;
    script.push(b'\n')?;
    fails(&rt, &SCRIPT, script.as_slice(), 2, "script too long")?;
    let bad = vec![in rt.alloc(); b'?'; LONGEST_SCRIPT]?;
    fails(&rt, &SCRIPT, bad.as_slice(), 2, "line 1: bad line")?;
    let bad = vec![in rt.alloc(); b'?'; LONGEST_SCRIPT + 1]?;
    fails(&rt, &SCRIPT, bad.as_slice(), 2, "script too long")
}
