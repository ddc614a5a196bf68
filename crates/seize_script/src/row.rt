//! The built-in rows: scripts with known outputs.
use std::alloc::{AllocError, Global};
use std::fmt::Write;

const SINGLE: &str =
    "size 2 links 0; register; enter 0; retire 0 a; leave 0; tick; enter 0; retire 0 b; leave 0";

const ENOUGH: &str =
    "size 1 links 0; owned; owned; owned; retire 0 x; flush 0; retire 0 y; flush 0; retire 0 z; tick; \
    leave 0; leave 1; tick; leave 2";

const ZERO: &str = "size 0 links 0; register; retire 0 a; tick; enter 0; flush 0; leave 0";

const FURTHER: &str = "size 2 links 0; register; retire 0 p(q(s),r); retire 0 x; tick; all";

const ALL: &str =
    "size 2 links 0; register; register; enter 0; retire 0 d; retire 1 a; retire 1 b; retire 1 c; tick; all; register";

const REUSE: &str =
    "size 4 links 0; register; owned; register; leave 1; register; enter 2; end 2; register";

const REFUSED: &str = "size 1 links 0; leave 0; register; leave 0; flush 0; owned; enter 1";

const LINKS: &str =
    "size 1 links 1; register; enter 0; protect 0 0; swap 0 0 a; protect 0 0; swap 0 0 b; tick; leave 0";

const LEFT: &str =
    "size 3 links 0; register; retire 0 a; end 0; tick; owned; retire 0 b; retire 0 c; tick; leave 0";

const REST: &str =
    "size 3 links 0; register; register; retire 0 a; end 0; retire 1 b; register; retire 0 c; end 1; tick; end 0";

const TAKEN: &str =
    "size 2 links 0; register; register; register; retire 0 a; end 0; retire 1 b; end 1; tick; register";

const LAST: &str = "size 4 links 0; register; tick; retire 0 p(q(s),r); end 0";

const HELD: &str =
    "size 2 links 0; register; register; enter 1; retire 0 a; end 0; end 1; register; end 0; tick; all";

// the beginnings and ends of rows that retire numbered values in between
const GUARDED: &str = "size 5 links 0; register; enter 0";

const THREE_GUARDS: &str = "size 5 links 0; register; register; enter 0; enter 0; enter 0; enter 1";

const FIVE_OWNED: &str = "size 1 links 0; owned; owned; owned; owned; owned";

const LEAVES: &str = "leave 1; leave 0; tick; leave 0; tick; leave 0";

const REFRESHES: &str = "leave 1; refresh 0; leave 0; tick; refresh 0; leave 0; tick; refresh 0";

const ALL_LEAVE: &str = "leave 0; leave 1; leave 2; leave 3; tick; leave 4";

/// The script of the built-in row of this name, if there is one.
pub fn script_of(alloc: Global, name: &str) -> Result<Option<String>, AllocError> {
    let mut script = String::new(alloc);
    match name {
        "single" => lines(&mut script, SINGLE)?,
        "flushes" => flushes(&mut script)?,
        "fives" => fives(&mut script)?,
        "reentrant" => beside_three(&mut script, LEAVES)?,
        "refresh" => beside_three(&mut script, REFRESHES)?,
        "enough" => lines(&mut script, ENOUGH)?,
        "zero" => lines(&mut script, ZERO)?,
        "further" => lines(&mut script, FURTHER)?,
        "all" => lines(&mut script, ALL)?,
        "reuse" => lines(&mut script, REUSE)?,
        "refused" => lines(&mut script, REFUSED)?,
        "links" => lines(&mut script, LINKS)?,
        "many" => many(&mut script)?,
        "crowd" => crowd(&mut script)?,
        "left" => lines(&mut script, LEFT)?,
        "rest" => lines(&mut script, REST)?,
        "taken" => lines(&mut script, TAKEN)?,
        "last" => lines(&mut script, LAST)?,
        "held" => lines(&mut script, HELD)?,
        _ => return Ok(None),
    }
    Ok(Some(script))
}

/// Lines that are shown with semicolons between them.
fn lines(script: &mut String, shown: &str) -> Result<(), AllocError> {
    for line in shown.split("; ") {
        writeln!(script, "{line}")?;
    }
    Ok(())
}

/// Retires v1, v2 and so on by the slot, up to this one.
fn retire(script: &mut String, slot: u8, last: u8) -> Result<(), AllocError> {
    for i in 1..=last {
        writeln!(script, "retire {slot} v{i}")?;
    }
    Ok(())
}

fn flushes(script: &mut String) -> Result<(), AllocError> {
    lines(script, GUARDED)?;
    for i in 1..=30u8 {
        writeln!(script, "retire 0 v{i}\nflush 0")?;
    }
    lines(script, "tick; leave 0")
}

fn fives(script: &mut String) -> Result<(), AllocError> {
    lines(script, GUARDED)?;
    retire(script, 0, 30)?;
    lines(script, "tick; leave 0")
}

/// Slot 1 retires five values beside three guards of slot 0, and then these lines.
fn beside_three(script: &mut String, end: &str) -> Result<(), AllocError> {
    lines(script, THREE_GUARDS)?;
    retire(script, 1, 5)?;
    lines(script, end)
}

fn crowd(script: &mut String) -> Result<(), AllocError> {
    lines(script, FIVE_OWNED)?;
    retire(script, 0, 5)?;
    lines(script, ALL_LEAVE)
}

/// One value puts ten.
fn many(script: &mut String) -> Result<(), AllocError> {
    lines(script, "size 20 links 0; register")?;
    write!(script, "retire 0 p(w1")?;
    for i in 2..=10u8 {
        write!(script, ",w{i}")?;
    }
    lines(script, "); tick; all")
}
