//! The program over bytes in memory: what it prints, what it says on errors, and its status.
use seize_script::{LONGEST_SCRIPT, PutInside, run_program};
use std::alloc::{AllocError, Global};
use std::process::Abort;
use std::test::Fail;

mod faults;
mod rows;
mod scripts;

/// What a run gave.
#[derive(Drop)]
struct Outcome {
    status: u8,
    output: Vec<u8>,
    errors: Vec<u8>,
}

fn given(alloc: Global, args: &[&str], input: &[u8]) -> Outcome {
    let mut output = Vec::new(alloc);
    let mut errors = Vec::new(alloc);
    let status = run_program(alloc, args, input, &mut output, &mut errors, PutInside);
    Outcome {
        status,
        output,
        errors,
    }
}

/// Each part between semicolons as a line.
fn lines(alloc: Global, shown: &str) -> Result<Vec<u8>, AllocError> {
    let mut lines = Vec::new(alloc);
    if !shown.is_empty() {
        for line in shown.split("; ") {
            lines.extend_from_slice(line.as_bytes())?;
            lines.push(b'\n')?;
        }
    }
    Ok(lines)
}

/// The run ends well and prints these lines.
fn prints(
    rt: &(impl AllocGlobal + Abort),
    args: &[&str],
    input: &[u8],
    output: &[u8],
) -> Result<(), Fail> {
    let got = given(rt.alloc(), args, input);
    assert_eq!(rt; got.errors.as_slice(), b"".as_slice());
    assert_eq!(rt; got.output.as_slice(), output);
    assert_eq!(rt; got.status, 0);
    Ok(())
}

/// The run prints nothing, and says why.
fn fails(
    rt: &(impl AllocGlobal + Abort),
    args: &[&str],
    input: &[u8],
    status: u8,
    errors: &str,
) -> Result<(), Fail> {
    let got = given(rt.alloc(), args, input);
    let errors = lines(rt.alloc(), errors)?;
    assert_eq!(rt; got.errors.as_slice(), errors.as_slice());
    assert_eq!(rt; got.output.as_slice(), b"".as_slice());
    assert_eq!(rt; got.status, status);
    Ok(())
}
