//! The sign of a test that is set up: a request for memory of a size that no other has.
use seize::Refusal;
use std::alloc::Global;

// The size of that request, in bytes. tools/memory knows it too.
const SIGN: usize = 4_099;

/// Gives the sign.
pub fn give_sign(alloc: Global) -> Result<(), Refusal> {
    let sign: Vec<u8> = Vec::with_capacity(alloc, SIGN)?;
    drop(sign);
    Ok(())
}
