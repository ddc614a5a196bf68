//! The table: threads share it by `&`, and an entry that is filled stays as it is.
ghost use Rattle.std.specs.Prelude.{◌≡◌, IfOk};

use seize::Refusal;
use seize::thread_id::Thread;
use seize::tls::ThreadLocal;

/// Loads one entry twice. Both loads answer one value, whichever thread filled the entry.
pub fn loaded_twice(table: &ThreadLocal<u64>, thread: Thread) -> Result<(u64, u64), Refusal>
    ensures { IfOk result (λ found. found.0 ≡ found.1) }
{
    let mut first = table.load_or(|| 1, thread)?;
    let second = table.load_or(|| 2, thread)?;
    let found = (*first.value, *second.value);
    table.agree(thread, &mut first.filled, second.filled);
    Ok(found)
}
