//! A caller who has the collector alone has all reclaimed that was retired, and knows it of what its threads retired.
ghost use base.Stored.{gnum};
ghost use Rattle.std.specs.Prelude.{◌≡◌, ℕ, IfOk, true};
ghost use Rattle.seize.specs.Blocks.{HasContent};
ghost use Rattle.seize.specs.Collectors.{its_book};
ghost use Rattle.seize.specs.Machine.History.{Reclaimed, Retired};
ghost use Rattle.seize.specs.Reclaims.{moments_kept, moments_of};

use seize::{Collector, Refusal, Seen};
use std::sync::Wait;

/// Retires a new block with this number by a registration of its own, which ends then. The note that comes back knows of it: a value of
/// this content is retired there.
pub fn retire<W: Wait>(collector: &Collector<u64>, number: u64, rt: &W) -> Result<Seen, Refusal>
    ensures book { IfOk result (λ known. known.name ≡ its_book collector.now) }
    ensures retired { IfOk result (λ known. (v : ℕ) × HasContent gnum v number × ((q : ℕ) × Retired (moments_kept known) v q)) }
{
    let block = match collector.owned(number) {
        Ok(block) => block,
        Err((refusal, _)) => return Err(refusal),
    };
    let mut pass = collector.pass();
    let registration = collector.register(rt, &mut pass)?;
    registration.retire(rt, &mut pass, collector.unlinked(block));
    registration.end(rt, &mut pass);
    let mut known = collector.seen();
    known.learn(&mut pass);
    Ok(known)
}

/// Has the collector reclaim all. If it says so, each value that the note knows to be retired was reclaimed.
pub fn reclaim(collector: &mut Collector<u64>, known: &Seen) -> bool
    requires book { known.now.name ≡ its_book collector.old }
    ensures { result ≡ true → (v q : ℕ) → Retired (moments_kept known.now) v q → (k : ℕ) × Reclaimed (moments_of collector.new) v k }
{
    collector.learn(known);
    collector.reclaim_all(&mut ())
}
