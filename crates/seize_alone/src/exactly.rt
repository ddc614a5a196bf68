//! Calls made alone are the model's. Each function does nothing: its contract is what is shown.
ghost use Rattle.std.specs.Prelude.{ℕ, List};
ghost use Rattle.seize_model.specs.Waiting.Further.{Lighter};
ghost use Rattle.seize_alone.specs.Begins.{BeginsHeld};
ghost use Rattle.seize_alone.specs.Calls.{FlushesHeld, GathersHeld, LeavesHeld, OutlineStays, PartsHeld, RefreshesHeld, RetiresHeld, SizeStays};
ghost use Rattle.seize_alone.specs.Calls.{TakesFullHeld};
ghost use Rattle.seize_alone.specs.Reclaiming.{AllGoneHeld, OrderlyHeld, ReclaimsInTurn, SameBelow};
ghost use Rattle.seize_alone.specs.Events.{EntersHeld, GivesHeld, GuardsHeld, SwapsHeld, TakesHeld};

/// Calls by which values may be gone, where the pass is alone and its hands hold the state. The answer is the model's, they hold the state
/// that the model says then, and what the reclaimer had are the model's values gone, in order.
pub fn calls_alone<T>()
    ensures retire { (puts : ℕ → T → List T) (weight : T → ℕ) → Lighter puts weight → RetiresHeld T.row.coded puts weight }
    ensures flush { (puts : ℕ → T → List T) (weight : T → ℕ) → Lighter puts weight → FlushesHeld T.row.coded puts weight }
    ensures part { (puts : ℕ → T → List T) (weight : T → ℕ) → Lighter puts weight → PartsHeld T.row.coded puts weight }
    ensures leave { (puts : ℕ → T → List T) (weight : T → ℕ) → Lighter puts weight → LeavesHeld T.row.coded puts weight }
    ensures take { (puts : ℕ → T → List T) (weight : T → ℕ) → Lighter puts weight → TakesFullHeld T.row.coded puts weight }
    ensures gather { (puts : ℕ → T → List T) (weight : T → ℕ) → Lighter puts weight → GathersHeld T.row.coded puts weight }
    ensures refresh { (puts : ℕ → T → List T) (weight : T → ℕ) → Lighter puts weight → RefreshesHeld T.row.coded puts weight }
    ensures size { (puts : ℕ → T → List T) (weight : T → ℕ) → SizeStays puts weight }
    ensures outline { (puts : ℕ → T → List T) (weight : T → ℕ) → OutlineStays puts weight }
{}

/// Single events made alone: after each the hands hold the model's state, and what comes out of a link is what the model's link held. A
/// book without calls, which threads shared, shows a collector with what they left in use.
pub fn events_alone<T>()
    ensures begins { BeginsHeld T.row.coded.code }
    ensures enter { EntersHeld T.row.coded.code }
    ensures give { GivesHeld T.row.coded.code }
    ensures take { TakesHeld T.row.coded.code }
    ensures guards { GuardsHeld T.row.coded.code }
    ensures swap { SwapsHeld T.row.coded.code }
{}

/// Steps of single slots, slot after slot, reclaim all as the model says: the same values are gone in the same order, and the state is the
/// model's but for retired batches, which all are gone. With such batches calls go on as without them. A state that hands hold is orderly,
/// as is asked. And where hands hold the state before the steps and the one after them, they hold the model's after its reclaim of all.
pub fn reclaiming_alone<T>()
    ensures reclaim_all { (puts : ℕ → T → List T) (weight : T → ℕ) → ReclaimsInTurn puts weight }
    ensures below { (puts : ℕ → T → List T) (weight : T → ℕ) → SameBelow puts weight }
    ensures orderly { OrderlyHeld T.row.coded.code }
    ensures all_gone { (puts : ℕ → T → List T) (weight : T → ℕ) → AllGoneHeld T.row.coded.code puts weight }
{}
