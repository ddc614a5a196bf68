//! Reclaimers: what becomes of a value that no slot can read any more. A reclaimer may put further blocks, which are retired in turn.
ghost use Rattle.std.specs.Prelude.{ℕ, ◌<◌, Option, List, [], map, sum};
ghost use Rattle.std.proofs.Common.{lit<};
ghost use Rattle.seize_parts.specs.Blocks.{HoldsOnly};
ghost use Rattle.seize_parts.specs.Furthers.{Joins, further_store};

mod further;
mod watch;

pub use further::Further;
pub use watch::Watch;

/// What a reclaimer says of values of this type: what it puts with one, and what a link of them may change to. Nothing of it is there when
/// the program runs.
///
/// A value may hold blocks of its collector. Its reclaimer takes them out and puts them, and they are retired in turn: so a chain of blocks
/// ends without recursion. What it puts weighs less, together, than the value that it was given, so this comes to an end. A reclaimer that
/// puts nothing has the members that are given here, and says the law alone.
pub trait Puts<T> {
    /// What a value weighs: at least 1.
    ghost weight: { T → ℕ } = { λ _. 1 };

    /// The stores of the blocks in the value that it may put. A type that holds blocks of itself says it by a fold, with `owners_in`. Where
    /// it names none, no block out of the value can be put.
    ghost owners: { T → List (List ℕ) } = { λ _. [] };

    /// The contents of the blocks that it puts with a value of this kind, in order.
    ghost puts: { ℕ → T → List T } = { λ _ _. [] };

    /// The rule of the links: `keeps link before after` says that this link may change from the one content to the other; `None` is that
    /// of an empty link. Each exchange by a guard has to meet it, and `Collector::laws` says that all did since the collector was last
    /// shared. What one caller does with an `Alone` need not meet it, nor does the drop. Where no rule is given, a link may change to
    /// anything. A rule that allows nothing is allowed: then links change by `Alone` and the drop alone.
    ghost keeps: { ℕ → Option T → Option T → Type 0 } = { λ _ _ _. Unit {0} };

    ghost lighter: { (kind : ℕ) (value : T) → sum (map weight (puts kind value)) < weight value };
}

/// What becomes of a value that no slot can read any more.
///
/// A reclaimer is a small type of the caller's own: a unit struct, or one with a reference to a counter, or to a pool that takes values
/// back. A collector has one (`Collector::with_reclaimer`). A retirement may say of which *kind* its value is: a number of the caller's
/// own, which the reclaimer is given with the value. Else the kind is 0.
///
/// The collector's calls use copies of it, on several threads at once: it is to be `Sync` for the collector to be shared, and `Send` for it
/// to go to another thread. What a dropped `Owned` holds ends by its `Drop`, and does not come here.
pub trait Reclaim<T: Drop>: Copy + Puts<T> {
    /// Ends the value, or hands it on, and puts the further blocks. `kind` is what its retirement said.
    ///
    /// It runs within a call of a guard, a registration or the collector, on whichever thread makes that call, and that call takes as long,
    /// and as much memory, as it does. A slot makes one call at a time, so the reclaimer does not use the registration in whose call it
    /// runs: `enter` refuses there, and calls with a runtime wait for ever.
    fn reclaim(self, kind: u64, value: T, further: &mut Further<'_, T, Self>)
        requires { HoldsOnly Self.owners (further_store further.old) value }
        ensures { Joins T.row.coded.code further.old further.new (Self.puts kind value) };
}

/// Ends each value by its `Drop`, whatever its kind. It puts nothing.
#[derive(Clone, Copy, Debug, PartialEq, Eq)]
pub struct Boxed;

impl<T> Puts<T> for Boxed {
    ghost lighter = { λ _ _. lit< tt };
}

impl<T: Drop> Reclaim<T> for Boxed {
    fn reclaim(self, _kind: u64, value: T, _further: &mut Further<'_, T, Boxed>) {
        drop(value);
    }
}
