//! Who is told of the values that are gone.
ghost use Rattle.std.specs.Prelude.{◌≡◌};
ghost use base.Stored.{Coded, coded_unit};

/// Is told of each value that is gone in a call of [`Alone`](crate::Alone), or in `Collector::reclaim_all`, that it is passed to, just
/// before that goes to the collector's reclaimer. The drop tells nobody.
///
/// A watch has a state, and a definition of how one value changes it. `coded` is the code of its states, which proofs alone use:
/// `coded_unit` where there is but one.
pub trait Watch<T> {
    ghost Seen: { Type 0 };

    ghost coded: { Coded Seen };

    ghost seen: { Self → Seen };

    ghost told: { Seen → T → Seen };

    /// This value is gone.
    fn gone(&mut self, value: &T)
        ensures { seen self.new ≡ told (seen self.old) value.now };
}

/// Keeps nothing.
impl<T> Watch<T> for () {
    ghost Seen = { Unit {0} };

    ghost coded = { coded_unit };

    ghost seen = { λ _. tt };

    ghost told = { λ _ _. tt };

    fn gone(&mut self, _value: &T) {}
}
