//! What one caller's hands hold: the state of the model, and what the list's numbers stand for. It has no bytes.
ghost use Rattle.std.specs.Prelude.{ℕ, List, Option};
ghost use Rattle.std.specs.Coded.{coded_option};
ghost use base.Fml.{ftrue};
ghost use base.Stored.{coded_list, coded×, coded_ℕ};
ghost use Rattle.seize_model.specs.Waiting.State.{ModelState};
ghost use Rattle.seize.specs.States.{state_coded};

use seize_words::book::Pass;
use std::marker::{Brand, Model, PhantomData};

/// What holds of a state, of names, of kinds and of what links hold. A caller passes `Brand`, and its proof picks it, by what `Hands::of`
/// is given.
pub(crate) trait Holding<T> {
    ghost are: { ModelState T ℕ → List (ℕ × T) → List (ℕ × ℕ) → List (Option ℕ) → Type 0 };
}

impl<T> Holding<T> for Brand {
    ghost are = { λ _ _ _ _. Unit {0} };
}

/// The state, the names and kinds by which the list shows it, and the names of what links hold.
pub(crate) struct Hands<T> {
    marker: PhantomData<T>,
    /// The state of waiting sets.
    pub(crate) ghost state: { ModelState T ℕ } by { state_coded T.code coded_ℕ },
    /// What names stand for.
    pub(crate) ghost names: { List (ℕ × T) } by { coded_list (coded× coded_ℕ T.code) },
    /// Of which kind numbers are.
    pub(crate) ghost kinds: { List (ℕ × ℕ) } by { coded_list (coded× coded_ℕ coded_ℕ) },
    /// By which names links hold what they hold.
    pub(crate) ghost held: { List (Option ℕ) } by { coded_list (coded_option coded_ℕ) },
}

impl<T> Model for Hands<T> {
    ghost also_owns = { λ _. ftrue };
}

impl<T> Drop for Hands<T> {
    fn drop(self) {
        let Hands { marker: _ } = self;
    }
}

// It owns nothing, so any thread may have it.
unsafe impl<T> Send for Hands<T> {}

unsafe impl<T> Sync for Hands<T> {}

impl<T> Hands<T> {
    /// The first ones of a collector, by its pass. What `_said` holds is for the proof that picks. It does nothing when the
    /// program runs.
    pub(crate) fn first<H: Holding<T>, S>(_pass: &Pass<'static>, _said: &S) -> Hands<T>
        requires { (st : ModelState T ℕ) × (names : List (ℕ × T)) × (kinds : List (ℕ × ℕ)) × (held : List (Option ℕ))
            × H.are st names kinds held }
        ensures { H.are result.state result.names result.kinds result.held }
    {
        Hands {
            marker: PhantomData,
        }
    }

    /// There are some, and these are they. What `_said` holds is for the proof that picks. It does nothing when the program runs.
    pub(crate) fn of<H: Holding<T>, S>(
        _hands: &Hands<T>,
        _pass: &Pass<'static>,
        _said: &S,
    ) -> Hands<T>
        requires { (st : ModelState T ℕ) × (names : List (ℕ × T)) × (kinds : List (ℕ × ℕ)) × (held : List (Option ℕ))
            × H.are st names kinds held }
        ensures { H.are result.state result.names result.kinds result.held }
    {
        Hands {
            marker: PhantomData,
        }
    }
}
