//! Activations: each lasts from when a slot enters or refreshes until it leaves or refreshes. Nothing here has bytes. An activation has a
//! lifetime of its own, which each of its borrowers knows to last; what readers are lent can be lent for that long.
ghost use Rattle.std.specs.Prelude.{◌≡◌, ℕ, List, [], ◌∷◌};
ghost use base.Fml.{flft};
ghost use base.Stored.{coded_list};
ghost use denote.Sharing.{one};
ghost use Rattle.std.specs.Coded.{coded_ℕ};
ghost use Rattle.seize_book.specs.Entry.{Entry, entry_coded};
ghost use Rattle.seize_book.specs.Tokens.{Name, name_coded, over};
ghost use Rattle.seize_words.specs.Units.{has_units};

use seize_book::book::{Keys, Pass, SlotKey};
use std::marker::{Model, PhantomData};

/// One activation of a slot after the other: the slot enters, refreshes and leaves with it. While it is borrowed, the slot does neither.
///
/// It consists of 2^64 units, and callers who read beside one another can each have one (`split`): a unit is an `Activation` too, with
/// which links are read. The slot refreshes and leaves with all units only. Where a unit of an active slot is dropped or forgotten, the
/// slot can't leave any more: it stays active for good, and what waits for it is never reclaimed.
#[derive(Drop)]
pub struct Activation {
    marker: PhantomData<()>,
    /// The book.
    pub ghost name: { Name } by { name_coded },
    /// The slot, by its number.
    pub ghost slot: { ℕ },
    /// Its lifetime.
    pub ghost life: { ℕ },
    /// The list as it was when it had begun.
    pub ghost since: { List Entry } by { coded_list entry_coded },
    /// How many of the units it has.
    pub ghost units: { ℕ },
}

impl Model for Activation {
    ghost also_owns = { λ a. has_units a.life a.units };

    ghost also_shares = { λ a _ κ. one (λ q. flft (a.life ∷ []) q) κ };
}

/// Lifetimes of activations that are over, and the one that comes next.
#[derive(Drop)]
pub(crate) struct Ended {
    marker: PhantomData<()>,
    pub(crate) ghost lives: { List ℕ } by { coded_list coded_ℕ },
    pub(crate) ghost next: { ℕ },
}

impl Model for Ended {
    ghost also_owns = { λ e. over e.lives };
}

impl Activation {
    ghost use Rattle.std.specs.Prelude.{◌+◌, ◌<◌, ◌≤◌};
    ghost use Rattle.seize_words.specs.Activations.{BeginsAs, EndsLife, IsActivationFor, IsLasting, HasAllUnits, JoinsUnits, SplitsUnit, SplitsUnits};
    ghost use Rattle.seize_words.specs.Reservations.{IsOfSlot};
    ghost use Rattle.seize_words.specs.Units.{all_units};

    /// An activation of the slot that has still to begin (`Head::enter`).
    pub fn new(key: &SlotKey) -> Activation
        ensures { IsOfSlot key.now result }
    {
        Activation::of(&key.keys)
    }

    // One of the slot that the key is of.
    fn of(keys: &Keys) -> Activation
        ensures { IsActivationFor keys.now result }
    {
        Activation {
            marker: PhantomData,
        }
    }

    /// Splits off one unit, which others can read links with, for as long as the slot neither leaves nor refreshes.
    pub fn split(&mut self) -> Activation
        requires { 1 < self.old.units }
        ensures { SplitsUnit self.old self.new result }
    {
        self.split_many(1)
    }

    /// Splits off so many units, which are one `Activation`.
    pub fn split_many(&mut self, count: u64) -> Activation
        requires { (0 < count) × (count < self.old.units) }
        ensures { SplitsUnits self.old self.new count result }
    {
        Activation {
            marker: PhantomData,
        }
    }

    /// Takes units of the same activation back.
    pub fn join(&mut self, units: Activation)
        requires same { units.life ≡ self.old.life }
        requires fits { self.old.units + units.units ≤ all_units }
        ensures { JoinsUnits self.old units self.new }
    {}

    /// It has begun with the last event of its slot.
    pub(crate) fn begin(&mut self, keys: &mut Keys)
        ensures { BeginsAs self.old keys.old self.new × (keys.new ≡ keys.old) }
    {}

    /// It has not ended in what the pass has seen, since it is borrowed. So a value that was found in it was not reclaimed there
    /// (`found_stands`). It does nothing when the program runs: its contract is the law.
    pub fn lasts(&self, pass: &mut Pass)
        ensures { (pass.new ≡ pass.old) × IsLasting self.now pass.new }
    {}

    /// EndsLife it. It is another one then, which has still to begin.
    pub(crate) fn end(&mut self) -> Ended
        requires { HasAllUnits self.old }
        ensures { EndsLife self.old self.new result.lives result.next }
    {
        Ended {
            marker: PhantomData,
        }
    }
}

unsafe impl Send for Activation {}

unsafe impl Sync for Activation {}

unsafe impl Send for Ended {}
