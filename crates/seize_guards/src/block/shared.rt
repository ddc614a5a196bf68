//! Blocks as a guard found them in a link.
ghost use Rattle.std.specs.Prelude.{◌≡◌};
ghost use Rattle.seize_book.specs.Blocks.{link_word};

use seize_words::book::Pass;
use seize_words::glimpse::Glimpse;
use seize_words::lasting::Lasting;
use seize_words::link::Expected;
use std::ops::Deref;

/// What was found in a link. It reads as its value, for as long as the guard that found it is borrowed, or the `Alone`: until then the
/// value is not reclaimed.
#[derive(Drop)]
pub struct Shared<'g, T> {
    pub(crate) value: &'g T,
    // as the link's word showed it
    pub(crate) word: u64,
    pub(crate) glimpse: Glimpse<'g>,
    // the activation in which it was found, and the list of its collector
    pub(crate) lasting: Lasting<'g>,
    ghost worded: { word ≡ link_word glimpse.value },
}

impl<'g, T> Shared<'g, T> {
    ghost use Rattle.std.specs.Prelude.{◌↔◌, ℕ, Some, true};
    ghost use Rattle.seize_machine.specs.Machine.History.{Reclaimed};
    ghost use Rattle.seize_parts.specs.Laws.{moments_seen};
    ghost use Rattle.seize_parts.specs.Makes.{MakesNone};
    ghost use Rattle.seize_guards.specs.Links.{IsSharedIn, shared_block, shared_book, shared_name, shared_value};

    /// The pass looks at the list of events. The value is not reclaimed in what it sees then, whoever found it.
    ///
    /// It makes no event, and does nothing when the program runs: its contract is the law.
    pub fn stands(&self, pass: &mut Pass)
        requires { IsSharedIn T.row.coded.code pass.old.name self.now }
        ensures none { MakesNone pass.old pass.new }
        ensures stands { (v k : ℕ) → shared_name self.now ≡ Some v → ¬ (Reclaimed (moments_seen pass.new) v k) }
    {
        self.lasting.tell(pass);
        pass.slots();
        self.lasting.lasts(pass);
    }

    /// The value, for as long as the guard that found it is borrowed, or the `Alone`. This may be gone by then.
    #[inline(always)]
    pub fn get(&self) -> &'g T
        ensures { result.now ≡ shared_value self.now }
    {
        self.value
    }

    // What an exchange expects that takes a link to hold it.
    pub(crate) fn expected(&self) -> Expected<'g>
        ensures { (result.word ≡ link_word (shared_name self.now)) × (result.lasting ≡ self.now.lasting) }
    {
        Expected {
            word: self.word,
            lasting: self.lasting.again(),
        }
    }

    /// Whether both are of one block. Both must be of one collector.
    pub fn same(&self, other: &Shared<'_, T>) -> bool
        requires { shared_book self.now ≡ shared_book other.now }
        ensures { (result ≡ true) ↔ (shared_block self.now ≡ shared_block other.now) }
    {
        self.word == other.word
    }
}

impl<T> Deref for Shared<'_, T> {
    type Target = T;

    ghost use Rattle.std.specs.Prelude.{◌≡◌};
    ghost use Rattle.seize_guards.specs.Links.{shared_value};

    ghost deref_gives = { λ shared value. value ≡ shared_value shared };

    fn deref(&self) -> &T {
        self.value
    }
}
