//! Links: what holders of activations read and exchange. A link's word names the block of the value that the link holds, and the value's
//! key stands beside it: whoever takes the value out gets the key. Threads share links, or they stand still, in one caller's hands. It uses
//! words, activations and the book's keys.
ghost use Rattle.std.specs.Prelude.{◌≡◌, ℕ, None, Option, true};
ghost use Rattle.seize_book.specs.Blocks.{link_word};
ghost use Rattle.seize_words.specs.Links.{IsLink, is_at_most_one};

mod row;
mod still;
mod word;

use crate::activation::Activation;
use crate::glimpse::Glimpse;
use crate::lasting::Lasting;
use crate::link::word::LinkWord;
pub use row::Links;
use seize_book::book::{Keys, LinkKeys, Pass, Permit, ValueKey};
use seize_store::RowToken;
use std::marker::Brand;

/// One link, which threads share, or which stands still.
///
/// Its word is 0 where it holds nothing, and else 1 and the number of the block that its value lies in.
#[derive(Drop)]
pub struct Link {
    word: LinkWord,
    ghost link: { IsLink word },
}

/// The key of a value that goes into a link or came out of one, or none.
#[derive(Drop)]
pub struct MaybeKey {
    pub(crate) keys: Keys,
    ghost value: { is_at_most_one keys.held ≡ true },
}

impl MaybeKey {
    ghost use Rattle.seize_words.specs.LinkWords.{IsKeyIn, IsNone};

    /// None.
    pub fn none(pass: &mut Pass) -> MaybeKey
        ensures { IsNone result pass.old × (pass.new ≡ pass.old) }
    {
        MaybeKey {
            keys: Keys::empty(pass),
        }
    }

    /// The key of this value.
    pub fn some(value: ValueKey) -> MaybeKey
        ensures { IsKeyIn value result }
    {
        MaybeKey { keys: value.keys }
    }
}

impl MaybeKey {
    ghost use Rattle.seize_words.specs.LinkWords.{IsKeyIn, IsSomeKey};

    /// The key of the value, where it is one.
    pub fn value(self) -> ValueKey
        requires { IsSomeKey self }
        ensures { IsKeyIn result self }
    {
        ValueKey { keys: self.keys }
    }
}

/// What the caller of an exchange takes the link to hold.
#[derive(Drop)]
pub struct Expected<'g> {
    /// Its word: 0 for nothing.
    pub word: u64,
    /// If it is a value, that was found in this activation; else it is any one.
    pub lasting: Lasting<'g>,
}

/// Which value, or none, the caller of an exchange takes the link to hold. It is not there in the program: the caller passes `Brand`, and
/// its proof picks one of the word that was seen; where none is picked it is none.
pub trait Expects {
    ghost current: { Option ℕ };
}

impl Expects for Brand {
    ghost current = { None };
}

impl Link {
    ghost use Rattle.std.specs.Prelude.{IfSome, is_some};
    ghost use Rattle.seize_book.specs.Homesteads.{state_seen};
    ghost use Rattle.seize_book.specs.Tokens.{IsSole};
    ghost use Rattle.seize_machine.specs.Machine.State.{link_at};
    ghost use Rattle.seize_words.specs.LinkWords.{CompareExchanges, HasNextLink, IsLinkFor, IsNext, IsNewFor, IsPermittedExchange, IsPermittedSwap, Sees, Swaps, WasFoundIn, link_book, link_number};
    ghost use Rattle.seize_words.specs.Stands.{IsSameLink, IsSharedLink, LeadsToBlock, Stands};

    /// The first of the links that were not made yet. It is empty.
    pub fn next(left: &mut LinkKeys) -> Link
        requires { HasNextLink left.old }
        ensures next { IsNext left.old result left.new }
        ensures shared { IsSharedLink result }
    {
        let mut rest = left.keys.none();
        left.keys.part(&mut rest);
        let word = LinkWord::new(0, &mut left.keys);
        left.keys.join(&mut rest);
        Link { word }
    }

    /// Reads the link: the event `ReadLink` of the activation's slot. It gives the link's word, and a glimpse of what the link holds, which
    /// lasts as long as the activation is borrowed: what is lent with the value there can be seen for that long.
    ///
    /// It takes no memory and waits for nobody: one atomic load.
    pub fn see<'g>(&self, activation: &'g Activation, pass: &mut Pass) -> (u64, Glimpse<'g>)
        requires shared { IsSharedLink self.now }
        requires within { IsLinkFor self.now activation.now pass.old }
        ensures sees { Sees self.now activation.now pass.old pass.new result.0 result.1 }
    {
        let mut keys = Keys::empty(pass);
        self.word
            .shared()
            .see_in::<Brand>(&mut keys, activation, pass)
    }

    /// Puts a value that was never named into the link, or none: the event `ExchangeLink` of the activation's slot. All values that lay in
    /// its block before were reclaimed, and something is lent with it. It gives the word of what the link held, and the key of that, in
    /// place of the value's.
    ///
    /// It takes no memory and waits for nobody: one atomic swap.
    pub fn swap(
        &self,
        new: u64,
        value: &mut MaybeKey,
        activation: &Activation,
        pass: &mut Pass,
        permit: &Permit,
    ) -> u64
        requires shared { IsSharedLink self.now }
        requires within { IsLinkFor self.now activation.now pass.old }
        requires new { IsNewFor self.now value.old new }
        requires rule { IsPermittedSwap (link_number self.now) value.old pass.old permit.now }
        ensures swaps { Swaps self.now activation.now value.old pass.old value.new pass.new result }
    {
        self.word
            .shared()
            .swap_in::<Brand>(new, &mut value.keys, activation, pass, permit)
    }

    /// The same, but only if the link holds what it is expected to hold (`E`): nothing, or what was found in an activation that lasts. It
    /// gives the word of what the link held. If that was something else, the value's key comes back, and the glimpse is of what the link
    /// holds, for as long as the activation is borrowed; else it is of nothing.
    ///
    /// Words decide, and they tell blocks. What was found stands while the activation lasts, so no other value of its block is there.
    ///
    /// It takes no memory and waits for nobody: one atomic compare and exchange.
    pub fn compare_exchange<'g, E: Expects>(
        &self,
        expected: &Expected<'_>,
        new: u64,
        value: &mut MaybeKey,
        activation: &'g Activation,
        pass: &mut Pass,
        permit: &Permit,
    ) -> (u64, Glimpse<'g>)
        requires shared { IsSharedLink self.now }
        requires within { IsLinkFor self.now activation.now pass.old }
        requires new { IsNewFor self.now value.old new }
        requires seen { expected.now.word ≡ link_word E.current }
        requires found { WasFoundIn expected.now.lasting E.current pass.old }
        requires rule { IsPermittedExchange (link_number self.now) value.old pass.old E.current permit.now }
        ensures exchanges { CompareExchanges self.now activation.now value.old pass.old E.current value.new pass.new result.0 result.1 }
    {
        let word = self.word.shared();
        word.exchange_in::<Brand>(
            expected.word,
            new,
            &mut value.keys,
            activation,
            pass,
            permit,
            &expected.lasting,
        )
    }

    /// It stands still from then on, and holds what the pass has seen, which is alone. It does nothing when the program runs.
    pub(crate) fn rest(&mut self, pass: &mut Pass)
        requires shared { IsSharedLink self.old }
        requires alone { (link_book self.old ≡ pass.old.name) × IsSole pass.old.id }
        ensures pass { pass.new ≡ pass.old }
        ensures stands { Stands self.new (link_at (state_seen pass.old) (link_number self.old)) × IsSameLink self.old self.new }
    {
        self.word.rest();
        self.word.look(pass);
    }

    /// Threads may share it again. It does nothing when the program runs.
    pub(crate) fn stir(&mut self)
        requires stands { (held : Option ℕ) × Stands self.old held }
        ensures shared { IsSharedLink self.new × IsSameLink self.old self.new }
    {
        self.word.stir();
    }

    /// Where it stands still, its word, what shows the row in which its value lies, and a glimpse of what it holds, if it holds something,
    /// for as long as it is borrowed. It makes no event.
    pub(crate) fn peek(&self) -> Option<(u64, RowToken, Glimpse<'_>)>
        requires stands { (held : Option ℕ) × Stands self.now held }
        ensures held { (held : Option ℕ) → Stands self.now held → is_some result ≡ is_some held
            × IfSome result (λ found. LeadsToBlock (link_book self.now) held found.0 found.1 found.2) }
    {
        let still = self.word.still();
        let word = still.word();
        if word == 0 {
            return None;
        }
        Some((word, still.row(), still.glimpse()))
    }
}
