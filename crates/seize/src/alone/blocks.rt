//! Blocks and links of a collector in one caller's hands: each call on a link is exactly what the model says.
ghost use Rattle.std.specs.Prelude.{◌≡◌, IfErr, IfOk, None, Some, get_or, is_some, true};
ghost use Rattle.seize_table.specs.declared.refusal.Refusal.TheVariants.{NoMemory as no_memory};
ghost use Rattle.seize_parts.specs.Blocks.{content, owned_store};
ghost use Rattle.seize_parts.specs.Placing.{held_in};

use crate::alone::hands::Hands;
use crate::alone::links::exchange_at;
use crate::alone::{Alone, Codes};
use crate::block::{Owned, Shared, Taken};
use seize_guards::block::{add_block, show};
use seize_parts::alone::place::{Place, Unit};
use seize_parts::reclaim::Reclaim;
use seize_table::Refusal;
use seize_words::lasting::Lasting;
use std::marker::Brand;

// The unit of the activation of the slot in this place, which has guards.
fn unit_at<T: Drop>(places: &Vec<Option<Place<T>>>, s: usize) -> &Unit
    requires { is_some (held_in (get_or places.now.items s None)) ≡ true }
    ensures { held_in (get_or places.now.items s None) ≡ Some result.now }
{
    let Some(
        Place {
            unit: Some(unit),
            ..
        },
    ) = &places[s]
    else {
        unreachable!()
    };
    unit
}

impl<T: Drop, R: Reclaim<T>> Alone<T, R> {
    ghost use Rattle.std.specs.Prelude.{◌<◌, IfSome, option_map};
    ghost use Rattle.seize_model.specs.Waiting.Calls as calls;
    ghost use Rattle.seize.specs.Alones.{IsSame, ListGrows, name_at};
    ghost use Rattle.seize_parts.specs.Blocks.{Belongs};
    ghost use Rattle.seize_guards.specs.Links.{found_name, shared_book, shared_value};
    ghost use Rattle.seize.specs.Takens.{IsTakenOf, taken_content};
    ghost use Rattle.seize.specs.Looks.{with_link};

    /// A block of this value. It asks for memory only where the store has no free place.
    ///
    /// # Errors
    ///
    /// `NoMemory` where that growth was refused; the value comes back.
    pub fn owned(&mut self, value: T) -> Result<Owned<T>, (Refusal, T)>
        ensures made { IfOk result (λ owned. (owned_store owned ≡ self.old.book.store) × (content owned ≡ value)) }
        ensures refused { IfErr result (λ refused. (refused.0 ≡ no_memory) × (refused.1 ≡ value)) }
        ensures same { self.new ≡ self.old }
    {
        add_block(&self.words, value)
    }

    /// A block that was never in a link, ready to be retired. The block is of this collector, with each block inside it that the
    /// reclaimer's `owners` names. No event is made, and it takes no memory.
    pub fn taken(&self, owned: Owned<T>) -> Taken<T>
        requires { Belongs R.owners self.now.book.store owned }
        ensures of { IsTakenOf T.row.coded.code self.now.book result }
        ensures content { taken_content result ≡ content owned }
    {
        Taken::from_owned(owned, &self.words, &self.ender)
    }

    /// The value of what is in no link, of this collector, for as long as both are borrowed. It takes no memory.
    pub fn peek<'g>(&'g self, taken: &'g Taken<T>) -> &'g T
        requires { IsTakenOf T.row.coded.code self.now.book taken.now }
        ensures { result.now ≡ taken_content taken.now }
    {
        taken.peek(&self.words)
    }

    // The link holds this block then, or none. It gives what that held. The slot has a guard.
    fn exchange(&mut self, s: usize, link: usize, new: Option<Owned<T>>) -> Option<Taken<T>>
        requires guard { calls.no_guard self.old.state s ≡ None }
        requires range { link < self.old.links }
        requires own { IfSome new (Belongs R.owners self.old.book.store) }
        ensures held { option_map taken_content result ≡ calls.model_link self.old.state link }
        ensures own { IfSome result (IsTakenOf T.row.coded.code self.old.book) }
        ensures state { self.new.state ≡ with_link self.old.state link (option_map content new) }
        ensures holds { calls.model_link self.new.state link ≡ option_map content new }
        ensures same { IsSame self.old self.new }
        ensures grows { ListGrows self.old self.new }
    {
        let old = exchange_at(
            &mut self.words,
            &self.ender,
            unit_at(&self.places, s),
            link,
            new,
            &mut self.pass,
        );
        let old = Taken::out(old);
        self.hands = Hands::of::<Brand, usize>(&self.hands, &self.pass, &link);
        old
    }

    /// Exchanges what a link holds for this block, or for none. It gives what the link held, which is to be retired. The link is below
    /// `links()`; the block is of this collector, with each block inside it that the reclaimer's `owners` names. It takes no memory.
    ///
    /// # Errors
    ///
    /// In this order: `NotInUse`, `NotActive` where the slot has no guard. The block comes back.
    pub fn swap(
        &mut self,
        s: usize,
        link: usize,
        new: Option<Owned<T>>,
    ) -> Result<Option<Taken<T>>, (Refusal, Option<Owned<T>>)>
        requires range { link < self.old.links }
        requires own { IfSome new (Belongs R.owners self.old.book.store) }
        ensures done { IfOk result (λ old. (calls.no_guard self.old.state s ≡ None)
            × (option_map taken_content old ≡ calls.model_link self.old.state link)) }
        ensures refused { IfErr result (λ refused. (calls.no_guard self.old.state s ≡ Some refused.0) × (refused.1 ≡ new)
            × (self.new ≡ self.old)) }
        ensures own { IfOk result (λ old. IfSome old (IsTakenOf T.row.coded.code self.old.book)) }
        ensures state { self.new.state ≡ (calls.swap self.old.state s link (option_map content new)).1.0 }
        ensures holds { IfOk result (λ _. calls.model_link self.new.state link ≡ option_map content new) }
        ensures same { IsSame self.old self.new }
        ensures grows { ListGrows self.old self.new }
    {
        if let Err(refusal) = self.guarded(s) {
            return Err((refusal, new));
        }
        Ok(self.exchange(s, link, new))
    }

    /// What a link holds, which reads as its value for as long as this is borrowed. Any number of them stand at once. The link is below
    /// `links()`.
    ///
    /// It makes no event and takes no memory: one load of the link, and where that holds a block three more to find it.
    ///
    /// # Errors
    ///
    /// In this order: `NotInUse`, `NotActive` where the slot has no guard.
    pub fn protect(&self, s: usize, link: usize) -> Result<Option<Shared<'_, T>>, Refusal>
        requires range { link < self.now.links }
        ensures done { IfOk result (λ shared. (calls.no_guard self.now.state s ≡ None)
            × (option_map shared_value shared ≡ calls.model_link self.now.state link)) }
        ensures own { IfOk result (λ shared. IfSome shared (λ shared. shared_book shared ≡ self.now.book)) }
        ensures which { IfOk result (λ shared. found_name shared ≡ name_at self.now link) }
        ensures refused { IfErr result (λ refusal. calls.no_guard self.now.state s ≡ Some refusal) }
    {
        self.guarded(s)?;
        let Some((word, found)) = self.words.peek_link(link) else {
            return Ok(None);
        };
        let mut glimpse = found.glimpse;
        let lasting = Lasting::of_sight(glimpse.again().sight(), &self.words.blocks.book);
        Ok(Some(show(found.value, word, glimpse, lasting)))
    }
}
