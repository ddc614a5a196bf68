//! What is asked of the slots of a collector, where one caller is to have it: what the list says of each that nobody has, and what was left
//! of each that a forgotten holder has. A slot that nobody has has no call and is not active, as the list says, so nothing is done with it:
//! what is in its batch stays there.
ghost use Rattle.std.specs.Prelude.{◌≡◌, ◌<◌, ℕ, None, get_or, length, true};
ghost use Rattle.seize_book.specs.Saying.{AllSay};
ghost use Rattle.seize_book.specs.Tokens.{IsSole};
ghost use Rattle.seize_calls.specs.Slots.{IsPassOf};
ghost use Rattle.seize_words.specs.Joined.{words_book};
ghost use Rattle.seize_parts.specs.Enders.{IsEnderOf};
ghost use Rattle.seize_parts.specs.Laws.{HaveContents};
ghost use Rattle.seize_parts.specs.Numbers.{AreNumbers, IsLockFor, KnowsLeast};
ghost use Rattle.seize_parts.specs.Resting.{AreLeft, ComesToRest, LiesSomewhere};

use crate::alone::place::{Place, room};
use crate::alone::shelving::found;
use crate::ender::Ender;
use crate::numbers::Numbers;
use crate::reclaim::Reclaim;
use seize_words::book::Pass;
use seize_words::words::Words;
use std::alloc::Global;

/// What was found of the slots of a collector.
#[derive(Drop)]
pub struct Found<T: Drop> {
    /// How many were made.
    pub made: usize,
    /// The places of those in use, by their numbers.
    pub places: Vec<Option<Place<T>>>,
    /// Whether each slot in use is there.
    pub all: bool,
}

impl<T: Drop> Numbers<T> {
    /// What is found of the slots. The pass sees what the list says of each, and what was left of each that is in use comes into its place.
    /// With each value that was named a content is lent. It makes no event, takes memory for places only where a number is in use, and
    /// waits for nobody.
    pub fn come_to_rest<R: Reclaim<T>>(
        &mut self,
        words: &Words<T>,
        ender: &Ender<T, R>,
        alloc: Global,
        pass: &mut Pass,
    ) -> Found<T>
        requires numbers { AreNumbers self.old × IsLockFor words.now self.old }
        requires pass { IsPassOf words.now pass.old × IsSole pass.old.id }
        requires ender { IsEnderOf words.now ender.now }
        ensures numbers { AreNumbers self.new × (self.new.book.name ≡ words_book words.now) × KnowsLeast self.new }
        ensures rests { ComesToRest pass.old pass.new result }
        ensures contents { HaveContents T.row.coded.code pass.new × AllSay pass.new.seen }
    {
        self.book.agree(&words.blocks.book);
        let found = self.rest(words, alloc, pass);
        self.least = 0;
        let permit = pass.permit_for_named();
        ender.permits.check(permit);
        found
    }

    // So it is, but that nothing is said of contents.
    fn rest(&mut self, words: &Words<T>, alloc: Global, pass: &mut Pass) -> Found<T>
        requires numbers { AreNumbers self.old × (self.old.book.name ≡ words_book words.now) }
        requires pass { IsPassOf words.now pass.old × IsSole pass.old.id }
        ensures numbers { AreNumbers self.new × (self.new.book ≡ self.old.book) }
        ensures rests { ComesToRest pass.old pass.new result }
    {
        self.key.look(pass);
        let mut places = Vec::new(alloc);
        let all = self.all_here() || self.find_all(words, &mut places, pass);
        Found {
            made: self.slots.len(),
            places,
            all,
        }
    }

    // What was left of each slot in use comes into its place. It says whether that was all there, and room for the places.
    fn find_all(
        &mut self,
        words: &Words<T>,
        places: &mut Vec<Option<Place<T>>>,
        pass: &mut Pass,
    ) -> bool
        requires numbers { AreNumbers self.old × (self.old.book.name ≡ words_book words.now) }
        requires places { (s : ℕ) → get_or places.old.items s None ≡ None }
        requires pass { IsPassOf words.now pass.old × IsSole pass.old.id }
        ensures numbers { AreNumbers self.new × (self.new.book ≡ self.old.book) × (self.new.slots ≡ self.old.slots) }
        ensures still { pass.new ≡ pass.old }
        ensures left { AreLeft pass.old places.new.items }
        ensures all { result ≡ true
            → (s : ℕ) → s < length self.old.slots.items → LiesSomewhere self.old.slots.items places.new.items s }
    {
        if room(places, self.slots.len()).is_err() {
            return false;
        }
        let mut all = true;
        for n in 0..self.slots.len() {
            if !self.find_at(words, n, places, pass) {
                all = false;
            }
        }
        all
    }

    // So does what was left of the slot in this place, if it is in use.
    fn find_at(
        &mut self,
        words: &Words<T>,
        n: usize,
        places: &mut Vec<Option<Place<T>>>,
        pass: &mut Pass,
    ) -> bool
        requires numbers { AreNumbers self.old × (self.old.book.name ≡ words_book words.now) × (n < length self.old.slots.items) }
        requires places { AreLeft pass.old places.old.items × (n < length places.old.items) }
        requires pass { IsPassOf words.now pass.old × IsSole pass.old.id }
        ensures numbers { AreNumbers self.new × (self.new.book ≡ self.old.book) × (self.new.slots ≡ self.old.slots) }
        ensures still { pass.new ≡ pass.old }
        ensures left { AreLeft pass.old places.new.items × (length places.new.items ≡ length places.old.items) }
        ensures more { (s : ℕ) → LiesSomewhere self.old.slots.items places.old.items s
            → LiesSomewhere self.old.slots.items places.new.items s }
        ensures here { result ≡ true → LiesSomewhere self.old.slots.items places.new.items n }
    {
        if self.slots[n].is_some() {
            return true;
        }
        let Ok(shelf) = self.shelves.shelf(n) else {
            return false;
        };
        let Some(place) = found(words, n, shelf, pass) else {
            return false;
        };
        places[n] = Some(place);
        true
    }
}
