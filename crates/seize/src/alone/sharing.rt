//! From a collector that threads share to one in one caller's hands, and back.
ghost use Rattle.std.specs.Prelude.{◌≡◌, ℕ, IfErr, IfOk, None, Some, box_value, get_or, length};
ghost use Rattle.seize.specs.Collectors.{its_book, its_id, its_most, its_size, seen_by};
ghost use Rattle.seize_book.specs.Tokens.{IsSole};
ghost use Rattle.seize_calls.specs.Slots.{IsPassOf};
ghost use Rattle.seize.specs.Alones.{AreNumbersFor};
ghost use Rattle.seize_words.specs.Joined.{words_book};
ghost use Rattle.seize_words.specs.Rows.{AreShared};
ghost use Rattle.seize_parts.specs.Enders.{IsEnderOf};
ghost use Rattle.seize_parts.specs.Placing.{MayLay};
ghost use Rattle.seize_parts.specs.declared.alone.place.Place.{Place};

use crate::alone::Alone;
use crate::alone::hands::Hands;
use crate::collector::Collector;
use seize_cells::Lock;
use seize_guards::parts::Parts;
use seize_parts::alone::place::Place;
use seize_parts::alone::shelving::lay_all;
use seize_parts::ender::Ender;
use seize_parts::numbers::Numbers;
use seize_parts::numbers::resting::Found;
use seize_parts::reclaim::Reclaim;
use seize_words::book::{Pass, Porter};
use seize_words::words::Words;
use std::alloc::Global;
use std::marker::Brand;

impl<T: Drop, R: Reclaim<T>> Collector<T, R> {
    ghost use Rattle.seize_book.specs.Porters.{GoesOnTo};
    ghost use Rattle.seize.specs.Collectors.{its_links, its_words};
    ghost use Rattle.seize.specs.Reclaims.{AddsNothing, FindsInUse};

    /// Gives the collector to one caller. It goes by value, so passes, guards and registrations are over. Where these were forgotten, by
    /// their calls of `forget`, their slots stay as they were: a number stays in use, by an owned slot where an owned guard had it, and a
    /// slot that was left active has as many guards as were forgotten. So what waits for such a slot waits on, until it leaves.
    ///
    /// The state is what the list of events says where it ends (`laws` of the `Alone`), as to slots in use, active slots, batches and
    /// links; how many guards a slot has, and which slot is owned, no clause says. It asks for memory, for places, only where a number is
    /// in use, and waits for nobody. It makes no event.
    ///
    /// # Errors
    ///
    /// The collector comes back where a number is in use, and its holder or a guard of its slot is lost: `mem::forget` took it. So it does
    /// where a number is in use, and memory is refused. What had been forgotten stays so.
    pub fn alone(self) -> Result<Alone<T, R>, Collector<T, R>>
        ensures made { IfOk result (λ alone. (alone.book ≡ its_book self) × (alone.size ≡ its_size self) × (alone.id ≡ its_id self)
            × (alone.links ≡ its_links (its_words self)) × (alone.state.size ≡ alone.size) × (length alone.state.links ≡ alone.links)
            × GoesOnTo alone.book (seen_by self) alone.seen × AddsNothing self alone.seen × (alone.most ≡ its_most self)) }
        ensures back { IfErr result (FindsInUse self) }
    {
        let (mut words, mut pass, mut numbers, ender, alloc) = self.into_parts();
        let found = numbers.come_to_rest(&words, &ender, alloc, &mut pass);
        let Found { made, places, all } = found;
        if !all {
            return Err(shared(words, pass, numbers, places, ender, alloc));
        }
        let hands = Hands::first::<Brand, Vec<Option<Place<T>>>>(&pass, &places);
        words.links.rest(&mut pass);
        Ok(Alone {
            words,
            pass,
            numbers,
            places,
            made,
            ender,
            alloc,
            hands,
        })
    }
}

/// The collector of these parts, for threads to share. What lies in the places stays in use, as if its holder had been forgotten.
pub(super) fn shared<T: Drop, R: Reclaim<T>>(
    words: Words<T>,
    pass: Pass<'static>,
    numbers: Numbers<T>,
    places: Vec<Option<Place<T>>>,
    ender: Box<Ender<T, R>>,
    alloc: Global,
) -> Collector<T, R>
    requires pass { IsPassOf words pass × IsSole pass.id }
    requires numbers { AreNumbersFor words numbers }
    requires ender { IsEnderOf words (box_value ender) }
    requires shared { AreShared words.links }
    requires places { (s : ℕ) (place : Place T) → get_or places.items s None ≡ Some place → MayLay (words_book words) place }
    ensures same { (its_book result ≡ words_book words) × (its_size result ≡ words.size) × (its_id result ≡ words.id)
        × (seen_by result ≡ pass.entry.seen) × (its_most result ≡ words.sizes.most) }
{
    let mut porter = Porter::again(pass);
    let mut places = places;
    porter.leave_home();
    lay_all(&words, &mut places, &porter);
    let parts = Parts {
        words,
        numbers: Lock::new(numbers),
        ender,
    };
    Collector {
        parts,
        porter,
        alloc,
    }
}

impl<T: Drop, R: Reclaim<T>> Alone<T, R> {
    ghost use Rattle.seize.specs.Collectors.{its_links, its_words};

    /// Gives the collector to threads. What is in use stays so, as if its holder had been forgotten: `Collector::alone` takes it over
    /// again, and `Collector::reclaim_all` or the drop ends it. What threads retire may wait for it, so leave slots first, or call
    /// `reclaim_all`. Retire each `Taken` before: no call of a shared collector takes one, and its value never ends.
    ///
    /// It takes no memory, makes no event and waits for nobody.
    pub fn share(self) -> Collector<T, R>
        ensures same { (its_book result ≡ self.book) × (its_size result ≡ self.size) × (its_id result ≡ self.id)
            × (its_links (its_words result) ≡ self.links) × (seen_by result ≡ self.seen) × (its_most result ≡ self.most) }
    {
        let Alone {
            mut words,
            pass,
            numbers,
            places,
            made: _,
            ender,
            alloc,
            hands: _,
        } = self;
        words.links.stir();
        shared(words, pass, numbers, places, ender, alloc)
    }
}
