//! Slots in use that nobody has, while all is reclaimed by a pass that is alone. Each attempts its batch at any length; then what slots
//! left is attempted by the slot of a free number; then the numbers go back, the last one first. A watch is told of each value that goes,
//! and what the reclaimer puts waits in a queue.
ghost use Rattle.std.specs.Prelude.{◌≡◌, ◌≢◌, ◌<◌, ℕ, List, None, Some, [], false, get_or, is_some, length, reverse, slice_set};
ghost use Rattle.std.specs.List.{position, range_with_len};
ghost use Rattle.seize_book.specs.Others.{rest_of};
ghost use Rattle.seize_book.specs.Tokens.{IsSole};
ghost use Rattle.seize_book.specs.Values.{values_of};
ghost use Rattle.seize_words.specs.Joined.{words_book};
ghost use Rattle.seize_model.specs.declared.kind.Kind.TheVariants.{Registered as registered};
ghost use Rattle.seize_model.specs.Waiting.Attempt.{attempt_if_full};
ghost use Rattle.seize_model.specs.Waiting.Calls.{is_free, with_number_in_use};
ghost use Rattle.seize_model.specs.Waiting.State.{ModelState, has_guard, model_slot};
ghost use Rattle.seize_calls.specs.Slots.{IsInactive, IsPassOf, IsSlotOf, its_batch, its_number};
ghost use Rattle.seize_calls.specs.declared.slot.Slot.{Slot as ASlot};
ghost use Rattle.seize_alone.specs.Holding.{Holds};
ghost use Rattle.seize_alone.specs.Reclaiming.{batch_in_turn, batches_in_turn, number_in_turn, numbers_in_turn, rest_in_turn};
ghost use Rattle.seize_parts.specs.Aparts.{AreKeptOf, Fits, Goes, KeepsAside, LeadsHands, MayDrain};
ghost use Rattle.seize_parts.specs.Enders.{IsEnderOf};
ghost use Rattle.seize_parts.specs.Numbers.{AreNumbers, AreSlots, KnowsLeast};
ghost use Rattle.seize_parts.specs.Sweeps.{AreOff, HaveEmptyBatches, IsLedBy, IsOff, KeepsActive, KeepsHere, KeepsIdle, KeepsOn, KeepsPlaces};

use crate::alone::apart::{flush_into, leave_into, resume_into};
use crate::alone::aside::Aside;
use crate::ender::Ender;
use crate::numbers::Numbers;
use crate::reclaim::{Reclaim, Watch};
use seize_calls::slot::Slot;
use seize_words::book::Pass;
use seize_words::words::Words;

// The slot enters, attempts its batch and leaves.
fn attempt<T: Drop, R: Reclaim<T>, W: Watch<T>>(
    words: &Words<T>,
    ender: &Ender<T, R>,
    slot: &mut Slot<T>,
    aside: &mut Aside<'_, W>,
    pass: &mut Pass,
)
    requires slot { IsSlotOf words.now slot.old × IsInactive slot.old }
    requires pass { IsPassOf words.now pass.old × IsSole pass.old.id }
    requires ender { IsEnderOf words.now ender.now }
    requires queue { MayDrain T.row.coded.code (words_book words.now) aside.old.queue }
    ensures slot { IsSlotOf words.now slot.new × IsInactive slot.new × (its_number slot.new ≡ its_number slot.old) }
    ensures led { IsLedBy (its_number slot.old) pass.old pass.new × KeepsActive pass.old pass.new × KeepsIdle pass.old pass.new }
    ensures spent { AreOff pass.old → values_of (its_batch slot.new) ≡ [] }
    ensures aside { KeepsAside aside.old aside.new × MayDrain T.row.coded.code (words_book words.now) aside.new.queue }
    ensures goes { let s = its_number slot.old in Goes T.row.coded.code R.puts W.told
        (λ st. Fits pass.old st × (is_free (model_slot st s).kind ≡ false) × (has_guard (model_slot st s) ≡ false))
        (λ st. batch_in_turn st s) pass.old pass.new (W.seen aside.old.watch.now) (W.seen aside.new.watch.now)
        aside.old.queue aside.new.queue }
{
    let mut activation = slot.activation();
    let head = slot.head(words, pass);
    slot.enter(words, head, &mut activation, pass);
    flush_into(words, ender, slot, aside, pass);
    leave_into(words, ender, slot, head, &mut activation, aside, pass);
    slot.look(words, pass);
}

impl<T: Drop> Numbers<T> {
    /// Each slot that is kept attempts its batch, in order of numbers.
    pub(super) fn attempt_all<R: Reclaim<T>, W: Watch<T>>(
        &mut self,
        words: &Words<T>,
        ender: &Ender<T, R>,
        aside: &mut Aside<'_, W>,
        pass: &mut Pass,
    )
        requires numbers { AreSlots self.old × (self.old.book.name ≡ words_book words.now) }
        requires pass { IsPassOf words.now pass.old × IsSole pass.old.id × IsEnderOf words.now ender.now }
        requires queue { MayDrain T.row.coded.code (words_book words.now) aside.old.queue }
        ensures numbers { AreSlots self.new × KeepsPlaces self.old self.new }
        ensures on { KeepsOn pass.old pass.new × KeepsActive pass.old pass.new × KeepsIdle pass.old pass.new }
        ensures spent { AreOff pass.old → HaveEmptyBatches self.new.kept.items }
        ensures aside { KeepsAside aside.old aside.new × MayDrain T.row.coded.code (words_book words.now) aside.new.queue }
        ensures goes { Goes T.row.coded.code R.puts W.told (λ st. Fits pass.old st × AreKeptOf self.old.kept.items st)
            (λ st. batches_in_turn st (range_with_len 0 (length st.slots))) pass.old pass.new
            (W.seen aside.old.watch.now) (W.seen aside.new.watch.now) aside.old.queue aside.new.queue }
    {
        for n in 0..self.kept.len() {
            self.attempt_at(words, ender, n, aside, pass);
        }
    }

    // So does the one in this place, if there is one.
    fn attempt_at<R: Reclaim<T>, W: Watch<T>>(
        &mut self,
        words: &Words<T>,
        ender: &Ender<T, R>,
        n: usize,
        aside: &mut Aside<'_, W>,
        pass: &mut Pass,
    )
        requires numbers { AreSlots self.old × (self.old.book.name ≡ words_book words.now) × (n < length self.old.kept.items) }
        requires pass { IsPassOf words.now pass.old × IsSole pass.old.id × IsEnderOf words.now ender.now }
        requires queue { MayDrain T.row.coded.code (words_book words.now) aside.old.queue }
        ensures numbers { AreSlots self.new × KeepsPlaces self.old self.new }
        ensures on { KeepsOn pass.old pass.new × KeepsActive pass.old pass.new × KeepsIdle pass.old pass.new }
        ensures places { (i : ℕ) → i ≢ n → get_or self.new.kept.items i None ≡ get_or self.old.kept.items i None }
        ensures spent { AreOff pass.old → (s : ASlot T) → get_or self.new.kept.items n None ≡ Some s → values_of (its_batch s) ≡ [] }
        ensures aside { KeepsAside aside.old aside.new × MayDrain T.row.coded.code (words_book words.now) aside.new.queue }
        ensures goes { Goes T.row.coded.code R.puts W.told (λ st. Fits pass.old st × AreKeptOf self.old.kept.items st)
            (λ st. batch_in_turn st n) pass.old pass.new
            (W.seen aside.old.watch.now) (W.seen aside.new.watch.now) aside.old.queue aside.new.queue }
    {
        if let Some(slot) = self.kept[n].take() {
            let mut slot = slot;
            attempt(words, ender, &mut slot, aside, pass);
            self.kept[n] = Some(slot);
        }
    }

    /// What slots left, if that is something, is attempted by the slot of the least free number, which is kept then. There is one, since
    /// while all numbers are in use nothing is left.
    pub(super) fn attempt_rest<R: Reclaim<T>, W: Watch<T>>(
        &mut self,
        words: &Words<T>,
        ender: &Ender<T, R>,
        aside: &mut Aside<'_, W>,
        pass: &mut Pass,
    )
        requires numbers { AreSlots self.old × (self.old.book.name ≡ words_book words.now) × KnowsLeast self.old }
        requires pass { IsPassOf words.now pass.old × IsSole pass.old.id × IsEnderOf words.now ender.now }
        requires queue { MayDrain T.row.coded.code (words_book words.now) aside.old.queue }
        ensures numbers { AreSlots self.new × KeepsHere self.old self.new × (rest_of self.new.key ≡ []) }
        ensures on { KeepsOn pass.old pass.new × KeepsActive pass.old pass.new × KeepsIdle pass.old pass.new }
        ensures spent { AreOff pass.old → HaveEmptyBatches self.old.kept.items → HaveEmptyBatches self.new.kept.items }
        ensures aside { KeepsAside aside.old aside.new × MayDrain T.row.coded.code (words_book words.now) aside.new.queue }
        ensures goes { Goes T.row.coded.code R.puts W.told (λ st. Fits pass.old st × AreKeptOf self.old.kept.items st)
            (λ st. rest_in_turn st) pass.old pass.new (W.seen aside.old.watch.now) (W.seen aside.new.watch.now)
            aside.old.queue aside.new.queue }
        ensures kept { (st : ModelState T ℕ) (names : List (ℕ × T)) (kinds : List (ℕ × ℕ)) → AreKeptOf self.old.kept.items st
            → Holds T.row.coded.code st names kinds pass.old.name pass.old.seen
            → AreKeptOf self.new.kept.items (rest_in_turn st).0 × (length (rest_in_turn st).0.slots ≡ length st.slots) }
    {
        self.key.look(pass);
        if self.rest.is_empty() {
            return;
        }
        let Some(n) = self.first() else {
            unreachable!()
        };
        let mut slot = self.take_rest(words, ender, n, aside, pass);
        attempt(words, ender, &mut slot, aside, pass);
        self.kept[n] = Some(slot);
    }

    // The slot of number n, which is the least one that is not in use, takes its number, and what slots left is its batch then. Where that
    // has the batch size, it is attempted.
    fn take_rest<R: Reclaim<T>, W: Watch<T>>(
        &mut self,
        words: &Words<T>,
        ender: &Ender<T, R>,
        n: usize,
        aside: &mut Aside<'_, W>,
        pass: &mut Pass,
    ) -> Slot<T>
        requires numbers { AreSlots self.old × (self.old.book.name ≡ words_book words.now)
            × (position is_some self.old.slots.items ≡ Some n) }
        requires pass { IsPassOf words.now pass.old × IsSole pass.old.id × IsEnderOf words.now ender.now }
        requires queue { MayDrain T.row.coded.code (words_book words.now) aside.old.queue }
        ensures numbers { AreSlots self.new × (self.new.book ≡ self.old.book) × (rest_of self.new.key ≡ []) }
        ensures places { (self.new.slots.items ≡ slice_set self.old.slots.items n None) × (self.new.kept ≡ self.old.kept) }
        ensures slot { IsSlotOf words.now result × IsInactive result × (its_number result ≡ n) }
        ensures on { KeepsOn pass.old pass.new × KeepsActive pass.old pass.new × KeepsIdle pass.old pass.new }
        ensures aside { KeepsAside aside.old aside.new × MayDrain T.row.coded.code (words_book words.now) aside.new.queue }
        ensures goes { Goes T.row.coded.code R.puts W.told (Fits pass.old) (λ st. attempt_if_full (with_number_in_use st n registered) n)
            pass.old pass.new (W.seen aside.old.watch.now) (W.seen aside.new.watch.now) aside.old.queue aside.new.queue }
    {
        let (mut slot, begun) = self.again(words, n, pass);
        if begun {
            resume_into(words, ender, &mut slot, aside, pass);
            slot.look(words, pass);
            return slot;
        }
        slot.look(words, pass);
        slot
    }

    /// The numbers of the slots that are kept go back, the last one first.
    pub(super) fn give_all(&mut self, words: &Words<T>, pass: &mut Pass)
        requires numbers { AreSlots self.old × (self.old.book.name ≡ words_book words.now) }
        requires pass { IsPassOf words.now pass.old × IsSole pass.old.id }
        requires spent { (AreOff pass.old → HaveEmptyBatches self.old.kept.items) × (rest_of self.old.key ≡ []) }
        ensures numbers { AreNumbers self.new × KeepsHere self.old self.new }
        ensures on { KeepsOn pass.old pass.new × KeepsActive pass.old pass.new × KeepsIdle pass.old pass.new }
        ensures rest { AreOff pass.old → rest_of self.new.key ≡ [] }
        ensures gives { LeadsHands T.row.coded.code (λ st. AreKeptOf self.old.kept.items st)
            (λ st. numbers_in_turn st (reverse (range_with_len 0 (length st.slots)))) pass.old pass.new }
    {
        let many = self.kept.len();
        for given in 0..many {
            self.give_at(words, many - 1 - given, pass);
        }
    }

    // The number of the slot in this place, if one is kept there, goes back.
    fn give_at(&mut self, words: &Words<T>, n: usize, pass: &mut Pass)
        requires numbers { AreSlots self.old × (self.old.book.name ≡ words_book words.now) × (n < length self.old.kept.items) }
        requires pass { IsPassOf words.now pass.old × IsSole pass.old.id }
        requires spent { AreOff pass.old → HaveEmptyBatches self.old.kept.items × (rest_of self.old.key ≡ []) }
        ensures numbers { AreSlots self.new × KeepsHere self.old self.new × (self.new.kept.items ≡ slice_set self.old.kept.items n None) }
        ensures on { KeepsOn pass.old pass.new × KeepsActive pass.old pass.new × KeepsIdle pass.old pass.new }
        ensures rest { AreOff pass.old → rest_of self.new.key ≡ [] }
        ensures gives { LeadsHands T.row.coded.code (λ st. AreKeptOf self.old.kept.items st) (λ st. number_in_turn st n) pass.old pass.new }
    {
        self.key.look(pass);
        if let Some(slot) = self.kept[n].take() {
            let mut slot = slot;
            slot.look(words, pass);
            self.give(words, slot, pass);
            self.key.look(pass);
        }
    }
}
