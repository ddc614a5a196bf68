//! The key of a slot, and the events that its holder makes of the slot itself. It is `Keys` with one key; they are added with a pass.
ghost use Rattle.std.specs.Prelude.{◌≡◌, [], ◌∷◌, ◌++◌, get_or, length, true, false, slice_set, IfSome, None, Some, is_some};
ghost use mathlib.Core.List.{IsPrefix};
ghost use Rattle.seize_machine.specs.Machine.Next.{gathered_slot, taken_slot};
ghost use Rattle.seize_machine.specs.Machine.State.{is_idle, no_slot};
ghost use Rattle.seize_machine.specs.Machine.Event.{Begin, Detach, Give, Hand, Put, Return, Take};
ghost use Rattle.seize_machine.specs.declared.machine.event.Job.TheVariants.{Flush, Gather, Leave, Refresh, Retire};
ghost use Rattle.seize_book.specs.Private.{IsOver, is_one, puts_next};
ghost use Rattle.seize_book.specs.Book.{slots};

use crate::book::keys::{Keys, Picks};
use crate::book::numbers_key::NumbersKey;
use crate::book::pass::Pass;
use crate::book::value_key::ValueKey;
use crate::book::value_keys::ValueKeys;
use seize_table::tls::FilledAt;
use std::marker::Brand;

/// The right to the events of one slot, but for those on links, which whoever has a guard of the slot may make, and to its uses of fields.
/// It knows the slot's record, whether the slot is active, and what was last stored in the fields of the block that its call is about to
/// insert, whatever others add.
///
/// Where it is dropped, its slot stays as it is for good: active if it is active, and with its batch.
#[derive(Drop)]
pub struct SlotKey {
    /// The right by itself, for crates with words.
    pub keys: Keys,
    ghost one: { is_one slots keys.held ≡ true },
}

impl SlotKey {
    ghost use Rattle.seize_book.specs.Adding.{deed_with_words};
    ghost use Rattle.seize_book.specs.Batches.{CanDetach, Detaches};
    ghost use Rattle.seize_book.specs.Kept.{kepts_of};
    ghost use Rattle.seize_book.specs.Values.{AreLast, AreOfBook, AreNew, AreSpent, FollowsValues, values_of};
    ghost use Rattle.seize_book.specs.Others.{AreNumbersOf, CannotRetire, Follows, FollowsNumbers, FollowsValue, IsLast, IsOfBook, IsValueOf, IsWith, Knew, MayGather, MayGive, MayRetire, MayTakeNumber, SameKind, numbers_saw, rest_of, use_flags, value_of};
    ghost use Rattle.seize_book.specs.Private.{IsOpen, IsPrivate};
    ghost use Rattle.seize_book.specs.Slots.{HandsOnce, LooksWithSlotKey, AddsEvent, AddsDeed, IsKeyOfBook, active_of, hands_next, slot_number, slot_of, start_of};
    ghost use Rattle.seize_book.specs.Tables.{IsLike, IsPlaced};
    ghost use Rattle.seize_book.specs.Tokens.{label_at};
    ghost use Rattle.seize_machine.specs.Machine.Frames.{changes_slot};

    // Any event that changes nothing but the slot's own record.
    fn add<P: Picks>(&mut self, pass: &mut Pass)
        requires book { IsKeyOfBook self.old pass.old }
        requires private { IsPrivate (slot_number self.old) P.event }
        requires open { IsOpen (slot_of self.old) (active_of self.old) (slot_number self.old) pass.old.size P.event }
        ensures noted { AddsDeed self.old pass.old self.new pass.new (deed_with_words pass.old P.event P.kepts) }
    {
        self.keys.add::<P>(pass);
    }

    // An event that changes what other keys know too. The word is there for the caller's proof, which picks the event by it.
    fn add_with<P: Picks>(&mut self, other: &mut Keys, _kept: u64, pass: &mut Pass)
        requires book { IsKeyOfBook self.old pass.old × IsOfBook other.old pass.old }
        requires may { IsWith self.old other.old pass.old (deed_with_words pass.old P.event P.kepts) }
        requires own { changes_slot (slot_number self.old) P.event ≡ true }
        ensures noted { AddsDeed self.old pass.old self.new pass.new (deed_with_words pass.old P.event P.kepts) }
        ensures other { Follows other.old pass.new other.new × SameKind other.old other.new }
        ensures knew { Knew self.old other.old pass.old pass.new (deed_with_words pass.old P.event P.kepts) }
    {
        let both = &mut self.keys;
        both.join(other);
        both.add::<P>(pass);
        both.part(other);
    }

    /// Looks at the list with no event: what the pass has seen is legal then, with all that the key knew, and the slot is in it as its key
    /// knows it.
    pub fn look(&mut self, pass: &mut Pass)
        requires book { IsKeyOfBook self.old pass.old }
        ensures looked { LooksWithSlotKey self.old pass.old self.new pass.new }
    {
        self.keys.look(pass);
    }

    /// The slot's head lies in the table of its book, in the entry with the slot's number, as the token shows: what is there has the slot's
    /// label. The key of a slot that comes next says so until the slot is there.
    pub fn place(&mut self, token: &FilledAt)
        requires table { self.old.keys.name.table ≡ token.now.table }
        requires entry { token.now.number ≡ slot_number self.old }
        requires head { token.now.label ≡ label_at self.old.keys.name (slot_number self.old) }
        ensures { IsLike self.old self.new × IsPlaced self.new }
    {
        self.keys.place(token);
    }

    /// The event `Begin` of the retirement of a value, which came out of a link, or was never named. In the second case something is lent
    /// with it. Its key knows then that no call may begin to retire it, and that all others that lay in its block were reclaimed.
    ///
    /// The list says from then on that this word is kept of it, by which its reclaimer is found. It says so and no more: who adds the
    /// value's key to a count has to have noted the same word of its block before (`Count::add`).
    pub fn begin_retire(&mut self, value: &mut ValueKey, kept: u64, pass: &mut Pass)
        requires book { IsKeyOfBook self.old pass.old × IsValueOf value.old pass.old }
        requires idle { is_idle (slot_of self.old) ≡ true }
        requires value { MayRetire value.old }
        ensures noted { let begins = Begin (slot_number self.old) (Retire (value_of value.old)) in
            AddsDeed self.old pass.old self.new pass.new (deed_with_words pass.old begins (kept ∷ [])) }
        ensures value { FollowsValue value.old pass.new value.new }
        ensures spent { CannotRetire value.new }
        ensures last { IsLast value.new }
    {
        self.add_with::<Brand>(&mut value.keys, kept, pass);
    }

    /// The event `Give`: the slot's number goes back, and what is in its batch is left for whoever takes a number next. Another slot is
    /// in use, or nothing is left.
    pub fn give(&mut self, numbers: &mut NumbersKey, pass: &mut Pass)
        requires book { IsKeyOfBook self.old pass.old × AreNumbersOf numbers.old pass.old }
        requires idle { (is_idle (slot_of self.old) ≡ true) × (active_of self.old ≡ false) }
        requires may { MayGive numbers.old self.old }
        ensures noted { AddsEvent self.old pass.old self.new pass.new (Give (slot_number self.old)) × (slot_of self.new ≡ no_slot) }
        ensures numbers { FollowsNumbers numbers.old pass.new numbers.new × IsPrefix (numbers_saw numbers.old) pass.new.seen }
        ensures was { get_or (use_flags numbers.old) (slot_number self.old) false ≡ true }
        ensures used { use_flags numbers.new ≡ slice_set (use_flags numbers.old) (slot_number self.old) false }
        ensures rest { rest_of numbers.new ≡ rest_of numbers.old ++ (slot_of self.old).batch }
    {
        self.add_with::<Brand>(&mut numbers.keys, 0, pass);
    }

    /// The event `Take` of a number that was in use before: the slot, which is there, is in use again, and what slots left is its batch.
    /// Where that has as many values as the batch size says, a call is under way, which attempts it.
    pub fn take_again(&mut self, numbers: &mut NumbersKey, pass: &mut Pass)
        requires book { IsKeyOfBook self.old pass.old × AreNumbersOf numbers.old pass.old }
        requires least { MayTakeNumber numbers.old self.old }
        ensures noted { AddsEvent self.old pass.old self.new pass.new (Take (slot_number self.old)) }
        ensures slot { slot_of self.new ≡ taken_slot pass.old.size (length (use_flags numbers.old)) (rest_of numbers.old) }
        ensures numbers { FollowsNumbers numbers.old pass.new numbers.new × IsPrefix (numbers_saw numbers.old) pass.new.seen }
        ensures rest { rest_of numbers.new ≡ [] }
        ensures used { use_flags numbers.new ≡ slice_set (use_flags numbers.old) (slot_number self.old) true }
    {
        self.add_with::<Brand>(&mut numbers.keys, 0, pass);
    }

    /// The event `Begin` of a gathering: what slots left comes before the slot's batch, and is attempted with it. No other slot is in use,
    /// and there is something to attempt.
    pub fn begin_gather(&mut self, numbers: &mut NumbersKey, pass: &mut Pass)
        requires book { IsKeyOfBook self.old pass.old × AreNumbersOf numbers.old pass.old }
        requires idle { (is_idle (slot_of self.old) ≡ true) × (active_of self.old ≡ false) }
        requires may { MayGather numbers.old self.old }
        ensures noted { AddsEvent self.old pass.old self.new pass.new (Begin (slot_number self.old) Gather) }
        ensures slot { slot_of self.new ≡ gathered_slot (length (use_flags numbers.old)) (rest_of numbers.old ++ (slot_of self.old).batch) }
        ensures numbers { FollowsNumbers numbers.old pass.new numbers.new × IsPrefix (numbers_saw numbers.old) pass.new.seen }
        ensures rest { rest_of numbers.new ≡ [] }
        ensures used { use_flags numbers.new ≡ use_flags numbers.old }
    {
        self.add_with::<Brand>(&mut numbers.keys, 0, pass);
    }

    /// The event `Begin` of a flush.
    pub fn begin_flush(&mut self, pass: &mut Pass)
        requires book { IsKeyOfBook self.old pass.old }
        requires idle { (is_idle (slot_of self.old) ≡ true) × (active_of self.old ≡ true) }
        ensures noted { AddsEvent self.old pass.old self.new pass.new (Begin (slot_number self.old) Flush) }
    {
        self.add::<Brand>(pass);
    }

    /// The event `Begin` of a leave.
    pub fn begin_leave(&mut self, pass: &mut Pass)
        requires book { IsKeyOfBook self.old pass.old }
        requires idle { (is_idle (slot_of self.old) ≡ true) × (active_of self.old ≡ true) }
        ensures noted { AddsEvent self.old pass.old self.new pass.new (Begin (slot_number self.old) Leave) }
    {
        self.add::<Brand>(pass);
    }

    /// The event `Begin` of a refresh.
    pub fn begin_refresh(&mut self, pass: &mut Pass)
        requires book { IsKeyOfBook self.old pass.old }
        requires idle { (is_idle (slot_of self.old) ≡ true) × (active_of self.old ≡ true) }
        ensures noted { AddsEvent self.old pass.old self.new pass.new (Begin (slot_number self.old) Refresh) }
    {
        self.add::<Brand>(pass);
    }

    /// The event `Put`: the value that the slot's call is about to retire is appended to its batch.
    pub fn put(&mut self, pass: &mut Pass)
        requires book { IsKeyOfBook self.old pass.old }
        requires next { is_some (puts_next (slot_of self.old)) ≡ true }
        ensures noted { AddsEvent self.old pass.old self.new pass.new (Put (slot_number self.old)) }
    {
        self.add::<Brand>(pass);
    }

    /// The event `Detach`: the slot's batch becomes a retired batch.
    pub fn detach(&mut self, pass: &mut Pass)
        requires book { IsKeyOfBook self.old pass.old }
        requires next { CanDetach self.old }
        ensures noted { AddsEvent self.old pass.old self.new pass.new (Detach (slot_number self.old)) }
        ensures batch { Detaches self.old pass.new }
    {
        self.add::<Brand>(pass);
    }

    /// The event `Hand`: the value that the slot's call is about to hand to its reclaimer goes there, and its reclaimer puts these values,
    /// which were never named. All that lay in their blocks before were reclaimed, and something is lent with each.
    ///
    /// The value goes there for the first time, and was retired before. Each slot that was active then, and each that found it in a link,
    /// has left or refreshed since, and the activations in which they found it are over. The slot's call is to retire the further values
    /// then, in their order, after those that it had before, and the list says from then on what is kept of each, as it is noted of its
    /// block. So their keys know then that no call may begin to retire them, and that all others that lay in their blocks were reclaimed.
    pub fn hand_with(&mut self, further: &mut ValueKeys, pass: &mut Pass)
        requires book { IsKeyOfBook self.old pass.old × AreOfBook further.old pass.old }
        requires next { is_some (hands_next (slot_of self.old)) ≡ true }
        requires new { AreNew further.old }
        ensures noted { let hands = Hand (slot_number self.old) (values_of further.old) in
            AddsDeed self.old pass.old self.new pass.new (deed_with_words pass.old hands (kepts_of further.old)) }
        ensures once { IfSome (hands_next (slot_of self.old)) (HandsOnce self.old pass.new) }
        ensures keys { FollowsValues further.old pass.new further.new }
        ensures spent { AreSpent further.new pass.new × AreLast further.new pass.new }
    {
        further.apart();
        self.add_with::<Brand>(&mut further.keys, 0, pass);
    }

    /// The event `Return`: the slot's call is over.
    pub fn finish(&mut self, pass: &mut Pass)
        requires book { IsKeyOfBook self.old pass.old }
        requires over { IsOver (slot_of self.old) }
        ensures noted { AddsEvent self.old pass.old self.new pass.new (Return (slot_number self.old)) }
    {
        self.add::<Brand>(pass);
    }
}
