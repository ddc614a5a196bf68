//! The reclaimer of a call by which all is reclaimed: it tells the watch of each value, and then gives it to the collector's own. What that
//! puts waits in a queue, so that the call which hands a value retires none of it.
ghost use base.Stored.{Gv, gnil};
ghost use Rattle.std.specs.Prelude.{◌≡◌, ◌∷◌, [], true, Bool, ℕ, List};
ghost use Rattle.std.proofs.Common.{sym, ◌∙◌};
ghost use Rattle.seize_book.specs.Kept.{kepts_of};
ghost use Rattle.seize_book.specs.Tokens.{IsSole};
ghost use Rattle.seize_book.specs.Values.{values_of};
ghost use Rattle.seize_words.specs.Joined.{words_book};
ghost use Rattle.seize_calls.specs.Aparts.{without_puts};
ghost use Rattle.seize_calls.specs.Furthers.{further_in};
ghost use Rattle.seize_calls.specs.Handing.{Had, IsServed};
ghost use Rattle.seize_calls.specs.Slots.{HasActivation, IsActive, IsItsHead, IsPassOf, IsSlotOf, KeepsActivation, MayEnterWith};
ghost use Rattle.seize_calls.specs.Slots.{IsTakenAs, SlotFlushes, SlotLeaves, SlotResumes, its_key};
ghost use Rattle.seize_book.specs.Slots.{active_of};
ghost use Rattle.seize_alone.specs.Gone.{PutAs};
ghost use Rattle.seize_parts.specs.Aparts.{DidApart, IsBehind, KeepsAside};
ghost use Rattle.seize_parts.specs.Enders.{IsEnderIn, IsEnderOf};
ghost use Rattle.seize_parts.specs.Told.{HasToldFrom};

use crate::alone::aside::Aside;
use crate::ender::Ender;
use crate::ends::Forwards;
use crate::reclaim::{Reclaim, Watch};
use seize_calls::draining::Lightens;
use seize_calls::manner::Alone;
use seize_calls::slot::Slot;
use seize_calls::{further as chain, handing};
use seize_words::activation::Activation;
use seize_words::blocks::Blocks;
use seize_words::book::{Pass, Permit};
use seize_words::reservation::Head;
use seize_words::words::Words;
use std::marker::{Brand, PhantomData};

/// Which watch is told and where values wait, by the names of these borrows, with the code of what the watch had seen and with what waited
/// when the call began. A caller passes `Brand`, and its proof picks them.
pub(crate) trait Waited {
    ghost name: { ℕ };

    ghost watch: { ℕ };

    ghost first: { Gv };

    ghost values: { List ℕ };

    ghost words: { List ℕ };
}

impl Waited for Brand {
    ghost name = { 0 };

    ghost watch = { 0 };

    ghost first = { gnil };

    ghost values = { [] };

    ghost words = { [] };
}

/// Tells the watch of each value, and gives it to the collector's reclaimer: `F` is `Forwards`, and `B` says which watch it is, and which
/// queue. What is put comes last there.
#[derive(Drop)]
pub(crate) struct Apart<'a, 'w, F: Drop, W, B> {
    /// Gives it on.
    pub(crate) forwards: F,
    /// The watch, and the queue.
    pub(crate) aside: &'a mut Aside<'w, W>,
    /// What is known of both.
    pub(crate) begun: PhantomData<B>,
}

impl<T: Drop, R: Reclaim<T>, W: Watch<T>, B: Waited> handing::Reclaim<T>
    for Apart<'_, '_, Forwards<'_, T, R>, W, B> {
    ghost had = { λ apart. without_puts apart.forwards.ends.had };

    ghost serves = { λ apart n. let had = apart.forwards.ends.had in
        IsEnderIn n apart.forwards.ender.now × PutAs T.row.coded.code R.puts had
        × HasToldFrom W.coded T.row.coded.code W.told B.first (W.seen apart.aside.now.watch.now) had
        × IsBehind n B.values B.words had apart.aside.now.queue
        × (apart.aside.ghost_name ≡ B.name) × (apart.aside.now.watch.ghost_name ≡ B.watch) };

    fn reclaim(
        &mut self,
        kept: u64,
        value: T,
        permit: Permit,
        further: &mut chain::Further,
        blocks: &Blocks<T>,
    ) {
        self.aside.watch.gone(&value);
        self.forwards.reclaim(kept, value, permit, further, blocks);
        self.aside.queue.append(blocks, further);
    }
}

/// It puts nothing that the call retires.
impl<T: Drop, R: Reclaim<T>, W: Watch<T>, B: Waited> Lightens<T>
    for Apart<'_, '_, Forwards<'_, T, R>, W, B> {
    ghost weighs = { λ _ n. n ≡ 0 };

    ghost once = { λ l m n a b. a ∙ sym b };

    fn weigh(&self, _permit: Permit, _blocks: &Blocks<T>) {}

    fn lightens(&self, _blocks: &Blocks<T>) {}
}

/// The slot leaves, by a reclaimer that tells the watch. What is put waits in the queue.
pub(crate) fn leave_apart<B: Waited, T: Drop, R: Reclaim<T>, W: Watch<T>>(
    words: &Words<T>,
    slot: &mut Slot<T>,
    head: &Head,
    rest: &mut Activation,
    apart: &mut Apart<'_, '_, Forwards<'_, T, R>, W, B>,
    pass: &mut Pass,
)
    requires of { IsSlotOf words.now slot.old × IsPassOf words.now pass.old × IsSole pass.old.id }
    requires head { IsItsHead slot.old head.now }
    requires inside { HasActivation slot.old rest.old }
    requires new { (apart.old.forwards.ends.had ≡ []) × IsEnderOf words.now apart.old.forwards.ender.now }
    requires watch { (apart.old.aside.ghost_name ≡ B.name) × (apart.old.aside.now.watch.ghost_name ≡ B.watch)
        × (W.coded.code (W.seen apart.old.aside.now.watch.now) ≡ B.first) }
    requires queue { let queue = apart.old.aside.now.queue in
        IsServed (further_in queue) (words_book words.now)
        × (values_of (further_in queue) ≡ B.values) × (kepts_of (further_in queue) ≡ B.words) }
    ensures same { (apart.new.aside.ghost_name ≡ apart.old.aside.ghost_name) × KeepsAside apart.old.aside.now apart.new.aside.now }
    ensures of { IsSlotOf words.now slot.new × MayEnterWith slot.new rest.new }
    ensures leaves { (had : Had) × SlotLeaves slot.old pass.old [] slot.new pass.new (without_puts had)
        × DidApart T.row.coded.code R.puts W.told W.seen (words_book words.now) had apart.old.aside.now apart.new.aside.now }
{
    slot.leave(words, head, rest, apart, pass, &Alone {});
}

/// The slot leaves. The watch is told of each value that goes, and what the reclaimer puts waits in the queue.
pub(crate) fn leave_into<T: Drop, R: Reclaim<T>, W: Watch<T>>(
    words: &Words<T>,
    ender: &Ender<T, R>,
    slot: &mut Slot<T>,
    head: &Head,
    rest: &mut Activation,
    aside: &mut Aside<'_, W>,
    pass: &mut Pass,
)
    requires of { IsSlotOf words.now slot.old × IsPassOf words.now pass.old × IsSole pass.old.id }
    requires head { IsItsHead slot.old head.now }
    requires inside { HasActivation slot.old rest.old }
    requires ender { IsEnderOf words.now ender.now }
    requires queue { IsServed (further_in aside.old.queue) (words_book words.now) }
    ensures same { KeepsAside aside.old aside.new }
    ensures of { IsSlotOf words.now slot.new × MayEnterWith slot.new rest.new }
    ensures leaves { (had : Had) × SlotLeaves slot.old pass.old [] slot.new pass.new (without_puts had)
        × DidApart T.row.coded.code R.puts W.told W.seen (words_book words.now) had aside.old aside.new }
{
    let mut apart = Apart {
        forwards: Forwards::new(ender),
        aside: &mut *aside,
        begun: PhantomData,
    };
    leave_apart::<Brand, T, R, W>(words, slot, head, rest, &mut apart, pass);
    // It is taken apart, and so what the watch has seen is known, and what waits.
    let Apart {
        forwards: _forwards,
        aside: _aside,
        begun: _,
    } = apart;
}

/// The batch of the slot, which is active, is attempted, by a reclaimer that tells the watch. What is put waits in the queue.
pub(crate) fn flush_apart<B: Waited, T: Drop, R: Reclaim<T>, W: Watch<T>>(
    words: &Words<T>,
    slot: &mut Slot<T>,
    apart: &mut Apart<'_, '_, Forwards<'_, T, R>, W, B>,
    pass: &mut Pass,
)
    requires of { IsSlotOf words.now slot.old × IsPassOf words.now pass.old × IsSole pass.old.id }
    requires inside { IsActive slot.old }
    requires new { (apart.old.forwards.ends.had ≡ []) × IsEnderOf words.now apart.old.forwards.ender.now }
    requires watch { (apart.old.aside.ghost_name ≡ B.name) × (apart.old.aside.now.watch.ghost_name ≡ B.watch)
        × (W.coded.code (W.seen apart.old.aside.now.watch.now) ≡ B.first) }
    requires queue { let queue = apart.old.aside.now.queue in
        IsServed (further_in queue) (words_book words.now)
        × (values_of (further_in queue) ≡ B.values) × (kepts_of (further_in queue) ≡ B.words) }
    ensures same { (apart.new.aside.ghost_name ≡ apart.old.aside.ghost_name) × KeepsAside apart.old.aside.now apart.new.aside.now }
    ensures of { IsSlotOf words.now slot.new × KeepsActivation slot.old slot.new }
    ensures flushes { (retired : Bool) × (had : Had) × SlotFlushes slot.old pass.old [] slot.new pass.new (without_puts had) retired
        × DidApart T.row.coded.code R.puts W.told W.seen (words_book words.now) had apart.old.aside.now apart.new.aside.now }
{
    slot.flush(words, apart, pass, &Alone {});
}

/// The batch of the slot, which is active, is attempted, as `leave_into` leaves.
pub(crate) fn flush_into<T: Drop, R: Reclaim<T>, W: Watch<T>>(
    words: &Words<T>,
    ender: &Ender<T, R>,
    slot: &mut Slot<T>,
    aside: &mut Aside<'_, W>,
    pass: &mut Pass,
)
    requires of { IsSlotOf words.now slot.old × IsPassOf words.now pass.old × IsSole pass.old.id }
    requires inside { IsActive slot.old }
    requires ender { IsEnderOf words.now ender.now }
    requires queue { IsServed (further_in aside.old.queue) (words_book words.now) }
    ensures same { KeepsAside aside.old aside.new }
    ensures of { IsSlotOf words.now slot.new × KeepsActivation slot.old slot.new }
    ensures flushes { (retired : Bool) × (had : Had) × SlotFlushes slot.old pass.old [] slot.new pass.new (without_puts had) retired
        × DidApart T.row.coded.code R.puts W.told W.seen (words_book words.now) had aside.old aside.new }
{
    let mut apart = Apart {
        forwards: Forwards::new(ender),
        aside: &mut *aside,
        begun: PhantomData,
    };
    flush_apart::<Brand, T, R, W>(words, slot, &mut apart, pass);
    // It is taken apart, and so what the watch has seen is known, and what waits.
    let Apart {
        forwards: _forwards,
        aside: _aside,
        begun: _,
    } = apart;
}

/// The slot goes on with its call, by a reclaimer that tells the watch. What is put waits in the queue.
pub(crate) fn resume_apart<B: Waited, T: Drop, R: Reclaim<T>, W: Watch<T>>(
    words: &Words<T>,
    slot: &mut Slot<T>,
    apart: &mut Apart<'_, '_, Forwards<'_, T, R>, W, B>,
    pass: &mut Pass,
)
    requires of { IsTakenAs true words.now slot.old × IsPassOf words.now pass.old × IsSole pass.old.id }
    requires new { (apart.old.forwards.ends.had ≡ []) × IsEnderOf words.now apart.old.forwards.ender.now }
    requires watch { (apart.old.aside.ghost_name ≡ B.name) × (apart.old.aside.now.watch.ghost_name ≡ B.watch)
        × (W.coded.code (W.seen apart.old.aside.now.watch.now) ≡ B.first) }
    requires queue { let queue = apart.old.aside.now.queue in
        IsServed (further_in queue) (words_book words.now)
        × (values_of (further_in queue) ≡ B.values) × (kepts_of (further_in queue) ≡ B.words) }
    ensures same { (apart.new.aside.ghost_name ≡ apart.old.aside.ghost_name) × KeepsAside apart.old.aside.now apart.new.aside.now }
    ensures of { IsSlotOf words.now slot.new × (active_of (its_key slot.new) ≡ active_of (its_key slot.old)) }
    ensures resumes { (had : Had) × SlotResumes slot.old pass.old [] slot.new pass.new (without_puts had)
        × DidApart T.row.coded.code R.puts W.told W.seen (words_book words.now) had apart.old.aside.now apart.new.aside.now }
{
    slot.resume(words, apart, pass, &Alone {});
}

/// The slot goes on with the call that a take began, as `leave_into` leaves.
pub(crate) fn resume_into<T: Drop, R: Reclaim<T>, W: Watch<T>>(
    words: &Words<T>,
    ender: &Ender<T, R>,
    slot: &mut Slot<T>,
    aside: &mut Aside<'_, W>,
    pass: &mut Pass,
)
    requires of { IsTakenAs true words.now slot.old × IsPassOf words.now pass.old × IsSole pass.old.id }
    requires ender { IsEnderOf words.now ender.now }
    requires queue { IsServed (further_in aside.old.queue) (words_book words.now) }
    ensures same { KeepsAside aside.old aside.new }
    ensures of { IsSlotOf words.now slot.new × (active_of (its_key slot.new) ≡ active_of (its_key slot.old)) }
    ensures resumes { (had : Had) × SlotResumes slot.old pass.old [] slot.new pass.new (without_puts had)
        × DidApart T.row.coded.code R.puts W.told W.seen (words_book words.now) had aside.old aside.new }
{
    let mut apart = Apart {
        forwards: Forwards::new(ender),
        aside: &mut *aside,
        begun: PhantomData,
    };
    resume_apart::<Brand, T, R, W>(words, slot, &mut apart, pass);
    // It is taken apart, and so what the watch has seen is known, and what waits.
    let Apart {
        forwards: _forwards,
        aside: _aside,
        begun: _,
    } = apart;
}
