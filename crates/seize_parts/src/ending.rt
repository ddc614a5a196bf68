//! The end of a collector, which nobody shares any more: what its links hold, and what waits in the batches of its slots, ends with it.
//! The calls are made one after the other by a pass that is alone, so none of them waits, and each returns.
ghost use Rattle.std.specs.Prelude.{◌<◌, length};
ghost use Rattle.seize_book.specs.Passes.{IsSamePass};
ghost use Rattle.seize_book.specs.Tokens.{IsSole};
ghost use Rattle.seize_words.specs.Joined.{words_book};
ghost use Rattle.seize_words.specs.Rows.{AreShared, IsSharedAt};
ghost use Rattle.seize_parts.specs.Enders.{IsEnderOf};
ghost use Rattle.seize_calls.specs.Slots.{InActivation, IsInactive, IsPassOf, IsSlotOf, KeepsActivation};
ghost use Rattle.seize_parts.specs.Numbers.{AreNumbers, IsLockFor, KnowsLeast};

use crate::ender::Ender;
use crate::ends::Forwards;
use crate::numbers::Numbers;
use crate::reclaim::Reclaim;
use seize_calls::manner::Alone;
use seize_calls::slot::{Loose, Slot};
use seize_words::activation::Activation;
use seize_words::book::Pass;
use seize_words::link::MaybeKey;
use seize_words::words::Words;

/// Reclaims what waits in the batch of each slot, with what the reclaimer puts, and then what the links hold, as of kind 0. A slot that was
/// forgotten leaves first. Where none was made, or each was lost, it does nothing.
///
/// With a batch size above 1, what is put with the values of links may stay in a batch. Where a guard was lost its slot is active still.
/// Then what is retired here waits for that slot, and does not end.
///
/// It takes no memory and waits for nobody, but for what the reclaimer does.
pub fn end_all<T: Drop, R: Reclaim<T>>(
    words: &Words<T>,
    ender: &Ender<T, R>,
    numbers: Numbers<T>,
    pass: Pass,
)
    requires numbers { AreNumbers numbers × KnowsLeast numbers × IsLockFor words.now numbers }
    requires pass { IsPassOf words.now pass × IsSole pass.id }
    requires ender { IsEnderOf words.now ender.now }
    requires shared { AreShared words.now.links }
{
    let (mut numbers, mut pass) = (numbers, pass);
    numbers.sweep(words, ender, &mut (), &mut pass);
    if let Some(slot) = numbers.take_free(words, ender, &mut pass) {
        end_links(words, ender, slot, &mut pass);
    }
}

// The slot enters, takes out what the links hold and retires it; then it flushes and leaves.
fn end_links<T: Drop, R: Reclaim<T>>(
    words: &Words<T>,
    ender: &Ender<T, R>,
    slot: Slot<T>,
    pass: &mut Pass,
)
    requires shared { AreShared words.now.links }
    requires slot { IsSlotOf words.now slot × IsInactive slot }
    requires pass { IsPassOf words.now pass.old × IsSole pass.old.id }
    requires ender { IsEnderOf words.now ender.now }
{
    let mut slot = slot;
    let mut activation = slot.activation();
    let head = slot.head(words, pass);
    slot.enter(words, head, &mut activation, pass);
    for link in 0..words.links.len() {
        empty(words, ender, link, &mut slot, &activation, pass);
    }
    slot.flush(words, &mut Forwards::new(ender), pass, &Alone {});
    slot.leave(
        words,
        head,
        &mut activation,
        &mut Forwards::new(ender),
        pass,
        &Alone {},
    );
}

// Takes out what the link holds, and retires it.
fn empty<T: Drop, R: Reclaim<T>>(
    words: &Words<T>,
    ender: &Ender<T, R>,
    link: usize,
    slot: &mut Slot<T>,
    activation: &Activation,
    pass: &mut Pass,
)
    requires slot { IsSlotOf words.now slot.old × InActivation slot.old activation.now }
    requires pass { IsPassOf words.now pass.old × IsSole pass.old.id }
    requires ender { IsEnderOf words.now ender.now }
    requires link { (link < length (words_book words.now).links) × IsSharedAt words.now.links link }
    ensures slot { IsSlotOf words.now slot.new × KeepsActivation slot.old slot.new }
    ensures same { IsSamePass pass.old pass.new }
{
    slot.teach(pass);
    let mut key = MaybeKey::none(pass);
    let permit = pass.no_pairs();
    let word = words.swap_link(link, 0, &mut key, activation, pass, &permit);
    if let Some(loose) = Loose::of(word, key) {
        slot.retire(words, loose, 0, &mut Forwards::new(ender), pass, &Alone {});
    }
}
