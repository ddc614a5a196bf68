//! The parts of an exchange that compares: the word of what the caller takes a link to hold, the exchange itself, and what is had when it
//! was lost.
ghost use Rattle.std.specs.Prelude.{◌≡◌, ◌≢◌, ◌⊎◌, ◌-◌, Option, IfSome};
ghost use Rattle.seize_book.specs.Blocks.{link_word};
ghost use Rattle.seize_book.specs.Pairs.{content_number};
ghost use Rattle.seize_book.specs.Passes.{IsSamePass, LooksOn};
ghost use Rattle.seize_words.specs.Chunks.{IsFoundAt};
ghost use Rattle.seize_words.specs.Joined.{IsInAt, IsNewTo, OnLink, words_book};
ghost use Rattle.seize_words.specs.LinkWords.{CompareExchanges, WasFoundIn, value_held};
ghost use Rattle.seize_parts.specs.Blocks.{IsNamed};
ghost use Rattle.seize_parts.specs.Rules.{HoldsOf, number_if};
ghost use Rattle.seize_guards.specs.Links.{Shows, shared_book, shared_name};
ghost use Rattle.seize_guards.specs.Collectors.{IsBlockOf};
ghost use Rattle.seize_guards.specs.Exchanges.{FoundIn, Learned, current_name};
ghost use Rattle.seize_guards.specs.Guards.{core_activation, core_collector};

use crate::block::{Owned, Shared, show};
use crate::guard::GuardCore;
use crate::parts::Home;
use seize_parts::reclaim::Reclaim;
use seize_words::activation::Activation;
use seize_words::book::Pass;
use seize_words::glimpse::Glimpse;
use seize_words::lasting::Lasting;
use seize_words::link::{Expected, Expects, MaybeKey};
use seize_words::words::Words;

// The word of what the caller takes a link to hold.
pub(crate) fn current_word<T>(current: Option<&Shared<'_, T>>) -> u64
    ensures { result ≡ link_word (current_name current.entry) }
{
    match current {
        Some(shared) => shared.word,
        None => 0,
    }
}

// The exchange, where the rule allows it. `E` is what the caller takes the link to hold.
pub(crate) fn exchange<'g, T: Drop, R: Reclaim<T>, E: Expects, C: Home<T>>(
    core: &'g GuardCore<'_, T, R, C>,
    link: usize,
    current: Option<&Shared<'_, T>>,
    new: u64,
    key: &mut MaybeKey,
    pass: &mut Pass,
) -> (u64, Glimpse<'g>)
    requires book { words_book (core_collector core.now) ≡ pass.old.name }
    requires within { IsInAt (core_activation core.now) pass.old link }
    requires new { IsNewTo (words_book (core_collector core.now)) key.old new }
    requires expected { E.current ≡ current_name current }
    requires found { IfSome current (λ shared. WasFoundIn shared.now.lasting (shared_name shared.now) pass.old) }
    requires rule { (x : Option T) → content_number E.current ≡ number_if T.row.coded.code x
        → HoldsOf T.row.coded.code (R.keeps link x) (value_held key.old) }
    ensures exchanges { OnLink (words_book (core_collector core.now)) link (λ link.
        CompareExchanges link (core_activation core.now) key.old pass.old E.current key.new pass.new result.0 result.1) }
{
    match current {
        Some(shared) => {
            let expected = shared.expected();
            exchange_for::<T, R, E, C>(core, link, &expected, new, key, pass)
        }
        None => {
            let expected = Expected {
                word: 0,
                lasting: Lasting::of(&core.unit, pass),
            };
            exchange_for::<T, R, E, C>(core, link, &expected, new, key, pass)
        }
    }
}

// The same for what is expected.
fn exchange_for<'g, T: Drop, R: Reclaim<T>, E: Expects, C: Home<T>>(
    core: &'g GuardCore<'_, T, R, C>,
    link: usize,
    expected: &Expected<'_>,
    new: u64,
    key: &mut MaybeKey,
    pass: &mut Pass,
) -> (u64, Glimpse<'g>)
    requires book { words_book (core_collector core.now) ≡ pass.old.name }
    requires within { IsInAt (core_activation core.now) pass.old link }
    requires new { IsNewTo (words_book (core_collector core.now)) key.old new }
    requires expected { expected.now.word ≡ link_word E.current }
    requires found { WasFoundIn expected.now.lasting E.current pass.old }
    requires rule { (x : Option T) → content_number E.current ≡ number_if T.row.coded.code x
        → HoldsOf T.row.coded.code (R.keeps link x) (value_held key.old) }
    ensures exchanges { OnLink (words_book (core_collector core.now)) link (λ link.
        CompareExchanges link (core_activation core.now) key.old pass.old E.current key.new pass.new result.0 result.1) }
{
    let parts = core.parts;
    let permit = parts.ender().for_exchange::<E>(link, key, pass);
    parts
        .words
        .exchange_link::<E>(link, expected, new, key, &core.unit, pass, &permit)
}

// The pass learns what was seen where this was found.
pub(crate) fn learn_current<T>(current: Option<&Shared<'_, T>>, pass: &mut Pass)
    requires { IfSome current (λ shared. shared_book shared.now ≡ pass.old.name) }
    ensures same { IsSamePass pass.old pass.new }
    ensures learned { Learned current.entry pass.old pass.new }
{
    if let Some(shared) = current {
        shared.lasting.tell(pass);
    }
}

// What the link held, whose word was this.
pub(crate) fn shown<'g, T: Drop>(
    words: &'g Words<T>,
    word: u64,
    glimpse: Glimpse<'g>,
    unit: &'g Activation,
    pass: &mut Pass,
) -> Option<Shared<'g, T>>
    requires book { words_book words.now ≡ pass.old.name }
    requires word { word ≡ link_word glimpse.value }
    requires found { word ≢ 0 → IsFoundAt glimpse.value (word - 1) pass.old }
    requires unit { FoundIn unit.now glimpse.value pass.old }
    ensures looks { (pass.new ≡ pass.old) ⊎ LooksOn pass.old pass.new }
    ensures shows { Shows words.now T.row.coded.code glimpse.entry.value result }
{
    if word == 0 {
        return None;
    }
    let blocks = &words.blocks;
    let mut glimpse = glimpse;
    let value = blocks.see(word - 1, glimpse.again(), pass);
    let lasting = Lasting::of(unit, pass);
    Some(show(value, word, glimpse, lasting))
}

// The block that was to go into the link, whose word was this.
pub(crate) fn came_back<T: Drop>(
    words: &Words<T>,
    word: u64,
    key: MaybeKey,
    pass: &mut Pass,
) -> Option<Owned<T>>
    requires pass { words_book words.now ≡ pass.old.name }
    requires new { IsNewTo (words_book words.now) key word }
    ensures pass { pass.new ≡ pass.old }
    ensures named { IsNamed T.row.coded.code result (value_held key) }
    ensures of { IfSome result (λ owned. IsBlockOf words.now owned) }
{
    if word == 0 {
        return None;
    }
    let blocks = &words.blocks;
    let mut value = key.value();
    let block = blocks.withdraw(word - 1, &mut value, pass);
    Some(Owned::of(value, block, &blocks.book))
}
