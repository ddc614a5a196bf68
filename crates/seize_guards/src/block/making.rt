//! How blocks come to be in hand: a new one, what a guard found, and one that was never in a link and is to be retired. The collector's
//! users have these as calls of guards and of the collector.
ghost use Rattle.std.specs.Prelude.{◌≡◌, IfErr, IfOk};
ghost use Rattle.seize_table.specs.declared.refusal.Refusal.TheVariants.{NoMemory as no_memory};
ghost use Rattle.seize_book.specs.Blocks.{link_word};
ghost use Rattle.seize_parts.specs.Blocks.{HasContent, content};
ghost use Rattle.seize_guards.specs.Collectors.{BelongsTo, IsBlockOf};
ghost use Rattle.seize_guards.specs.Links.{IsUnlinkedOf, shared_name, shared_value, unlinked_name};

use crate::block::{Owned, Shared, Unlinked};
use crate::parts::Parts;
use seize_calls::slot::Loose;
use seize_parts::reclaim::Reclaim;
use seize_table::Refusal;
use seize_words::glimpse::Glimpse;
use seize_words::lasting::Lasting;
use seize_words::words::Words;

/// A block of this value.
///
/// # Errors
///
/// `NoMemory` where the store could not grow; the value comes back.
pub fn add_block<T: Drop>(words: &Words<T>, value: T) -> Result<Owned<T>, (Refusal, T)>
    ensures made { IfOk result (λ owned. IsBlockOf words.now owned × (content owned ≡ value)) }
    ensures refused { IfErr result (λ refused. (refused.0 ≡ no_memory) × (refused.1 ≡ value)) }
{
    let blocks = &words.blocks;
    let (key, block) = blocks.add(value)?;
    Ok(Owned::of(key, block, &blocks.book))
}

/// The value that was found where a link showed this word, in this activation.
#[inline(always)]
pub fn show<'g, T>(
    value: &'g T,
    word: u64,
    glimpse: Glimpse<'g>,
    lasting: Lasting<'g>,
) -> Shared<'g, T>
    requires { word ≡ link_word glimpse.value }
    ensures { (shared_name result ≡ glimpse.entry.value) × (shared_value result ≡ value.now) × (result.lasting ≡ lasting.entry) }
{
    Shared {
        value,
        word,
        glimpse,
        lasting,
    }
}

/// A block that was never in a link. No event is made.
pub fn from_owned<'c, T: Drop, R: Reclaim<T>>(
    owned: Owned<T>,
    parts: &'c Parts<T, R>,
) -> Unlinked<'c, T>
    requires { BelongsTo R.owners parts.now.words owned }
    ensures of { IsUnlinkedOf parts.now.words result }
    ensures content { HasContent T.row.coded.code (unlinked_name result) (content owned) }
{
    let words = &parts.words;
    let (number, value) = owned.lend(&words.blocks, &parts.ender().permits);
    let loose = Loose::new(number, value);
    Unlinked { words, loose }
}
