//! Blocks that came out of a link, or are seen in one, and how blocks go in. A `Shared` one was found in a link; an `Unlinked` one is in no
//! link, and is to be retired; an `Owned` one is in its owner's hands.
ghost use Rattle.std.specs.Prelude.{◌≡◌, IfSome};
ghost use Rattle.seize_words.specs.Joined.{IsNewTo, words_book};
ghost use Rattle.seize_words.specs.LinkWords.{value_held};
ghost use Rattle.seize_parts.specs.Blocks.{Belongs, IsNamed};
ghost use Rattle.seize_parts.specs.Enders.{IsEnderOf};

mod failed;
mod making;
mod shared;
mod unlinked;

pub use failed::Failed;
pub use making::{add_block, from_owned, show};
pub use seize_parts::block::Owned;
use seize_parts::ender::Ender;
use seize_parts::reclaim::Reclaim;
use seize_words::book::Pass;
use seize_words::link::MaybeKey;
use seize_words::words::Words;
pub use shared::Shared;
pub use unlinked::Unlinked;

/// The word of the block that is to go into a link, and the key of its value; or that of none.
pub fn name<T: Drop, R: Reclaim<T>>(
    value: Option<Owned<T>>,
    words: &Words<T>,
    ender: &Ender<T, R>,
    pass: &mut Pass,
) -> (u64, MaybeKey)
    requires pass { pass.old.name ≡ words_book words.now }
    requires ender { IsEnderOf words.now ender.now }
    requires value { IfSome value (λ owned. Belongs R.owners (words_book words.now).store owned) }
    ensures pass { pass.new ≡ pass.old }
    ensures new { IsNewTo (words_book words.now) result.1 result.0 }
    ensures named { IsNamed T.row.coded.code value (value_held result.1) }
{
    match value {
        Some(owned) => {
            let (number, key) = owned.lend(&words.blocks, &ender.permits);
            (number + 1, MaybeKey::some(key))
        }
        None => (0, MaybeKey::none(pass)),
    }
}
