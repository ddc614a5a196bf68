//! A block that is in no link.
ghost use Rattle.std.specs.Prelude.{◌≡◌};
ghost use Rattle.seize_calls.specs.Slots.{IsLooseOf, IsReadable};
ghost use Rattle.seize_guards.specs.Loose.{loose_of-prop};

use seize_calls::slot::Loose;
use seize_words::link::MaybeKey;
use seize_words::words::Words;
use std::ops::Deref;

/// A block that is in no link, and is to be retired. It reads as its value, and may outlive the guard that took it out.
///
/// It has no `Drop`, so it can't be lost by oversight: it is spent by a retirement.
pub struct Unlinked<'c, T: Drop> {
    pub(crate) words: &'c Words<T>,
    pub(crate) loose: Loose,
    ghost its: { IsLooseOf words.now loose } by { loose_of-prop words.now loose },
    ghost readable: { IsReadable loose },
}

impl<'c, T: Drop> Unlinked<'c, T> {
    ghost use Rattle.std.specs.Prelude.{IfSome};
    ghost use Rattle.seize_book.specs.Blocks.{link_word};
    ghost use Rattle.seize_words.specs.Joined.{words_book};
    ghost use Rattle.seize_words.specs.LinkWords.{IsLoose, value_held};
    ghost use Rattle.seize_calls.specs.Slots.{IsLooseIn, its_value};
    ghost use Rattle.seize_calls.specs.declared.slot.Loose.{Loose};
    ghost use Rattle.seize_words.specs.declared.words.Words.{Words};
    ghost use Rattle.seize_guards.specs.Collectors.{collector_id};
    ghost use Rattle.seize_guards.specs.Links.{ComesOut, IsUnlinkedOf, unlinked_name};

    // What came out of a link, whose word was this; nothing where that was 0.
    pub(crate) fn found(words: &'c Words<T>, word: u64, key: MaybeKey) -> Option<Unlinked<'c, T>>
        requires word { word ≡ link_word (value_held key) }
        requires loose { IsLoose key × (key.keys.name ≡ words_book words.now) }
        requires readable { (loose : Loose) → IsLooseIn key loose → IsReadable loose }
        ensures of { IfSome result (λ unlinked. unlinked.words.now ≡ words.now) }
        ensures out { ComesOut (value_held key) result }
    {
        let loose = Loose::of(word, key)?;
        Some(Unlinked { words, loose })
    }

    /// The id of its collector.
    pub fn collector_id(&self) -> u64
        ensures { (words : Words T) → IsUnlinkedOf words self.now → result ≡ collector_id words }
    {
        self.words.id
    }

    // What is retired.
    pub(crate) fn into_loose(self) -> Loose
        ensures { (its_value result ≡ unlinked_name self.entry) × IsLooseOf self.entry.words.now result }
    {
        let Unlinked { words: _, loose } = self;
        loose
    }
}

impl<T: Drop> Deref for Unlinked<'_, T> {
    type Target = T;

    ghost use Rattle.seize_parts.specs.Blocks.{HasContent};
    ghost use Rattle.seize_guards.specs.Links.{unlinked_name};

    ghost deref_gives = { λ unlinked value. HasContent T.row.coded.code (unlinked_name unlinked) value };

    fn deref(&self) -> &T {
        self.loose.peek(&self.words.blocks)
    }
}
