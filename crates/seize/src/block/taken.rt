//! A value of a collector in one caller's hands that is in no link.
ghost use Rattle.std.specs.Prelude.{◌≡◌};
ghost use base.Fml.{ftrue};
ghost use Rattle.seize_book.specs.Others.{MayRetire};
ghost use Rattle.seize_calls.specs.Slots.{IsReadable, its_value};
ghost use Rattle.seize_words.specs.Chunks.{IsLentAs};
ghost use Rattle.seize_guards.specs.Loose.{may_retire-prop};

use crate::block::Owned;
use seize_calls::slot::Loose;
use seize_parts::ender::Ender;
use seize_parts::reclaim::Reclaim;
use seize_words::words::Words;
use std::marker::{Model, PhantomData};

/// The value with which something is lent. It has no bytes.
pub(crate) struct Content<T> {
    marker: PhantomData<T>,
    /// It is there for clauses alone.
    pub(crate) ghost value: { T } by { T.code },
}

impl<T> Model for Content<T> {
    ghost also_owns = { λ _. ftrue };
}

impl<T> Drop for Content<T> {
    fn drop(self) {
        let Content { marker: _ } = self;
    }
}

// It owns nothing, so any thread may have it.
unsafe impl<T> Send for Content<T> {}

unsafe impl<T> Sync for Content<T> {}

impl<T> Content<T> {
    // There is one, and this is it. It does nothing when the program runs.
    fn of(_loose: &Loose) -> Content<T>
        requires { (value : T) × IsLentAs (its_value _loose.now) (T.row.coded.code value) }
        ensures { IsLentAs (its_value _loose.now) (T.row.coded.code result.value) }
    {
        Content {
            marker: PhantomData,
        }
    }
}

/// A value that is in no link, and is to be retired, while its collector is in one caller's hands. It borrows nothing, so the collector
/// may be changed meanwhile.
///
/// It has no `Drop`, so it can't be lost by oversight: `Alone::retire` spends it. Retire it before the collector is shared again. Where a
/// retirement is refused it comes back; by a slot that has a guard it is never refused.
pub struct Taken<T: Drop> {
    loose: Loose,
    content: Content<T>,
    ghost may: { MayRetire loose.value } by { may_retire-prop loose.value },
    ghost readable: { IsReadable loose },
}

impl<T: Drop> Taken<T> {
    ghost use Rattle.std.specs.Prelude.{IfSome};
    ghost use Rattle.seize_words.specs.Joined.{words_book};
    ghost use Rattle.seize_calls.specs.Slots.{loose_book};
    ghost use Rattle.seize_parts.specs.Blocks.{Belongs, HasContent, content};
    ghost use Rattle.seize.specs.Takens.{IsTakenOf, TakesOut, taken_book, taken_content, taken_name};
    ghost use Rattle.seize_parts.specs.Enders.{IsEnderOf};

    /// What came out of a link.
    pub(crate) fn of(loose: Loose) -> Taken<T>
        requires may { MayRetire loose.value × IsReadable loose }
        requires content { (value : T) × HasContent T.row.coded.code (its_value loose) value }
        ensures of { IsTakenOf T.row.coded.code (loose_book loose) result }
        ensures name { taken_name result ≡ its_value loose }
    {
        let content = Content::of(&loose);
        Taken { loose, content }
    }

    /// The same where there is one.
    pub(crate) fn out(loose: Option<Loose>) -> Option<Taken<T>>
        requires may { IfSome loose (λ loose. MayRetire loose.value × IsReadable loose) }
        requires content { IfSome loose (λ loose. (value : T) × HasContent T.row.coded.code (its_value loose) value) }
        ensures { TakesOut T.row.coded.code loose result }
    {
        Some(Taken::of(loose?))
    }

    /// A block that was never in a link. Its value is lent from then on.
    pub(crate) fn from_owned<R: Reclaim<T>>(
        owned: Owned<T>,
        words: &Words<T>,
        ender: &Ender<T, R>,
    ) -> Taken<T>
        requires ender { IsEnderOf words.now ender.now }
        requires belongs { Belongs R.owners (words_book words.now).store owned }
        ensures of { IsTakenOf T.row.coded.code (words_book words.now) result }
        ensures content { taken_content result ≡ content owned }
    {
        let (number, value) = owned.lend(&words.blocks, &ender.permits);
        Taken::of(Loose::new(number, value))
    }

    /// The value, for as long as this and the words are borrowed.
    pub(crate) fn peek<'g>(&'g self, words: &'g Words<T>) -> &'g T
        requires { IsTakenOf T.row.coded.code (words_book words.now) self.now }
        ensures { result.now ≡ taken_content self.now }
    {
        self.loose.peek(&words.blocks)
    }

    /// What is retired, with its content. It has the name and the list that this had.
    pub(crate) fn into_loose(self) -> (Loose, Content<T>)
        ensures its { (its_value result.0 ≡ taken_name self) × (loose_book result.0 ≡ taken_book self) }
        ensures may { MayRetire result.0.value × IsReadable result.0 }
        ensures content { result.1.value ≡ taken_content self }
    {
        let Taken { loose, content } = self;
        (loose, content)
    }
}
