//! What is done with slots whose holders were forgotten, where nobody shares the collector. Each leaves, if its guards were all forgotten,
//! and is kept then.
ghost use Rattle.std.specs.Prelude.{◌≡◌};
ghost use Rattle.seize_book.specs.Tokens.{IsSole};
ghost use Rattle.seize_words.specs.Joined.{words_book};
ghost use Rattle.seize_parts.specs.Aparts.{KeepsAside, MayDrain};
ghost use Rattle.seize_parts.specs.Enders.{IsEnderOf};
ghost use Rattle.seize_calls.specs.Slots.{IsPassOf};
ghost use Rattle.seize_parts.specs.Numbers.{AreSlots};
ghost use Rattle.seize_parts.specs.Sweeps.{KeepsFree, KeepsHere, KeepsIdle, KeepsOff, KeepsOn};

use crate::alone::aside::Aside;
use crate::ender::Ender;
use crate::numbers::Numbers;
use crate::reclaim::{Reclaim, Watch};
use seize_words::book::Pass;
use seize_words::words::Words;

impl<T: Drop> Numbers<T> {
    /// Each slot whose holder was forgotten leaves where it is active, and is kept.
    pub(super) fn recover_all<R: Reclaim<T>, W: Watch<T>>(
        &mut self,
        words: &Words<T>,
        ender: &Ender<T, R>,
        aside: &mut Aside<'_, W>,
        pass: &mut Pass,
    )
        requires numbers { AreSlots self.old × (self.old.book.name ≡ words_book words.now) }
        requires pass { IsPassOf words.now pass.old × IsSole pass.old.id × IsEnderOf words.now ender.now }
        requires queue { MayDrain T.row.coded.code (words_book words.now) aside.old.queue }
        ensures numbers { AreSlots self.new × KeepsHere self.old self.new × KeepsFree self.old self.new }
        ensures on { KeepsOn pass.old pass.new × KeepsOff pass.old pass.new × KeepsIdle pass.old pass.new }
        ensures aside { KeepsAside aside.old aside.new × MayDrain T.row.coded.code (words_book words.now) aside.new.queue }
    {
        for n in 0..self.shelves.len() {
            self.recover_at(words, ender, n, aside, pass);
        }
    }

    // So does the slot on this shelf, if there is one. Its key and that of the numbers then know the same list, so it has a place here.
    fn recover_at<R: Reclaim<T>, W: Watch<T>>(
        &mut self,
        words: &Words<T>,
        ender: &Ender<T, R>,
        n: usize,
        aside: &mut Aside<'_, W>,
        pass: &mut Pass,
    )
        requires numbers { AreSlots self.old × (self.old.book.name ≡ words_book words.now) }
        requires pass { IsPassOf words.now pass.old × IsSole pass.old.id × IsEnderOf words.now ender.now }
        requires queue { MayDrain T.row.coded.code (words_book words.now) aside.old.queue }
        ensures numbers { AreSlots self.new × KeepsHere self.old self.new × KeepsFree self.old self.new }
        ensures on { KeepsOn pass.old pass.new × KeepsOff pass.old pass.new × KeepsIdle pass.old pass.new }
        ensures aside { KeepsAside aside.old aside.new × MayDrain T.row.coded.code (words_book words.now) aside.new.queue }
    {
        let (reservation, forgotten) = self.shelves.take(n);
        let Some(reservation) = reservation else {
            return;
        };
        if let Some(slot) = reservation.into_slot(words, ender, forgotten, aside, pass) {
            let mut slot = slot;
            self.key.look(pass);
            slot.look(words, pass);
            let n = slot.number();
            self.kept[n] = Some(slot);
        }
    }
}
