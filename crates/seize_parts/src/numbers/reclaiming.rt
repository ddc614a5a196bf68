//! All is reclaimed by a pass that is alone: slots in use leave and are kept, each attempts its batch, what slots left is attempted, and
//! the numbers go back. So it is for one caller, whose slots lie in places, and for who has a collector alone that threads shared, where
//! slots lie on the shelves of those who were forgotten. What the reclaimer puts meanwhile waits in a queue, and goes in the end.
ghost use Rattle.std.specs.Prelude.{◌≡◌, ℕ, List, None, [], get_or, is_some};
ghost use Rattle.std.specs.List.{list_all};
ghost use mathlib.Core.List.{IsPrefix};
ghost use Rattle.seize_book.specs.Others.{rest_of};
ghost use Rattle.seize_book.specs.Passes.{IsSamePass};
ghost use Rattle.seize_book.specs.Book.{IsLegalList};
ghost use Rattle.seize_book.specs.Tokens.{IsSole, start};
ghost use Rattle.seize_book.specs.Values.{IsEmptyIn, values_of};
ghost use Rattle.seize_words.specs.Joined.{words_book};
ghost use Rattle.seize_calls.specs.Furthers.{further_in};
ghost use Rattle.seize_calls.specs.Slots.{IsPassOf};
ghost use Rattle.seize_alone.specs.Reclaiming.{in_turn, kept_in_turn};
ghost use Rattle.seize_parts.specs.Aparts.{AreKeptOf, Fits, Goes, GoesAll, IsSomeHeld, KeepsAside, MayDrain, MayGo};
ghost use Rattle.seize_parts.specs.Enders.{IsEnderOf};
ghost use Rattle.seize_parts.specs.Numbers.{AreNumbers, AreSlots, IsLockFor, KnowsLeast};
ghost use Rattle.seize_parts.specs.Sweeps.{AreOff, KeepsActive, KeepsHere, KeepsIdle, KeepsOn, Sweeps};

use crate::alone::aside::Aside;
use crate::alone::draining::drain;
use crate::alone::place::Place;
use crate::ender::Ender;
use crate::numbers::Numbers;
use crate::reclaim::{Reclaim, Watch};
use seize_calls::further::Further;
use seize_cells::LockWork;
use seize_words::book::Pass;
use seize_words::words::Words;

impl<T: Drop> Numbers<T> {
    /// Whether no number is in use: each slot that was made lies here. It compares two counts.
    pub(super) fn all_here(&self) -> bool
        requires { AreSlots self.now }
        ensures { result ≡ list_all is_some self.now.slots.items }
    {
        self.free == self.slots.len()
    }

    // What is kept attempts its batch, and what slots left is attempted; then the numbers go back.
    fn reclaim_kept<R: Reclaim<T>, W: Watch<T>>(
        &mut self,
        words: &Words<T>,
        ender: &Ender<T, R>,
        aside: &mut Aside<'_, W>,
        pass: &mut Pass,
    )
        requires numbers { AreSlots self.old × (self.old.book.name ≡ words_book words.now) × KnowsLeast self.old }
        requires pass { IsPassOf words.now pass.old × IsSole pass.old.id × IsEnderOf words.now ender.now }
        requires queue { MayDrain T.row.coded.code (words_book words.now) aside.old.queue }
        ensures numbers { AreNumbers self.new × KeepsHere self.old self.new × KnowsLeast self.new }
        ensures on { KeepsOn pass.old pass.new × KeepsActive pass.old pass.new × KeepsIdle pass.old pass.new }
        ensures rest { AreOff pass.old → rest_of self.new.key ≡ [] }
        ensures aside { KeepsAside aside.old aside.new × MayDrain T.row.coded.code (words_book words.now) aside.new.queue }
        ensures goes { Goes T.row.coded.code R.puts W.told (λ st. Fits pass.old st × AreKeptOf self.old.kept.items st)
            (λ st. kept_in_turn st) pass.old pass.new (W.seen aside.old.watch.now) (W.seen aside.new.watch.now)
            aside.old.queue aside.new.queue }
    {
        self.attempt_all(words, ender, aside, pass);
        self.attempt_rest(words, ender, aside, pass);
        self.give_all(words, pass);
        self.least = 0;
    }

    // All that is not lost is reclaimed, but what the reclaimer puts meanwhile. It says whether all is.
    fn sweep_in_turn<R: Reclaim<T>, W: Watch<T>>(
        &mut self,
        words: &Words<T>,
        ender: &Ender<T, R>,
        aside: &mut Aside<'_, W>,
        pass: &mut Pass,
    ) -> bool
        requires numbers { AreNumbers self.old × (self.old.book.name ≡ words_book words.now) × KnowsLeast self.old }
        requires pass { IsPassOf words.now pass.old × IsSole pass.old.id × IsEnderOf words.now ender.now }
        requires queue { MayDrain T.row.coded.code (words_book words.now) aside.old.queue }
        ensures numbers { AreNumbers self.new × (self.new.book ≡ self.old.book) × KnowsLeast self.new }
        ensures sweeps { Sweeps pass.old pass.new result }
        ensures aside { KeepsAside aside.old aside.new × MayDrain T.row.coded.code (words_book words.now) aside.new.queue }
    {
        self.key.look(pass);
        self.recover_all(words, ender, aside, pass);
        self.reclaim_kept(words, ender, aside, pass);
        self.key.look(pass);
        self.all_here()
    }

    // And so does what the reclaimer puts. Nothing waits in the queue then.
    fn sweep_aside<R: Reclaim<T>, W: Watch<T>>(
        &mut self,
        words: &Words<T>,
        ender: &Ender<T, R>,
        aside: &mut Aside<'_, W>,
        pass: &mut Pass,
    ) -> bool
        requires numbers { AreNumbers self.old × (self.old.book.name ≡ words_book words.now) × KnowsLeast self.old }
        requires pass { IsPassOf words.now pass.old × IsSole pass.old.id × IsEnderOf words.now ender.now }
        requires queue { MayDrain T.row.coded.code (words_book words.now) aside.old.queue }
        ensures same { KeepsAside aside.old aside.new }
        ensures numbers { AreNumbers self.new × (self.new.book ≡ self.old.book) × KnowsLeast self.new }
        ensures sweeps { Sweeps pass.old pass.new result }
        ensures drained { values_of (further_in aside.new.queue) ≡ [] }
    {
        let all = self.sweep_in_turn(words, ender, aside, pass);
        drain(words, ender, &mut aside.queue, aside.watch, pass);
        all
    }

    /// The slots of holders that were forgotten are found; then all that is not lost is reclaimed, also what the reclaimer puts. It says
    /// whether no number is in use then.
    ///
    /// The watch is told of each value that goes, in order. It takes no memory and waits for nobody, but for what watch and reclaimer do.
    pub(crate) fn sweep<R: Reclaim<T>, W: Watch<T>>(
        &mut self,
        words: &Words<T>,
        ender: &Ender<T, R>,
        watch: &mut W,
        pass: &mut Pass,
    ) -> bool
        requires numbers { AreNumbers self.old × IsLockFor words.now self.old × KnowsLeast self.old }
        requires pass { IsPassOf words.now pass.old × IsSole pass.old.id }
        requires ender { IsEnderOf words.now ender.now }
        ensures numbers { AreNumbers self.new × KnowsLeast self.new × IsLockFor words.now self.new }
        ensures sweeps { Sweeps pass.old pass.new result }
        ensures same_reference { watch.exit.ghost_name ≡ watch.entry.ghost_name }
    {
        self.book.agree(&words.blocks.book);
        let queue = Further::new(pass);
        let mut aside = Aside {
            queue,
            watch: &mut *watch,
        };
        self.sweep_aside(words, ender, &mut aside, pass)
    }

    // What lies in places is reclaimed, and what slots left, but what the reclaimer puts meanwhile. Nothing lies in any place then.
    fn reclaim_in_turn<R: Reclaim<T>, W: Watch<T>>(
        &mut self,
        words: &Words<T>,
        ender: &Ender<T, R>,
        places: &mut Vec<Option<Place<T>>>,
        aside: &mut Aside<'_, W>,
        pass: &mut Pass,
    )
        requires numbers { AreNumbers self.old × (self.old.book.name ≡ words_book words.now) × KnowsLeast self.old }
        requires pass { IsPassOf words.now pass.old × IsSole pass.old.id × IsEnderOf words.now ender.now }
        requires held { IsSomeHeld T.row.coded.code pass.old (MayGo pass.old places.old.items) }
        requires queue { MayDrain T.row.coded.code (words_book words.now) aside.old.queue }
        ensures aside { KeepsAside aside.old aside.new × MayDrain T.row.coded.code (words_book words.now) aside.new.queue }
        ensures numbers { AreNumbers self.new × (self.new.book ≡ self.old.book) × KnowsLeast self.new }
        ensures places { (s : ℕ) → get_or places.new.items s None ≡ None }
        ensures goes { Goes T.row.coded.code R.puts W.told (MayGo pass.old places.old.items) (λ st. in_turn st)
            pass.old pass.new (W.seen aside.old.watch.now) (W.seen aside.new.watch.now) aside.old.queue aside.new.queue }
    {
        self.part_all(words, ender, places, aside, pass);
        self.reclaim_kept(words, ender, aside, pass);
    }

    // And so is what the reclaimer puts.
    fn reclaim_all<R: Reclaim<T>, W: Watch<T>>(
        &mut self,
        words: &Words<T>,
        ender: &Ender<T, R>,
        places: &mut Vec<Option<Place<T>>>,
        aside: &mut Aside<'_, W>,
        pass: &mut Pass,
    )
        requires numbers { AreNumbers self.old × (self.old.book.name ≡ words_book words.now) × KnowsLeast self.old }
        requires pass { IsPassOf words.now pass.old × IsSole pass.old.id × IsLegalList (start pass.old.name) pass.old.seen }
        requires held { IsSomeHeld T.row.coded.code pass.old (MayGo pass.old places.old.items) × IsEnderOf words.now ender.now }
        requires queue { IsEmptyIn (words_book words.now) (further_in aside.old.queue) }
        ensures same { KeepsAside aside.old aside.new × IsSamePass pass.old pass.new }
        ensures numbers { AreNumbers self.new × (self.new.book ≡ self.old.book) × KnowsLeast self.new }
        ensures places { (s : ℕ) → get_or places.new.items s None ≡ None }
        ensures goes { GoesAll T.row.coded.code R.puts R.weight W.told (MayGo pass.old places.old.items) pass.old pass.new
            (W.seen aside.old.watch.now) (W.seen aside.new.watch.now) }
    {
        self.reclaim_in_turn(words, ender, places, aside, pass);
        drain(words, ender, &mut aside.queue, aside.watch, pass);
    }

    /// All is reclaimed, also what the reclaimer puts, and the watch is told of each value that is gone. Nothing lies in any place then. It
    /// takes no memory and waits for nobody, but for what watch and reclaimer do.
    pub fn clear<R: Reclaim<T>, W: Watch<T>>(
        &mut self,
        words: &Words<T>,
        ender: &Ender<T, R>,
        places: &mut Vec<Option<Place<T>>>,
        pass: &mut Pass,
        watch: &mut W,
    )
        requires numbers { AreNumbers self.old × (self.old.book.name ≡ words_book words.now) × KnowsLeast self.old }
        requires pass { IsPassOf words.now pass.old × IsSole pass.old.id }
        requires held { IsSomeHeld T.row.coded.code pass.old (MayGo pass.old places.old.items) }
        requires ender { IsEnderOf words.now ender.now }
        ensures numbers { AreNumbers self.new × (self.new.book ≡ self.old.book) × KnowsLeast self.new }
        ensures places { (s : ℕ) → get_or places.new.items s None ≡ None }
        ensures grows { IsSamePass pass.old pass.new × IsPrefix pass.old.seen pass.new.seen }
        ensures goes { GoesAll T.row.coded.code R.puts R.weight W.told (MayGo pass.old places.old.items) pass.old pass.new
            (W.seen watch.old) (W.seen watch.new) }
        ensures same_reference { watch.exit.ghost_name ≡ watch.entry.ghost_name }
    {
        let mut before = self.book.again();
        before.learn(pass);
        pass.learn(&before);
        let queue = Further::new(pass);
        let mut aside = Aside {
            queue,
            watch: &mut *watch,
        };
        self.reclaim_all(words, ender, places, &mut aside, pass);
        // The list goes on from what it was.
        pass.learn(&before);
        // It is taken apart, and so what the watch has seen is known.
        let Aside {
            queue: _queue,
            watch: _watch,
        } = aside;
    }
}

/// What is lent beside the numbers where they are swept.
#[derive(Drop)]
pub struct Heard<'h, P, W> {
    /// The pass.
    pub pass: &'h mut P,
    /// Who is told.
    pub watch: &'h mut W,
}

/// All slots that nobody has are swept: the work of a caller who has the collector alone.
#[derive(Drop)]
pub struct Sweeping<'a, T: Drop, R: Reclaim<T>> {
    /// The words of the collector.
    pub words: &'a Words<T>,
    /// Its reclaimer.
    pub ender: &'a Ender<T, R>,
}

impl<'a, 'h, 'p, T: Drop, R: Reclaim<T>, W: Watch<T>> LockWork<
    Numbers<T>,
    Heard<'h, Pass<'p>, W>,
    bool,
> for Sweeping<'a, T, R> {
    ghost may = { λ work numbers heard. IsLockFor work.words.now numbers × IsPassOf work.words.now heard.pass.now
        × IsSole heard.pass.now.id × IsEnderOf work.words.now work.ender.now };

    ghost gives = { λ work numbers numbers' heard heard' result. (heard'.pass.ghost_name ≡ heard.pass.ghost_name)
        × (heard'.watch.ghost_name ≡ heard.watch.ghost_name) × Sweeps heard.pass.now heard'.pass.now result };

    fn work(self, numbers: &mut Numbers<T>, heard: &mut Heard<'h, Pass<'p>, W>) -> bool {
        numbers.sweep(self.words, self.ender, heard.watch, heard.pass)
    }
}
