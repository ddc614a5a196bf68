//! New collectors in one caller's hands. Each is made of its parts, so that its state is known: it is the model's new one.
ghost use Rattle.std.specs.Prelude.{◌≡◌, ◌≤◌, ◌^◌, [], IfErr, IfOk};
ghost use Rattle.seize_model.specs.Waiting.State.{new};
ghost use Rattle.seize_table.specs.declared.refusal.Refusal.TheVariants.{NoMemory as no_memory};

use crate::alone::Alone;
use crate::alone::hands::Hands;
use crate::collector::IdSource;
use seize_parts::ender::Ender;
use seize_parts::numbers::Numbers;
use seize_parts::reclaim::{Boxed, Reclaim};
use seize_table::Refusal;
use seize_words::book::Porter;
use seize_words::words::Words;
use std::alloc::Global;
use std::marker::Brand;

impl<T: Drop> Alone<T> {
    ghost use Rattle.std.specs.Prelude.{◌+◌, max as greater};
    ghost use Rattle.std.specs.Int.{IsNextPowerOfTwo};
    ghost use Rattle.seize.specs.Collectors.{IsRefusalFor};

    /// A collector in one caller's hands with no slot and this many empty links. Its batch size, and the memory that it asks for, are as of
    /// `Collector::new`.
    ///
    /// # Errors
    ///
    /// As `Collector::new`.
    pub fn new(
        alloc: Global,
        ids: &mut IdSource,
        processors: usize,
        links: usize,
    ) -> Result<Alone<T>, Refusal>
        ensures made { IfOk result (λ made. IsNextPowerOfTwo (greater 32 processors) made.size × (made.links ≡ links) × (made.seen ≡ [])
            × (made.most ≡ made.size) × (made.id ≡ ids.old) × (ids.new ≡ ids.old + 1)) }
        ensures state { IfOk result (λ made. made.state ≡ new made.size links) }
        ensures refused { IfErr result (λ refusal. (ids.new ≡ ids.old) × IsRefusalFor processors ids.old refusal) }
    {
        Alone::with_reclaimer(alloc, ids, processors, links, Boxed)
    }
}

impl<T: Drop, R: Reclaim<T>> Alone<T, R> {
    ghost use Rattle.std.specs.Prelude.{◌+◌, max as greater};
    ghost use Rattle.std.specs.Int.{IsNextPowerOfTwo};
    ghost use Rattle.seize.specs.Alones.{resized};
    ghost use Rattle.seize.specs.Collectors.{IsRefusalFor};

    /// The same, with a reclaimer of the caller's own: see `Collector::with_reclaimer`.
    ///
    /// # Errors
    ///
    /// As `Collector::new`.
    pub fn with_reclaimer(
        alloc: Global,
        ids: &mut IdSource,
        processors: usize,
        links: usize,
        reclaimer: R,
    ) -> Result<Alone<T, R>, Refusal>
        ensures made { IfOk result (λ made. IsNextPowerOfTwo (greater 32 processors) made.size × (made.links ≡ links) × (made.seen ≡ [])
            × (made.most ≡ made.size) × (made.id ≡ ids.old) × (ids.new ≡ ids.old + 1)) }
        ensures state { IfOk result (λ made. made.state ≡ new made.size links) }
        ensures refused { IfErr result (λ refusal. (ids.new ≡ ids.old) × IsRefusalFor processors ids.old refusal) }
    {
        let (id, size) = ids.begin(processors)?;
        let alone = Alone::with(alloc, id, size, processors, links, reclaimer)?;
        ids.give();
        Ok(alone)
    }

    // One with this id and batch size.
    fn with(
        alloc: Global,
        id: u64,
        size: usize,
        processors: usize,
        links: usize,
        reclaimer: R,
    ) -> Result<Alone<T, R>, Refusal>
        requires { processors ≤ 2 ^ 63 }
        ensures made { IfOk result (λ made. (made.size ≡ size) × (made.most ≡ size) × (made.id ≡ id) × (made.links ≡ links)
            × (made.seen ≡ [])) }
        ensures state { IfOk result (λ made. made.state ≡ new size links) }
        ensures refused { IfErr result (λ refusal. refusal ≡ no_memory) }
    {
        let (mut words, permits, pairs, porter, key, next) = Words::new(
            alloc, processors, links, size, id,
        )?;
        let ender = Ender {
            reclaimer,
            permits,
            pairs,
        };
        let Ok(ender) = Box::new(alloc, ender) else {
            return Err(Refusal::NoMemory);
        };
        let mut pass = porter.shut();
        let numbers = Numbers::new(alloc, key, next, &words.blocks.book, &mut pass);
        let hands = Hands::first::<Brand, (usize, usize)>(&pass, &(size, links));
        words.links.rest(&mut pass);
        Ok(Alone {
            words,
            pass,
            numbers,
            places: Vec::new(alloc),
            made: 0,
            ender,
            alloc,
            hands,
        })
    }

    /// With batches of this many values, not rounded. 0 serves as 1.
    pub fn batch_size(self, n: usize) -> Alone<T, R>
        ensures { result ≡ resized self n }
    {
        let Alone {
            mut words,
            pass,
            numbers,
            places,
            made,
            ender,
            alloc,
            hands,
        } = self;
        let mut porter = Porter::again(pass);
        words.set_size(&mut porter, n);
        let pass = porter.shut();
        let hands = Hands::of::<Brand, usize>(&hands, &pass, &n);
        Alone {
            words,
            pass,
            numbers,
            places,
            made,
            ender,
            alloc,
            hands,
        }
    }
}
