//! The end of reclaiming all: what reclaimers put meanwhile was put apart, into a queue, and each value there goes to its reclaimer now.
//! None of them was ever named, so no event is made.
ghost use Rattle.std.specs.Prelude.{◌≡◌, ◌≢◌, ◌++◌, ◌∷◌, [], ℕ, List};
ghost use base.Fml.{ftrue};
ghost use base.Stored.{coded×, coded_list, coded_ℕ};
ghost use Rattle.seize_model.specs.Waiting.Further.{gone_from, put_by};
ghost use Rattle.seize_book.specs.Values.{values_of};
ghost use Rattle.seize_calls.specs.Furthers.{further_in};
ghost use Rattle.seize_calls.specs.Handing.{IsServed};
ghost use Rattle.seize_words.specs.Chunks.{blocks_book};
ghost use Rattle.seize_words.specs.Joined.{words_book};
ghost use Rattle.seize_parts.specs.Aparts.{AreWaiting};
ghost use Rattle.seize_parts.specs.Enders.{IsEnderIn, IsEnderOf};
ghost use Rattle.seize_parts.specs.Told.{told_of};

use crate::block::Owned;
use crate::ender::Ender;
use crate::reclaim::{Further, Reclaim, Watch};
use seize_calls::further as chain;
use seize_words::blocks::Blocks;
use seize_words::book::Pass;
use seize_words::words::Words;
use std::marker::{Model, PhantomData};

/// The values that wait in a queue, each with its kind. It has no bytes.
struct Waiting<T> {
    marker: PhantomData<T>,
    /// They are there for clauses alone.
    ghost values: { List (T × ℕ) } by { coded_list (coded× T.code coded_ℕ) },
}

impl<T> Model for Waiting<T> {
    ghost also_owns = { λ _. ftrue };
}

impl<T> Drop for Waiting<T> {
    fn drop(self) {
        let Waiting { marker: _ } = self;
    }
}

impl<T> Waiting<T> {
    // There are such, and these are they. It does nothing when the program runs.
    fn of(_queue: &chain::Further) -> Waiting<T>
        requires { (vs : List (T × ℕ)) × AreWaiting T.row.coded.code _queue.now vs }
        ensures { AreWaiting T.row.coded.code _queue.now result.values }
    {
        Waiting {
            marker: PhantomData,
        }
    }
}

// The first value of the queue, which there is, goes to its reclaimer, with its kind. The watch is told of it before. What is put with it
// comes last.
fn give_up<T: Drop, R: Reclaim<T>, W: Watch<T>>(
    blocks: &Blocks<T>,
    ender: &Ender<T, R>,
    queue: &mut chain::Further,
    watch: &mut W,
    pass: &mut Pass,
)
    requires book { blocks_book blocks.now ≡ pass.old.name }
    requires ender { IsEnderIn (blocks_book blocks.now) ender.now }
    requires queue { IsServed (further_in queue.old) (blocks_book blocks.now) × (values_of (further_in queue.old) ≢ []) }
    ensures pass { pass.new ≡ pass.old }
    ensures same_reference { watch.exit.ghost_name ≡ watch.entry.ghost_name }
    ensures served { IsServed (further_in queue.new) (blocks_book blocks.now) }
    ensures goes { (v : T × ℕ) (vs : List (T × ℕ)) → AreWaiting T.row.coded.code queue.old (v ∷ vs)
        → (W.seen watch.new ≡ W.told (W.seen watch.old) v.0) × AreWaiting T.row.coded.code queue.new (vs ++ put_by R.puts v) }
{
    let (mut key, number, kept) = queue.next(blocks);
    let permit = key.permit();
    let block = blocks.withdraw(number, &mut key, pass);
    let value = Owned::of(key, block, &blocks.book).into_value();
    watch.gone(&value);
    ender.permits.check(permit);
    let mut put = Further::new(queue.none(), blocks, &ender.permits, kept);
    ender.reclaimer.reclaim(kept, value, &mut put);
    queue.append(blocks, &mut put.chain);
}

/// Takes what waits in the queue from its front: each value goes to the collector's reclaimer, with its kind, and what that puts comes
/// last, until none is left. The watch is told of each value, in order, just before it goes. What is put weighs less, so this ends.
///
/// It makes no event. It takes no memory and waits for nobody, but for what watch and reclaimer do.
pub(crate) fn drain<T: Drop, R: Reclaim<T>, W: Watch<T>>(
    words: &Words<T>,
    ender: &Ender<T, R>,
    queue: &mut chain::Further,
    watch: &mut W,
    pass: &mut Pass,
)
    requires words { words_book words.now ≡ pass.old.name }
    requires ender { IsEnderOf words.now ender.now }
    requires queue { IsServed (further_in queue.old) (words_book words.now) }
    requires waits { (vs : List (T × ℕ)) × AreWaiting T.row.coded.code queue.old vs }
    ensures pass { pass.new ≡ pass.old }
    ensures same_reference { watch.exit.ghost_name ≡ watch.entry.ghost_name }
    ensures empty { values_of (further_in queue.new) ≡ [] }
    ensures told { (vs : List (T × ℕ)) → AreWaiting T.row.coded.code queue.old vs
        → W.seen watch.new ≡ told_of W.told (W.seen watch.old) (gone_from R.puts R.weight vs) }
{
    let blocks = &words.blocks;
    let mut _waiting: Waiting<T> = Waiting::of(queue);
    while !queue.is_empty() {
        give_up(blocks, ender, queue, watch, pass);
        _waiting = Waiting::of(queue);
    }
}
