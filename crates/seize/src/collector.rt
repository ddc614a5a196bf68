//! The collector: who makes one, what it is asked, and how a thread gets a slot and a pass of it.
ghost use Rattle.std.specs.Prelude.{◌≡◌, box_value, false};
ghost use Rattle.seize_words.specs.Joined.{words_book};
ghost use Rattle.seize_words.specs.Rows.{AreShared};
ghost use Rattle.seize_parts.specs.Enders.{IsEnderOf};

mod ids;

use crate::block::{Owned, Unlinked};
use crate::guard::OwnedGuard;
use crate::registration::Registration;
pub use ids::IdSource;
use seize_cells::Lock;
use seize_guards::block::{add_block, from_owned};
use seize_guards::holders::{enter_owned, register};
use seize_guards::parts::{Home, Parts};
use seize_machine::machine;
use seize_parts::ender::Ender;
use seize_parts::ending::end_all;
use seize_parts::numbers::Numbers;
use seize_parts::numbers::reclaiming::{Heard, Sweeping};
use seize_parts::reclaim::{Boxed, Reclaim, Watch};
use seize_table::Refusal;
use seize_words::book::{Pass, Porter, Seen, Stay};
use seize_words::words::Words;
use std::alloc::Global;
use std::fmt;
use std::sync::Wait;

/// Keeps retired values until no slot that was active at their retirement can read them any more. Threads share it by `&`.
///
/// It has numbered links, which hold a block each or nothing, and slots, which threads have by their registrations. It follows the Hyaline
/// scheme with one list of waiting batches for each slot.
///
/// Where nobody shares it, `reclaim_all` reclaims what waits in the batches of slots, also of those that were forgotten, and what slots
/// left as they ended. The drop does that too, and then each value in a link goes to the reclaimer. It takes no memory and waits for
/// nobody, but for what the reclaimer does.
///
/// A registration or a guard is lost where a type that holds it is given to `mem::forget`. Then values leak, with the memory of their
/// rows of the store and of the slot's shelf:
///
/// - those in the batch of a lost registration's slot, and if no other slot was made, those in the links too;
/// - where a guard is lost, or a registration with a guard, what waits for the slot or is attempted later: the slot is active for good.
pub struct Collector<T: Drop, R: Reclaim<T> = Boxed> {
    // What slots and guards borrow.
    pub(crate) parts: Parts<T, R>,
    // Who makes passes, out of their reach.
    pub(crate) porter: Porter,
    pub(crate) alloc: Global,
    ghost lends: { (porter.name ≡ words_book parts.words) × (porter.size ≡ parts.words.size) × (porter.home ≡ false) },
}

impl<T: Drop, R: Reclaim<T>> Home<T> for Collector<T, R> {
    ghost use Rattle.seize.specs.Collectors.{its_words};

    ghost its_words = { λ collector. its_words collector };
}

impl<T: Drop> Collector<T> {
    ghost use Rattle.std.specs.Prelude.{◌+◌, max as greater, IfOk, IfErr};
    ghost use Rattle.std.specs.Int.{IsNextPowerOfTwo};
    ghost use Rattle.seize.specs.Collectors.{BeginsEmpty, IsRefusalFor, its_id, its_most, its_size};

    /// A collector with no slot and this many empty links. Its batch size is `max(32, processors)`, rounded up to a power of two. It asks
    /// for the memory of its links, of the entries of its table of slots for so many processors, and of a box for its reclaimer.
    ///
    /// # Errors
    ///
    /// In this order: `TooManyProcessors` for more than 2^63 processors, `NoNumbers` where the source has no id left, `NoMemory` where the
    /// allocator refuses. The source gives its next id only where there is no error.
    pub fn new(
        alloc: Global,
        ids: &mut IdSource,
        processors: usize,
        links: usize,
    ) -> Result<Collector<T>, Refusal>
        ensures made { IfOk result (λ made. IsNextPowerOfTwo (greater 32 processors) (its_size made) × BeginsEmpty made links
            × (its_most made ≡ its_size made) × (its_id made ≡ ids.old) × (ids.new ≡ ids.old + 1)) }
        ensures refused { IfErr result (λ refusal. (ids.new ≡ ids.old) × IsRefusalFor processors ids.old refusal) }
    {
        Collector::with_reclaimer(alloc, ids, processors, links, Boxed)
    }
}

impl<T: Drop, R: Reclaim<T>> Collector<T, R> {
    ghost use Rattle.std.specs.Prelude.{◌+◌, ◌≤◌, ◌^◌, max as greater, IfOk, IfErr};
    ghost use Rattle.std.specs.Int.{IsNextPowerOfTwo};
    ghost use Rattle.seize_table.specs.declared.refusal.Refusal.TheVariants.{NoMemory as no_memory};
    ghost use Rattle.seize_parts.specs.Blocks.{HasContent, content};
    ghost use Rattle.seize_guards.specs.Links.{IsUnlinkedOf, unlinked_name};
    ghost use Rattle.seize.specs.Collectors.{BeginsEmpty, BelongsTo, IsBlockOf, IsNewPassOf, IsPassOf, IsRefusalFor, its_book, its_id, its_links, its_most, its_size, its_words, seen_by};
    ghost use Rattle.seize_guards.specs.Registrations.{registered_home, registered_in, registered_slot};
    ghost use Rattle.seize_book.specs.Porters.{Shuts};
    ghost use Rattle.seize_parts.specs.Makes.{MakesNone, TakesNumber};
    ghost use Rattle.seize_parts.specs.Puts.{PutBy};
    ghost use Rattle.seize_parts.specs.Numbers.{AreNumbers, IsLockFor};

    /// The same, with a reclaimer of the caller's own: each value that was retired goes to it once no slot can read it any more, and so
    /// does what the links hold when the collector is dropped, as of kind 0.
    ///
    /// # Errors
    ///
    /// As with `new`.
    pub fn with_reclaimer(
        alloc: Global,
        ids: &mut IdSource,
        processors: usize,
        links: usize,
        reclaimer: R,
    ) -> Result<Collector<T, R>, Refusal>
        ensures made { IfOk result (λ made. IsNextPowerOfTwo (greater 32 processors) (its_size made) × BeginsEmpty made links
            × (its_most made ≡ its_size made) × (its_id made ≡ ids.old) × (ids.new ≡ ids.old + 1)) }
        ensures refused { IfErr result (λ refusal. (ids.new ≡ ids.old) × IsRefusalFor processors ids.old refusal) }
    {
        let (id, size) = ids.begin(processors)?;
        let collector = Collector::with(alloc, id, size, processors, links, reclaimer)?;
        ids.give();
        Ok(collector)
    }

    // One with this id and batch size.
    fn with(
        alloc: Global,
        id: u64,
        size: usize,
        processors: usize,
        links: usize,
        reclaimer: R,
    ) -> Result<Collector<T, R>, Refusal>
        requires { processors ≤ 2 ^ 63 }
        ensures made { IfOk result (λ made. (its_size made ≡ size) × (its_most made ≡ size) × BeginsEmpty made links × (its_id made ≡ id)) }
        ensures refused { IfErr result (λ refusal. refusal ≡ no_memory) }
    {
        let (words, permits, pairs, mut porter, key, next) = Words::new(
            alloc, processors, links, size, id,
        )?;
        let ender = Ender {
            reclaimer,
            permits,
            pairs,
        };
        let Ok(ender) = Box::new(alloc, ender) else {
            return Err(Refusal::NoMemory);
        };
        porter.leave_home();
        let numbers = Numbers::new(alloc, key, next, &words.blocks.book, &mut porter.pass());
        let parts = Parts {
            words,
            numbers: Lock::new(numbers),
            ender,
        };
        Ok(Collector {
            parts,
            porter,
            alloc,
        })
    }

    /// With batches of this many values, not rounded. 0 serves as 1. The greatest size that the collector ever had, which bounds batches at
    /// rest (`laws`), is this one then, if it is greater.
    pub fn batch_size(self, n: usize) -> Collector<T, R>
        ensures same { (its_book result ≡ its_book self) × (seen_by result ≡ seen_by self) × (its_id result ≡ its_id self) }
        ensures size { (its_size result ≡ n) × (its_most result ≡ greater (its_most self) n) }
    {
        let Collector {
            parts,
            mut porter,
            alloc,
        } = self;
        let Parts {
            mut words,
            numbers,
            ender,
        } = parts;
        words.set_size(&mut porter, n);
        let parts = Parts {
            words,
            numbers,
            ender,
        };
        Collector {
            parts,
            porter,
            alloc,
        }
    }

    /// Its parts, for one caller's hands. The first pass is alone.
    pub(crate) fn into_parts(
        self,
    ) -> (
        Words<T>,
        Pass<'static>,
        Numbers<T>,
        Box<Ender<T, R>>,
        Global,
    )
        ensures words { (words_book result.0 ≡ its_book self) × (result.0.size ≡ its_size self) × AreShared result.0.links
            × (result.0.sizes.most ≡ its_most self) × (result.0.id ≡ its_id self) }
        ensures pass { IsPassOf result.0 result.1 × Shuts self.porter result.1 }
        ensures numbers { AreNumbers result.2 × IsLockFor result.0 result.2 }
        ensures ender { IsEnderOf result.0 (box_value result.3) }
    {
        let Collector {
            parts,
            porter,
            alloc,
        } = self;
        let Parts {
            words,
            numbers,
            ender,
        } = parts;
        (words, porter.shut(), numbers.into_value(), ender, alloc)
    }

    /// How many links it has.
    pub fn links(&self) -> usize
        ensures { result ≡ its_links (its_words self.now) }
    {
        self.parts.words.links.len()
    }

    /// The id that its source gave it.
    pub fn id(&self) -> u64
        ensures { result ≡ its_id self.now }
    {
        self.parts.words.id
    }

    /// A new pass, with which nothing was made. It lasts for as long as the collector is shared, and may go to another thread.
    ///
    /// It takes no memory, and does nothing when the program runs.
    pub fn pass(&self) -> Pass<'_>
        ensures { IsNewPassOf self.now result }
    {
        self.porter.pass()
    }

    /// A block of this value, from any thread, whether it has a slot or not. It asks for memory only where the store has no free place.
    ///
    /// # Errors
    ///
    /// `NoMemory` where that growth was refused; the value comes back.
    pub fn owned(&self, value: T) -> Result<Owned<T>, (Refusal, T)>
        ensures made { IfOk result (λ owned. IsBlockOf (its_words self.now) owned × (content owned ≡ value)) }
        ensures refused { IfErr result (λ refused. (refused.0 ≡ no_memory) × (refused.1 ≡ value)) }
    {
        add_block(&self.parts.words, value)
    }

    /// A block that was never in a link, ready to be retired. The block is of this collector, with each block inside it that the
    /// reclaimer's `owners` names. No event is made.
    ///
    /// It takes no memory and waits for nobody.
    pub fn unlinked(&self, owned: Owned<T>) -> Unlinked<'_, T>
        requires { BelongsTo R.owners (its_words self.now) owned }
        ensures of { IsUnlinkedOf (its_words self.now) result }
        ensures content { HasContent T.row.coded.code (unlinked_name result) (content owned) }
    {
        from_owned(owned, &self.parts)
    }

    /// A slot for the calling thread: that of the least number that is not in use. What slots left in their batches as they ended is its
    /// batch then. Where that has the batch size or more, it is attempted: the events `Take` to `Return`; else `Take` alone. What is
    /// reclaimed in the call goes to the reclaimer there, outside the lock of the numbers.
    ///
    /// It waits for other threads that register or end, and looks through the slots that were made, from the first one that may be free. An
    /// attempt reads the head of each slot that was made, and tries again where another thread changes one. It asks for memory only where
    /// no slot is left that ended. Values that other threads retired may end in this call: no lock may be held that their `Drop` takes.
    ///
    /// # Errors
    ///
    /// `NoMemory` where the allocator refuses. No event was made then. It is never `NoNumbers`: the list of slots has room for fewer than
    /// 2^63, so memory is refused before the 2^64 - 32 numbers are all in use.
    pub fn register<W: Wait>(
        &self,
        rt: &W,
        pass: &mut Pass,
    ) -> Result<Registration<'_, T, R>, Refusal>
        requires pass { IsPassOf (its_words self.now) pass.old }
        ensures made { IfOk result (λ made. (registered_in made ≡ its_words self.now) × (registered_home made ≡ self.now)
            × TakesNumber (PutBy T.row.coded.code R.puts) (registered_slot made) pass.old pass.new) }
        ensures refused { IfErr result (λ refusal. MakesNone pass.old pass.new × (refusal ≡ no_memory)) }
    {
        register(self, &self.parts, rt, self.alloc, pass)
    }
}

impl<T: Drop, R: Reclaim<T>> Collector<T, R> {
    ghost use Rattle.std.specs.Prelude.{IfErr, IfOk};
    ghost use Rattle.seize_table.specs.declared.refusal.Refusal.TheVariants.{NoMemory as no_memory};
    ghost use Rattle.seize.specs.Collectors.{IsPassOf, its_most, its_words, seen_by};
    ghost use Rattle.seize_parts.specs.Laws.{HaveContents, LawsHold};
    ghost use Rattle.seize_parts.specs.Rules.{KeepsSince};
    ghost use Rattle.seize_parts.specs.Makes.{MakesNone, TakesAndEnters};
    ghost use Rattle.seize_parts.specs.Puts.{PutBy};
    ghost use Rattle.seize_guards.specs.Guards.{owned_collector, owned_home, owned_slot};

    /// A guard that threads share, with a slot of its own: that of the least number that is not in use, which is taken as `register` takes
    /// it, and then enters. So the guard holds back nothing of what slots left.
    ///
    /// It waits as `register` does, and asks for memory where that does; then it makes one atomic swap.
    ///
    /// # Errors
    ///
    /// `NoMemory` where the allocator refuses, as with `register`. No event was made then.
    #[inline(always)]
    pub fn enter_owned<W: Wait>(
        &self,
        rt: &W,
        pass: &mut Pass,
    ) -> Result<OwnedGuard<'_, T, R>, Refusal>
        requires pass { IsPassOf (its_words self.now) pass.old }
        ensures made { IfOk result (λ guard. (owned_collector guard ≡ its_words self.now) × (owned_home guard ≡ self.now)
            × TakesAndEnters (PutBy T.row.coded.code R.puts) (owned_slot guard) pass.old pass.new) }
        ensures refused { IfErr result (λ refusal. MakesNone pass.old pass.new × (refusal ≡ no_memory)) }
    {
        enter_owned(self, &self.parts, rt, self.alloc, pass)
    }

    /// The pass looks at the list of events. Every law of the machine holds of what it has seen then, which goes on from what it had seen.
    /// So each value, whoever retired it, is reclaimed there at most once, and only after each slot that was active at its retirement has
    /// left or refreshed. Each of its events that may fill a batch has at most the greatest batch size that the collector ever had, so
    /// batches at rest are below that size, or below the number of slots (`Quiet`). And each name in it that was ever in a link, or
    /// retired, says a content of type `T`.
    ///
    /// Each exchange that was won since the collector was last shared, by whoever, meets the rule of its links (`Puts::keeps`). A call by
    /// `&mut` ends the sharing: `learn`, `reclaim_all`, `alone`. What one caller did with an `Alone` is not among these exchanges, and the
    /// drop is not bound either.
    ///
    /// It makes no event, and does nothing when the program runs: its contract is the laws.
    pub fn laws(&self, pass: &mut Pass)
        requires pass { IsPassOf (its_words self.now) pass.old }
        ensures none { MakesNone pass.old pass.new }
        ensures laws { LawsHold (its_most self.now) pass.new }
        ensures contents { HaveContents T.row.coded.code pass.new }
        ensures rule { KeepsSince T.row.coded.code R.keeps (seen_by self.now) pass.new }
    {
        machine::laws();
        self.parts.ender.look(&self.porter, pass);
        self.parts.words.sizes.bound(pass);
    }
}

// All slots that nobody has are swept by a pass that is alone.
#[derive(Drop)]
struct Sweep<'a, 'e, 'n, 'w, T: Drop, R: Reclaim<T>, W> {
    words: &'a Words<T>,
    ender: &'e Ender<T, R>,
    numbers: &'n mut Lock<Numbers<T>>,
    watch: &'w mut W,
}

impl<'a, 'e, 'n, 'w, T: Drop, R: Reclaim<T>, W: Watch<T>> Stay<bool>
    for Sweep<'a, 'e, 'n, 'w, T, R, W> {
    ghost use Rattle.seize_book.specs.Tokens.{IsSole};
    ghost use Rattle.seize_calls.specs.Slots.{IsPassOf};
    ghost use Rattle.seize_parts.specs.Sweeps.{Sweeps};

    ghost may = { λ sweep pass. IsPassOf sweep.words.now pass × IsSole pass.id × IsEnderOf sweep.words.now sweep.ender.now
        × (sweep.numbers.now ≡ (words_book sweep.words.now).family) };

    ghost gives = { λ sweep sweep' pass pass' result. (sweep'.numbers ≡ sweep.numbers)
        × (sweep'.watch.ghost_name ≡ sweep.watch.ghost_name) × Sweeps pass pass' result };

    fn stay(&mut self, pass: &mut Pass<'static>) -> bool {
        let (words, ender) = (self.words, self.ender);
        let mut heard = Heard {
            pass: &mut *pass,
            watch: &mut *self.watch,
        };
        self.numbers.with_mut(Sweeping { words, ender }, &mut heard)
    }
}

impl<T: Drop, R: Reclaim<T>> Collector<T, R> {
    ghost use Rattle.seize.specs.Collectors.{its_book};
    ghost use Rattle.seize.specs.Reclaims.{Learns, ReclaimsAll};

    /// An empty note of this collector's list. It learns what a pass has seen (`Seen::learn`, which forgets what it knew beyond that), and
    /// outlives the pass: another pass learns from it (`Pass::learn`), and so does the collector. It has no bytes.
    pub fn seen(&self) -> Seen
        ensures { result.name ≡ its_book self.now }
    {
        self.parts.words.blocks.book.again()
    }

    /// From now on the collector knows all events that the note knows, and all that it knew; so does each pass that it gives. It is there
    /// for proofs: it makes no event, and changes nothing when the program runs. Before `reclaim_all` it is called with the note of each
    /// thread.
    pub fn learn(&mut self, known: &Seen)
        requires known { known.now.name ≡ its_book self.old }
        ensures { Learns self.old self.new known.now }
    {
        let porter = &mut self.porter;
        porter.come_home();
        porter.covers(known);
        porter.leave_home();
    }

    /// Reclaims what was retired, and answers whether that is all. The answer is true where no number is in use afterwards: then each value
    /// that was ever retired was reclaimed, as the list says; tests show that it went to the reclaimer. What the links hold stays, and the
    /// collector may be shared again.
    ///
    /// Slots that were forgotten leave first: those of registrations and guards that `forget` spent, and of registrations that ended with
    /// the answer false. Then each of these slots attempts its batch, in order of their numbers. What slots left as they ended is attempted
    /// next, by the slot of a free number, and all numbers go back. Then what the reclaimer put meanwhile goes to it, oldest first; what it
    /// puts with these joins the end, until none is left. The watch is told of each value, in order, just before it goes to the reclaimer.
    ///
    /// The answer is false, then and later, as tests show, where a registration or a guard is lost: a type that holds it was given to
    /// `mem::forget`. What is in that slot's batch stays. If the slot has a guard, what waits for it or is attempted later stays as well.
    ///
    /// It takes no memory and waits for nobody, but for what watch and reclaimer do. It takes the lock of the shelf of each slot that was
    /// made. Each slot that was forgotten makes two atomic swaps and an attempt of its batch, which looks at the heads of all slots; one
    /// that was forgotten with a guard makes one swap more. Where something was left, one slot more makes two swaps and an attempt of that.
    pub fn reclaim_all<W: Watch<T>>(&mut self, watch: &mut W) -> bool
        ensures reclaims { ReclaimsAll self.old self.new result }
        ensures same_reference { watch.exit.ghost_name ≡ watch.entry.ghost_name }
    {
        let parts = &mut self.parts;
        let mut sweep = Sweep {
            words: &parts.words,
            ender: &parts.ender,
            numbers: &mut parts.numbers,
            watch: &mut *watch,
        };
        let all = self.porter.stay(&mut sweep);
        self.porter.leave_home();
        all
    }
}

/// Two collectors of one id source are equal where they are one.
impl<T: Drop, R: Reclaim<T>> PartialEq for Collector<T, R> {
    ghost use Rattle.std.specs.Prelude.{◌==◌};
    ghost use Rattle.std.proofs.Common.{rules};
    ghost use Rattle.std.specs.Cmp.Rules.{comparing};
    ghost use Rattle.seize.specs.Collectors.{its_id};

    ghost eq = { λ a b. its_id a == its_id b };

    ghost laws = { Prim.search (comparing, rules) };

    fn eq(&self, other: &Collector<T, R>) -> bool {
        self.id() == other.id()
    }
}

impl<T: Drop, R: Reclaim<T>> Eq for Collector<T, R> {
    ghost use Rattle.std.proofs.Common.{rules};
    ghost use Rattle.std.specs.Cmp.Rules.{comparing};

    ghost laws = { Prim.search (comparing, rules) };
}

/// `Collector { batch_size: N }`, on one line.
impl<T: Drop, R: Reclaim<T>> fmt::Debug for Collector<T, R> {
    ghost use Rattle.seize.specs.Collectors.{collector_text, its_size};
    ghost use Rattle.std.specs.Prelude.{Some};

    ghost debug_output = { λ collector. Some (collector_text (its_size collector)) };

    fn fmt<W: fmt::Write>(&self, f: &mut fmt::Formatter<W>) -> fmt::Result {
        let size = self.parts.words.size;
        write!(f, "Collector {{ batch_size: {size} }}")
    }
}

impl<T: Drop, R: Reclaim<T>> Drop for Collector<T, R> {
    fn drop(self) {
        let Collector {
            parts,
            mut porter,
            alloc: _,
        } = self;
        let Parts {
            mut words,
            numbers,
            ender,
        } = parts;
        words.set_size(&mut porter, 1);
        end_all(&words, &ender, numbers.into_value(), porter.shut());
    }
}
