//! The works by their names. `blocks` makes and ends blocks, `lookups` finds them, `swaps` swaps a word, `guards` makes the calls of
//! registrations and guards, `nests` retires values with blocks inside, `alone` is one caller, and `maps` has maps that threads share.
use crate::clock::{Report, Samples};
use crate::guards::{Job, ROW, Turns};
use crate::maps::{self, Map};
use crate::{alone, blocks, guards, lookups, nests, swaps};
use std::alloc::Global;
use std::io;
use std::rt::Clock;
use std::sync::Wait;
use std::thread::Threads;
use std::time::CpuClock;

/// How many links a thread goes on from one turn to the next where it has 1,024.
const STEP: u64 = 389;

/// How many owned guards stand in `EnterOwned64`.
const STANDING: u64 = 64;

/// What is timed.
#[derive(Clone, Copy)]
pub(crate) enum Work {
    /// A block made of a spot and emptied into it again.
    Make,
    /// A block made and ended, with no list of spots.
    MakeBare,
    /// A box made and ended.
    MakeBox,
    /// One thread makes boxes, and another ends them.
    PipeBox,
    /// 1,024 numbers looked up, and their headers read.
    Look,
    /// 1,024 numbers looked up with the tokens of their rows, a token for each 32, and their headers read.
    Token,
    /// 1,024 references followed, and what they lead to read.
    LookPlain,
    /// The same where what the references lead to lies as far apart as chunks do.
    LookWide,
    /// A word of the thread's own swapped.
    Swap,
    /// A registration enters, and its guard leaves.
    Enter,
    /// The same beside a guard that stands.
    Nested,
    /// An owned guard is made and leaves; nothing is left for it to take.
    EnterOwned,
    /// The same beside 64 owned guards that stand, so beside 64 active slots.
    EnterOwned64,
    /// A registration enters, reads the one link of all threads, and leaves.
    Read1,
    /// The same with 1,024 links, one after the other.
    Read1k,
    /// 1,024 links read, with the values there, by a registration that enters before and leaves after.
    See1k,
    /// A registration enters, puts a new block into the one link of all threads, retires what was there, and leaves. 32 fill a batch.
    Update1,
    /// The same with 1,024 links, one after the other.
    Update1k,
    /// The same where each value fills a batch.
    Update1kB1,
    /// `Update1k`, but that nine turns of ten read.
    Mix10,
    /// `Update1k`, but that every other turn reads.
    Mix50,
    /// `Update1k`, but that every tenth turn reads.
    Mix90,
    /// A new block retired that was in no link. 32 fill a batch; the registration enters before them and leaves after.
    Retire,
    /// The same where each value holds one more block, which its reclaimer puts. One thread does it.
    Further,
    /// A caller who has the collector alone puts a new block into the one link, and retires what was there. 32 fill a batch; the slot
    /// enters before them and leaves after.
    UpdateAlone,
    /// One thread puts new blocks into links, and another takes them out and retires them.
    Pipe,
    /// The one link of all threads swapped for nothing, with a guard for each swap.
    Exchange1,
    /// 1,024 links read, with the values there, by all threads under one guard.
    SharedRead,
    /// New blocks put into 1,024 links, and what was there retired, by all threads under one guard.
    SharedUpdate,
    /// A guard refreshes.
    Refresh,
    /// A guard reads the one link of all threads, and refreshes.
    ReadRefresh,
    /// A guard retires a new block that was in no link, and flushes.
    Flush,
    /// A map with 1,024 keys, of which nine turns of ten look one up, with a guard for each, and one puts a value under it.
    Map10,
    /// The same where every other turn puts a value in.
    Map50,
    /// `Map10` on the kit's map behind a `Mutex`.
    Mutex10,
    /// `Map50` on it.
    Mutex50,
    /// `Map10` on the kit's map behind an `RwLock`.
    RwLock10,
    /// `Map50` on it.
    RwLock50,
}

/// All of them.
const ALL: [Work; 38] = [
    Work::Make,
    Work::MakeBare,
    Work::MakeBox,
    Work::PipeBox,
    Work::Look,
    Work::Token,
    Work::LookPlain,
    Work::LookWide,
    Work::Swap,
    Work::Enter,
    Work::Nested,
    Work::EnterOwned,
    Work::EnterOwned64,
    Work::Read1,
    Work::Read1k,
    Work::See1k,
    Work::Update1,
    Work::Update1k,
    Work::Update1kB1,
    Work::Mix10,
    Work::Mix50,
    Work::Mix90,
    Work::Retire,
    Work::Further,
    Work::UpdateAlone,
    Work::Pipe,
    Work::Exchange1,
    Work::SharedRead,
    Work::SharedUpdate,
    Work::Refresh,
    Work::ReadRefresh,
    Work::Flush,
    Work::Map10,
    Work::Map50,
    Work::Mutex10,
    Work::Mutex50,
    Work::RwLock10,
    Work::RwLock50,
];

impl Work {
    pub(crate) fn named(word: &str) -> Option<Work> {
        ALL.iter().copied().find(|work| work.name() == word)
    }

    pub(crate) fn name(self) -> &'static str {
        match self {
            Work::Make => "Make",
            Work::MakeBare => "MakeBare",
            Work::MakeBox => "MakeBox",
            Work::PipeBox => "PipeBox",
            Work::Look => "Look",
            Work::Token => "Token",
            Work::LookPlain => "LookPlain",
            Work::LookWide => "LookWide",
            Work::Swap => "Swap",
            Work::Enter => "Enter",
            Work::Nested => "Nested",
            Work::EnterOwned => "EnterOwned",
            Work::EnterOwned64 => "EnterOwned64",
            Work::Read1 => "Read1",
            Work::Read1k => "Read1k",
            Work::See1k => "See1k",
            Work::Update1 => "Update1",
            Work::Update1k => "Update1k",
            Work::Update1kB1 => "Update1kB1",
            Work::Mix10 => "Mix10",
            Work::Mix50 => "Mix50",
            Work::Mix90 => "Mix90",
            Work::Retire => "Retire",
            Work::Further => "Further",
            Work::UpdateAlone => "UpdateAlone",
            Work::Pipe => "Pipe",
            Work::Exchange1 => "Exchange1",
            Work::SharedRead => "SharedRead",
            Work::SharedUpdate => "SharedUpdate",
            Work::Refresh => "Refresh",
            Work::ReadRefresh => "ReadRefresh",
            Work::Flush => "Flush",
            Work::Map10 => "Map10",
            Work::Map50 => "Map50",
            Work::Mutex10 => "Mutex10",
            Work::Mutex50 => "Mutex50",
            Work::RwLock10 => "RwLock10",
            Work::RwLock50 => "RwLock50",
        }
    }

    /// One thread, or two where one makes and another ends.
    pub(crate) fn least_threads(self) -> u64 {
        match self {
            Work::Pipe | Work::PipeBox => 2,
            _ => 1,
        }
    }

    /// How many threads it has, where the word asks for a number that it can have.
    pub(crate) fn threads(self, word: &str) -> Option<u64> {
        match (self, word) {
            (Work::Pipe | Work::PipeBox, "2") => Some(2),
            (Work::Pipe | Work::PipeBox, _) => None,
            (Work::Further | Work::UpdateAlone, "2" | "4") => None,
            (_, "1") => Some(1),
            (_, "2") => Some(2),
            (_, "4") => Some(4),
            _ => None,
        }
    }

    // What a thread does in it.
    fn turns(self) -> Turns {
        match self {
            Work::Enter => Turns::of(Job::Enter, 50_000, 1),
            Work::Nested => Turns::of(Job::Nested, 100_000, 1),
            Work::EnterOwned | Work::EnterOwned64 => Turns::of(Job::EnterOwned, 10_000, 1),
            Work::Read1k => Turns::visits(STEP, 32, 0),
            Work::See1k | Work::SharedRead => Turns::see(),
            Work::Update1 => Turns::visits(0, 32, 100),
            Work::Update1k | Work::SharedUpdate => Turns::visits(STEP, 32, 100),
            Work::Update1kB1 => Turns::visits(STEP, 1, 100),
            Work::Mix10 => Turns::visits(STEP, 32, 10),
            Work::Mix50 => Turns::visits(STEP, 32, 50),
            Work::Mix90 => Turns::visits(STEP, 32, 90),
            Work::Retire => Turns::retire(),
            Work::Exchange1 => Turns::of(Job::Exchange, 50_000, 1),
            Work::Refresh => Turns::of(Job::Refresh, 50_000, 1),
            Work::ReadRefresh => Turns::of(Job::ReadRefresh, 50_000, 1),
            Work::Flush => Turns::of(Job::Flush, 20_000, 1),
            _ => Turns::visits(0, 32, 0),
        }
    }

    /// The greatest number of values that stand at once; 0 where none does, and where there is no such number.
    pub(crate) fn peak(self, threads: u64) -> u64 {
        match self {
            Work::Make | Work::MakeBare | Work::MakeBox => threads,
            Work::PipeBox => 2 * blocks::PIPED,
            Work::Look | Work::Token | Work::LookPlain | Work::LookWide => lookups::STAND,
            Work::Read1 | Work::Read1k | Work::See1k | Work::SharedRead => ROW as u64,
            _ => 0,
        }
    }

    pub(crate) fn measure<R: Clock + CpuClock + Threads + Wait + Sync>(
        self,
        rt: &R,
        threads: u64,
        alloc: Global,
    ) -> io::Result<Report> {
        let mut samples = Samples::new(alloc)?;
        match self {
            Work::Make => blocks::make(rt, threads, alloc, &mut samples)?,
            Work::MakeBare => blocks::make_bare(rt, threads, alloc, &mut samples)?,
            Work::MakeBox => blocks::make_box(rt, threads, alloc, &mut samples)?,
            Work::PipeBox => blocks::pipe_box(rt, alloc, &mut samples)?,
            Work::Look => lookups::look(rt, threads, alloc, &mut samples)?,
            Work::Token => lookups::token(rt, threads, alloc, &mut samples)?,
            Work::LookPlain => lookups::look_plain(rt, threads, alloc, &mut samples)?,
            Work::LookWide => lookups::look_wide(rt, threads, alloc, &mut samples)?,
            Work::Swap => swaps::swap(rt, threads, &mut samples)?,
            Work::Further => nests::measure(rt, alloc, &mut samples)?,
            Work::UpdateAlone => alone::measure(rt, alloc, &mut samples)?,
            Work::Pipe => guards::pipe(rt, alloc, &mut samples)?,
            Work::EnterOwned64 => {
                guards::measure_beside(rt, threads, alloc, STANDING, self.turns(), &mut samples)?
            }
            Work::SharedRead | Work::SharedUpdate => {
                guards::measure_shared(rt, threads, alloc, self.turns(), &mut samples)?
            }
            Work::Map10 => maps::measure(rt, threads, alloc, Map::Links, 10, &mut samples)?,
            Work::Map50 => maps::measure(rt, threads, alloc, Map::Links, 50, &mut samples)?,
            Work::Mutex10 => maps::measure(rt, threads, alloc, Map::Mutex, 10, &mut samples)?,
            Work::Mutex50 => maps::measure(rt, threads, alloc, Map::Mutex, 50, &mut samples)?,
            Work::RwLock10 => maps::measure(rt, threads, alloc, Map::RwLock, 10, &mut samples)?,
            Work::RwLock50 => maps::measure(rt, threads, alloc, Map::RwLock, 50, &mut samples)?,
            _ => guards::measure(rt, threads, alloc, self.turns(), &mut samples)?,
        }
        Ok(samples.report())
    }
}
