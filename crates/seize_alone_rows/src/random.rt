//! Lists of calls that come by chance, on a collector in one caller's hands and on one of plain lists: what each answers, which values the
//! watch and the reclaimer are told of, in order, and what is left in the end. Calls come one by one, or several in one `run`, and now and
//! then the collector is shared and taken over again.
ghost use Rattle.std.specs.Prelude.{◌≡◌, IfOk, length};
ghost use Rattle.seize.specs.Alones.{IsSame};
ghost use Rattle.seize.specs.Takens.{IsTakenOf};

use crate::chance::{Chance, LINKS, SLOTS, block};
use crate::grouped::run_four;
use crate::nests::{AloneNests, Ends, Heard, alone_nests, number_in};
use crate::oracle::{Lists, Value};
use seize::{Alone, Reclaim, Refusal, Taken, Watch};
use std::alloc::Global;
use std::process::Abort;
use std::test::*;

// How many lists there are, and how many turns each has.
const LISTS: u64 = 3_000;

const TURNS: u64 = 50;

// How many values a list may make: a turn has four calls at most, and each call makes three at most.
const VALUES: u64 = 12 * TURNS;

// Whether the answers are the same. Where memory was refused the list ends.
fn same<A: PartialEq>(
    answer: &Result<A, Refusal>,
    wanted: &Result<A, Refusal>,
) -> Result<bool, Refusal> {
    match (answer, wanted) {
        (Err(Refusal::NoMemory), _) | (_, Err(Refusal::NoMemory)) => Err(Refusal::NoMemory),
        (Ok(answer), Ok(wanted)) => Ok(*answer == *wanted),
        (Err(answer), Err(wanted)) => Ok(*answer == *wanted),
        _ => Ok(false),
    }
}

// Retires what is in no link. Where that is refused, another slot retires it, which is in use.
fn retire<T: Drop, R: Reclaim<T>>(
    rt: &impl Abort,
    alone: &mut Alone<T, R>,
    s: usize,
    taken: Taken<T>,
    kind: u64,
    other: usize,
    heard: &mut impl Watch<T>,
) -> Result<(), Refusal>
    requires { IsTakenOf T.row.coded.code alone.old.book taken }
    ensures { IsSame alone.old alone.new }
{
    let Err((refusal, back)) = alone.retire(s, taken, kind, heard) else {
        return Ok(());
    };
    match alone.retire(other, back, kind, heard) {
        Ok(()) => Err(refusal),
        Err((_, _taken)) => rt.abort(),
    }
}

// A new block is retired by this slot, or by another one, if one is in use.
fn retire_new(
    rt: &impl Abort,
    alloc: Global,
    alone: &mut AloneNests<'_>,
    lists: &mut Lists,
    chance: &mut Chance,
    s: usize,
    heard: &mut Heard,
) -> Result<bool, Refusal>
    ensures { IsSame alone.old alone.new }
{
    let Some(other) = lists.used() else {
        return Ok(true);
    };
    let (block, number) = block(alloc, alone, lists, chance)?;
    let kind = chance.kind();
    let taken = alone.taken(block);
    let answer = retire(rt, alone, s, taken, kind, other, heard);
    let value = Value { number, kind };
    let wanted = lists.retire(s, value);
    if wanted.is_err() {
        lists.retire(other, value)?;
    }
    same(&answer, &wanted)
}

// A new block is exchanged for what a link holds, or nothing is. The slot retires what came out.
fn swap_new(
    rt: &impl Abort,
    alloc: Global,
    alone: &mut AloneNests<'_>,
    lists: &mut Lists,
    chance: &mut Chance,
    s: usize,
    heard: &mut Heard,
) -> Result<bool, Refusal>
    requires { alone.old.links ≡ 3 }
    ensures { IsSame alone.old alone.new }
{
    let link = chance.link();
    let (new, number) = if chance.below(4) > 0 {
        let (block, number) = block(alloc, alone, lists, chance)?;
        (Some(block), Some(number))
    } else {
        (None, None)
    };
    let kind = chance.kind();
    match (alone.swap(s, link, new), lists.swap(s, link, number)) {
        (Ok(Some(taken)), wanted) => {
            retire(rt, alone, s, taken, kind, s, heard)?;
            let Some(number) = wanted? else {
                return Ok(false);
            };
            lists.retire(s, Value { number, kind })?;
            Ok(true)
        }
        (Ok(None), wanted) => Ok(wanted? == None),
        (Err((refusal, _)), wanted) => same(&Err(refusal), &wanted),
    }
}

// A call that comes by chance, but for a retirement and an exchange. It says which it is, and whether the answers are the same.
fn call(
    alone: &mut AloneNests<'_>,
    lists: &mut Lists,
    chance: &mut Chance,
    s: usize,
    heard: &mut Heard,
) -> Result<(&'static str, bool), Refusal>
    requires { alone.old.links ≡ 3 }
    ensures { IsSame alone.old alone.new }
{
    match chance.below(12) {
        0 if lists.has_number(SLOTS) => {
            Ok(("register", same(&alone.register(heard), &lists.register())?))
        }
        1 if lists.has_number(SLOTS) => Ok((
            "enter_owned",
            same(&alone.enter_owned(heard), &lists.enter_owned())?,
        )),
        2 | 3 => Ok(("enter", same(&alone.enter(s), &lists.enter(s))?)),
        4..8 => Ok(("leave", same(&alone.leave(s, heard), &lists.leave(s))?)),
        8 => Ok(("end", same(&alone.end(s, heard), &lists.end(s))?)),
        9 => Ok((
            "refresh",
            same(&alone.refresh(s, heard), &lists.refresh(s))?,
        )),
        10 => Ok(("flush", same(&alone.flush(s, heard), &lists.flush(s))?)),
        _ => {
            let link = chance.link();
            let found = number_in(alone, s, link);
            Ok(("protect", same(&found, &lists.look(s, link))?))
        }
    }
}

// Any call that comes by chance, or four of them.
fn any_call(
    rt: &impl Abort,
    alloc: Global,
    alone: &mut AloneNests<'_>,
    lists: &mut Lists,
    chance: &mut Chance,
    heard: &mut Heard,
) -> Result<(&'static str, bool), Refusal>
    requires { alone.old.links ≡ 3 }
    ensures { IsSame alone.old alone.new }
{
    let s = chance.slot(lists);
    match chance.below(44) {
        0 => {
            alone.reclaim_all(heard);
            lists.reclaim_all()?;
            Ok(("reclaim_all", true))
        }
        1..14 => Ok((
            "retire",
            retire_new(rt, alloc, alone, lists, chance, s, heard)?,
        )),
        14..20 => Ok(("swap", swap_new(rt, alloc, alone, lists, chance, s, heard)?)),
        20..24 => Ok(("run", run_four(alloc, alone, lists, chance, heard)?)),
        _ => call(alone, lists, chance, s, heard),
    }
}

// All is reclaimed, so the least number is free. Whether the links hold what they held.
fn reclaim(
    alone: &mut AloneNests<'_>,
    lists: &mut Lists,
    heard: &mut Heard,
) -> Result<bool, Refusal>
    requires { alone.old.links ≡ 3 }
    ensures { IsSame alone.old alone.new }
{
    alone.reclaim_all(heard);
    lists.reclaim_all()?;
    let (s, wanted) = (alone.enter_owned(heard)?, lists.enter_owned()?);
    let mut well = s == wanted;
    for link in 0..LINKS {
        let found = number_in(alone, s, link);
        well = well && same(&found, &lists.look(s, link))?;
    }
    alone.leave(s, heard)?;
    lists.leave(s)?;
    Ok(well)
}

// Whether the watch and the reclaimer were told of the values that are gone in the lists, in order.
fn are_told(lists: &Lists, heard: &Heard, ends: &Ends) -> bool {
    let gone = lists.gone();
    let told = heard.numbers.as_slice();
    if told.len() != gone.len() || ends.many() != gone.len() as u64 {
        return false;
    }
    told.iter().zip(gone.iter()).enumerate().all(|(n, (number, value))| *number == value.number
        && ends.is_at(n, *value))
}

// Whether each value ended with the collector: those that are gone as all is reclaimed in order, and then those of the links.
fn end(lists: &mut Lists, ends: &Ends) -> Result<bool, Refusal> {
    lists.reclaim_all()?;
    let in_order = lists
        .gone()
        .iter()
        .enumerate()
        .all(|(n, value)| ends.is_at(n, *value));
    lists.end_all()?;
    Ok(in_order && ends.have(lists.gone()))
}

// The collector is shared, and nobody uses it. Then one caller takes it over, with the slots in use and their guards.
fn shared_and_back<'a>(alone: AloneNests<'a>) -> Result<AloneNests<'a>, Fail>
    requires { length alone.book.links ≡ 3 }
    ensures { IfOk result (λ alone. (alone.links ≡ 3) × (length alone.book.links ≡ 3)) }
{
    match alone.share().alone() {
        Ok(alone) => Ok(alone),
        Err(_) => Err(Fail::new("the collector came back")),
    }
}

// One list, of which this is the seed.
fn run<'a>(rt: &impl Abort, alloc: Global, seed: u64, ends: &'a Ends) -> Result<(), Fail> {
    let mut chance = Chance { state: seed };
    let size = (seed % 5) as usize;
    let mut alone = alone_nests(alloc, size, LINKS, ends)?;
    let mut lists = Lists::new(alloc, size, LINKS)?;
    let mut heard = Heard::with_room(alloc, VALUES as usize)?;
    for n in 0..TURNS {
        if chance.below(30) == 0 {
            alone = shared_and_back(alone)?;
        }
        let (what, well) = any_call(rt, alloc, &mut alone, &mut lists, &mut chance, &mut heard)?;
        if !well || !are_told(&lists, &heard, ends) {
            return Err(Fail::new(format_args!("seed {seed}: turn {n}, of {what}, differs")));
        }
    }
    // Every other list leaves that to the drop.
    if seed % 2 == 0
        && (!reclaim(&mut alone, &mut lists, &mut heard)? || !are_told(&lists, &heard, ends))
    {
        return Err(Fail::new(format_args!("seed {seed}: what is left differs")));
    }
    drop(alone);
    if !end(&mut lists, ends)? {
        return Err(Fail::new(format_args!("seed {seed}: the drop differs")));
    }
    Ok(())
}

#[test]
fn calls_that_come_by_chance_do_as_plain_lists_do(rt: HostRuntime) -> Result<(), Fail> {
    for seed in 0..LISTS {
        let ends = Ends::with_room(rt.alloc(), VALUES)?;
        run(&rt, rt.alloc(), seed, &ends)?;
    }
    Ok(())
}
