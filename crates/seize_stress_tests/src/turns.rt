//! A turn under a guard of any kind: it finds what a link holds, puts a new block in by a swap or an exchange, and retires what came out.
//! What it found has not ended then.
ghost use Rattle.std.specs.Prelude.{◌<◌, Option, IfSome};
ghost use Rattle.seize.specs.Blocks.{HoldsOnly};
ghost use Rattle.seize.specs.Collectors.{IsPassOf, its_links, its_store};
ghost use Rattle.seize.specs.Guards.{core_collector};
ghost use Rattle.seize.specs.Links.{IsUnlinkedOf};
ghost use Rattle.seize_test_kit.specs.declared.marked.Marked.{Marked};

use seize::{Guard, GuardCore, Home, Pass, Reclaim, Unlinked};
use seize_test_kit::marked::{Marked, ends_of};
use std::sync::Wait;

/// At which link, and whether by a swap.
#[derive(Clone, Copy)]
pub(crate) struct Step {
    /// The link.
    pub(crate) link: usize,
    /// By a swap, and else by an exchange that compares with what was found.
    pub(crate) swaps: bool,
}

/// What was found in links.
#[derive(Clone, Copy)]
pub(crate) struct Found {
    /// How many values.
    pub(crate) read: u64,
    /// How many of them had ended while the guard stood.
    pub(crate) early: u64,
}

impl Found {
    /// None.
    pub(crate) fn none() -> Found {
        Found { read: 0, early: 0 }
    }

    /// Both together.
    pub(crate) fn and(self, other: Found) -> Found {
        Found {
            read: self.read.wrapping_add(other.read),
            early: self.early.wrapping_add(other.early),
        }
    }
}

// A turn that swaps the block in.
fn swap<'a, G: Guard<Marked<'a>>, W: Wait>(
    rt: &W,
    guard: &G,
    link: usize,
    value: Marked<'a>,
    pass: &mut Pass,
) -> Found
    requires of { IsPassOf (G.its_collector guard.now) pass.old × (link < its_links (G.its_collector guard.now)) }
    requires fits { (x : Marked) → HoldsOnly G.Reclaimer.owners (its_store (G.its_collector guard.now)) x }
    requires rule { (x y : Option Marked) → G.Reclaimer.keeps link x y }
    ensures { IsPassOf (G.its_collector guard.now) pass.new }
{
    let Ok(block) = guard.owned(value) else {
        return Found::none();
    };
    let core = guard.core();
    let found = core.protect(link, pass);
    if let Some(old) = core.swap(link, Some(block), pass) {
        guard.defer_retire(rt, pass, old);
    }
    match &found {
        Some(found) => Found {
            read: 1,
            early: ends_of(found.marks, found.value),
        },
        None => Found::none(),
    }
}

// What the link holds is exchanged for a block of this value. It gives what came out, and how often that had ended. Where the exchange is
// lost the block ends.
fn take<'a, 'c, R: Reclaim<Marked<'a>>, C: Home<Marked<'a>>>(
    core: &GuardCore<'c, Marked<'a>, R, C>,
    link: usize,
    value: Marked<'a>,
    pass: &mut Pass,
) -> Option<(Unlinked<'c, Marked<'a>>, u64)>
    requires of { IsPassOf (core_collector core.now) pass.old × (link < its_links (core_collector core.now)) }
    requires fits { (x : Marked) → HoldsOnly R.owners (its_store (core_collector core.now)) x }
    requires rule { (x y : Option Marked) → R.keeps link x y }
    ensures pass { IsPassOf (core_collector core.now) pass.new }
    ensures of { IfSome result (λ taken. IsUnlinkedOf (core_collector core.now) taken.0) }
{
    let block = core.owned(value).ok()?;
    let found = core.protect(link, pass);
    let ends = match &found {
        Some(found) => ends_of(found.marks, found.value),
        None => 0,
    };
    match core.compare_exchange(link, found.as_ref(), Some(block), pass) {
        Ok(Some(old)) => Some((old, ends)),
        Ok(None) => None,
        Err(_failed) => None,
    }
}

// A turn that exchanges what it finds.
fn exchange<'a, G: Guard<Marked<'a>>, W: Wait>(
    rt: &W,
    guard: &G,
    link: usize,
    value: Marked<'a>,
    pass: &mut Pass,
) -> Found
    requires of { IsPassOf (G.its_collector guard.now) pass.old × (link < its_links (G.its_collector guard.now)) }
    requires fits { (x : Marked) → HoldsOnly G.Reclaimer.owners (its_store (G.its_collector guard.now)) x }
    requires rule { (x y : Option Marked) → G.Reclaimer.keeps link x y }
    ensures { IsPassOf (G.its_collector guard.now) pass.new }
{
    let Some((old, early)) = take(guard.core(), link, value, pass) else {
        return Found::none();
    };
    guard.defer_retire(rt, pass, old);
    Found { read: 1, early }
}

/// The turn. Where memory is refused, nothing is found.
pub(crate) fn turn<'a, G: Guard<Marked<'a>>, W: Wait>(
    rt: &W,
    guard: &G,
    step: Step,
    value: Marked<'a>,
    pass: &mut Pass,
) -> Found
    requires of { IsPassOf (G.its_collector guard.now) pass.old × (step.link < its_links (G.its_collector guard.now)) }
    requires fits { (x : Marked) → HoldsOnly G.Reclaimer.owners (its_store (G.its_collector guard.now)) x }
    requires rule { (x y : Option Marked) → G.Reclaimer.keeps step.link x y }
    ensures { IsPassOf (G.its_collector guard.now) pass.new }
{
    if step.swaps {
        return swap(rt, guard, step.link, value, pass);
    }
    exchange(rt, guard, step.link, value, pass)
}
