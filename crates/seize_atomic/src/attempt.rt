//! One try of an alteration: an exchange of what was found for what the function makes of it.
ghost use Rattle.std.specs.Prelude.{◌≡◌, ◌<◌, option_copied, option_map};
ghost use Rattle.seize.specs.Collectors.{IsPassOf, its_links, its_store};
ghost use Rattle.seize.specs.Links.{Shows, found_name, shared_value};
ghost use Rattle.seize_atomic.specs.Attempts.{AttemptsCell};
ghost use Rattle.seize_atomic.specs.Alters.{MayAnswer, MayHold};

use seize::{Guard, Pass, Reclaim, Shared, Unlinked};

/// What a try leaves that was not won.
pub enum Missed<'g, T: Drop, E> {
    /// The allocator refused a block.
    NoMemory,
    /// The function refused.
    Refused(E),
    /// The cell held this, and no more what was found.
    Lost(Option<Shared<'g, T>>),
}

/// What came out of the cell, where the try was won, with the function's answer.
///
/// # Errors
///
/// `Refused` where the function refuses, and `NoMemory` where no block can be made: then there is no event. `Lost` with what the cell held.
pub fn attempt<
    'g,
    T: Drop,
    A: Drop,
    E,
    G: Guard<T>,
    F: Fn(Option<&T>) -> Result<(Option<T>, A), E>,
>(
    guard: &'g G,
    i: usize,
    f: &F,
    found: Option<Shared<'g, T>>,
    pass: &mut Pass,
) -> Result<(Option<Unlinked<'g, T>>, A), Missed<'g, T, E>>
    requires of { IsPassOf (G.its_collector guard.now) pass.old × (i < its_links (G.its_collector guard.now)) }
    requires found { Shows (G.its_collector guard.now) T.row.coded.code (found_name found) found }
    requires callable { F.IsAlwaysCallable f.now }
    requires may_hold { MayHold (F.post f.now) G.Reclaimer.keeps G.Reclaimer.owners (its_store (G.its_collector guard.now)) i }
    ensures { AttemptsCell (F.post f.now) T.row.coded.code (G.its_collector guard.now) (G.its_slot guard.now) i found.entry
        pass.old pass.new result }
{
    let (value, answer) = match made(f, &found) {
        Ok(made) => made,
        Err(why) => return Err(Missed::Refused(why)),
    };
    let new = match value {
        Some(value) => match guard.owned(value) {
            Ok(block) => Some(block),
            Err(_) => return Err(Missed::NoMemory),
        },
        None => None,
    };
    match guard.core().compare_exchange(i, found.as_ref(), new, pass) {
        Ok(out) => Ok((out, answer)),
        Err(failed) => Err(Missed::Lost(failed.found)),
    }
}

// What `f` makes of what was found.
fn made<'a, 'g: 'a, T, Y, F: Fn(Option<&T>) -> Y>(f: &F, found: &'a Option<Shared<'g, T>>) -> Y
    requires callable { F.IsAlwaysCallable f.now }
    ensures { MayAnswer (F.post f.now) (option_map shared_value found.now) result }
{
    f(value_of(found.as_ref()))
}

// The value of what was found.
fn value_of<'a, 'g: 'a, T>(found: Option<&'a Shared<'g, T>>) -> Option<&'a T>
    ensures { option_copied result ≡ option_map shared_value (option_copied found.entry) }
{
    let shared = found?;
    Some(shared)
}
