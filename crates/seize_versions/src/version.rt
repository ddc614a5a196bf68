//! Versions, the rule that their numbers grow, and how the next one is made of what a cell holds.
ghost use base.Stored.{Gv};
ghost use Rattle.std.proofs.Common.{lit<};
ghost use Rattle.std.specs.Prelude.{◌≡◌, option_copied};
ghost use Rattle.seize_versions.specs.Numbers.{IsOlder, MakesNext, ComesTo, number_of, value_in};

use seize::{Further, Puts, Reclaim};
use seize_atomic::NotAltered;
use std::convert::Infallible;

/// A value with its number.
#[derive(Clone, Copy, Drop)]
pub struct Version<T: Drop> {
    /// The number: from 1 on, where all were published.
    pub number: u64,
    /// The value.
    pub value: T,
}

/// The reclaimer of versions: it lets them end. Its type says the rule of the links: a change puts in a version whose number is greater. An
/// empty link counts as number 0, so a version is never taken out.
#[derive(Clone, Copy)]
pub struct ByNumber;

impl<T: Drop> Puts<Version<T>> for ByNumber {
    ghost keeps = { λ _ before after. IsOlder before after };

    ghost lighter = { λ _ _. lit< tt };
}

impl<T: Drop> Reclaim<Version<T>> for ByNumber {
    fn reclaim(
        self,
        _kind: u64,
        _value: Version<T>,
        _further: &mut Further<'_, Version<T>, ByNumber>,
    ) {}
}

/// Every type says by which code the list names its values. There is nothing to implement: a struct that has a `Reader` as a field, for any
/// `T`, writes the bounds of `Reader`.
pub trait Named {
    /// The code.
    ghost code: { Self → Gv };
}

impl<T> Named for T {
    ghost code = { T.row.coded.code };
}

/// Why no version was published. The cell was not changed by the call then.
#[derive(Clone, Copy, PartialEq, Eq, Debug, Drop)]
pub enum NotPublished<E = Infallible> {
    /// The allocator refused a block.
    NoMemory,
    /// All tries were lost, each to another exchange of the cell; or there was to be no try.
    Contended,
    /// The cell holds the version with the greatest number, `u64::MAX`.
    LastNumber,
    /// The function refused, and says why.
    Refused(E),
}

/// What is to go into a cell, with its number.
pub(crate) type Made<T, E> = Result<(Option<Version<T>>, u64), NotPublished<E>>;

// The version that comes after this one, or the first one.
pub(crate) fn next<T: Drop, E, F: Fn(Option<&T>) -> Result<T, E>>(
    version: Option<&Version<T>>,
    f: &F,
) -> Made<T, E>
    requires callable { F.IsAlwaysCallable f.now }
    ensures { MakesNext (F.post f.now) version.entry result }
{
    let Some(number) = number(version).checked_add(1) else {
        return Err(NotPublished::LastNumber);
    };
    match f(value(version)) {
        Ok(value) => Ok((Some(Version { number, value }), number)),
        Err(why) => Err(NotPublished::Refused(why)),
    }
}

// The number of a version, and 0 where there is none.
pub(crate) fn number<T: Drop>(version: Option<&Version<T>>) -> u64
    ensures { result ≡ number_of (option_copied version.entry) }
{
    match version {
        Some(version) => version.number,
        None => 0,
    }
}

// The value of a version.
fn value<T: Drop>(version: Option<&Version<T>>) -> Option<&T>
    ensures { option_copied result ≡ value_in (option_copied version.entry) }
{
    match version {
        Some(version) => Some(&version.value),
        None => None,
    }
}

// What a publication answers for what the alteration of its cell came to.
pub(crate) fn settled<E>(
    altered: Result<u64, NotAltered<NotPublished<E>>>,
) -> Result<u64, NotPublished<E>>
    ensures { ComesTo altered result }
{
    match altered {
        Ok(number) => Ok(number),
        Err(NotAltered::Refused(why)) => Err(why),
        Err(NotAltered::NoMemory) => Err(NotPublished::NoMemory),
        Err(NotAltered::Contended) => Err(NotPublished::Contended),
    }
}
