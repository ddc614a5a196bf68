//! The units of guards that were forgotten. They lie on the shelf of their slot, which can leave once each of its guards is forgotten.
ghost use Rattle.std.specs.Prelude.{◌≡◌};

use seize_words::activation::Activation;
use seize_words::book::{Pass, Seen};

/// The units of guards of one slot that were forgotten.
#[derive(Drop)]
pub struct Forgotten {
    /// The slot's number.
    pub(crate) number: usize,
    /// The units, of one activation.
    pub(crate) units: Activation,
    /// How many there are.
    pub(crate) count: u64,
    /// What was seen when the activation had begun.
    pub(crate) seen: Seen,
    ghost counted: { units.units ≡ count },
}

impl Forgotten {
    ghost use mathlib.Core.List.{IsPrefix};
    ghost use Rattle.seize_book.specs.Passes.{IsSamePass, MadeNone};
    ghost use Rattle.seize_parts.specs.Shelves.{IsForgottenOf};
    ghost use Rattle.seize_parts.specs.Reservations.{IsUnit};

    /// The unit of one guard.
    pub fn one(number: usize, unit: Activation, seen: Seen) -> Forgotten
        requires { IsUnit seen.name number unit seen }
        ensures { IsForgottenOf seen.name.family result }
    {
        Forgotten {
            number,
            units: unit,
            count: 1,
            seen,
        }
    }

    /// With that of one more. Units of two activations of a slot are never out at once, so these are of one. A unit of another slot is not
    /// added, nor one past 2^64 - 1: neither comes here.
    pub(super) fn and(self, one: Forgotten, pass: &mut Pass) -> Forgotten
        requires { IsForgottenOf pass.old.name.family self × IsForgottenOf pass.old.name.family one }
        ensures of { IsForgottenOf pass.old.name.family result }
        ensures none { IsSamePass pass.old pass.new × IsPrefix pass.old.seen pass.new.seen × MadeNone pass.old pass.new }
    {
        if self.number != one.number || one.count != 1 || self.count == u64::MAX {
            return self;
        }
        pass.agree(&self.seen);
        pass.learn(&self.seen);
        pass.agree(&one.seen);
        pass.learn(&one.seen);
        pass.slots();
        self.units.lasts(pass);
        one.units.lasts(pass);
        let Forgotten {
            number,
            mut units,
            count,
            seen,
        } = self;
        units.join(one.units);
        Forgotten {
            number,
            units,
            count: count + 1,
            seen,
        }
    }
}
