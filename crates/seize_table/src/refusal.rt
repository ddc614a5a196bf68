//! Why a call is refused. It uses no other module, and every module with a call that may be refused uses it.
ghost use Rattle.std.specs.Prelude.{◌≡◌};
ghost use Rattle.seize_table.specs.Refusals.{refusal_number};
ghost use Rattle.seize_table.specs.declared.refusal.Refusal.TheVariants.{NoMemory};

use std::alloc::AllocError;
use std::fmt;

/// Why a call is refused. It changes nothing, but that `Machine::run` may have done first events, and gives back each block.
///
/// Where a call could be refused for several reasons, it answers the first of these: `TooManyProcessors`, `NotInUse`,
/// `WrongKind`, `NotActive`, `TooManyGuards`, `NoNumbers`, `NoMemory`; by their numbers 4, 5, 7, 6, 3, 2, 1.
#[derive(Clone, Copy, Debug, PartialEq, Eq)]
pub enum Refusal {
    /// A growth was really refused.
    NoMemory = 1,
    /// No slot number or collector id is left.
    NoNumbers = 2,
    /// The slot's guard count can't grow.
    TooManyGuards = 3,
    /// A collector is asked for more processors than a batch size can serve.
    TooManyProcessors = 4,
    /// The slot's number is not in use.
    NotInUse = 5,
    /// The call needs a guard and the slot has none.
    NotActive = 6,
    /// The call is for a registered slot and the slot is owned.
    WrongKind = 7,
}

impl Refusal {
    /// The number of the refusal, from 1 to 7.
    pub fn number(self) -> u8
        ensures { result ≡ refusal_number self }
    {
        self as u8
    }
}

impl fmt::Display for Refusal {
    fn fmt<W: fmt::Write>(&self, f: &mut fmt::Formatter<W>) -> fmt::Result {
        f.write_str(match self {
            Refusal::NoMemory => "NoMemory",
            Refusal::NoNumbers => "NoNumbers",
            Refusal::TooManyGuards => "TooManyGuards",
            Refusal::TooManyProcessors => "TooManyProcessors",
            Refusal::NotInUse => "NotInUse",
            Refusal::NotActive => "NotActive",
            Refusal::WrongKind => "WrongKind",
        })
    }
}

impl From<AllocError> for Refusal {
    ghost from_gives = { λ _ refusal. refusal ≡ NoMemory };

    fn from(_error: AllocError) -> Refusal {
        Refusal::NoMemory
    }
}
