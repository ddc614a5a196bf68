//! Why the program ends before its script does, with a status and a text for each reason. Every other module names its failures here.
ghost use Rattle.std.specs.Prelude.{◌≡◌};
ghost use Rattle.seize_script.specs.Statuses.{status_of};
ghost use Rattle.seize_script.specs.declared.failure.Failure.TheVariants.{NoMemory};

use seize::Refusal;
use std::alloc::{AllocError, AllocFailed};
use std::fmt;

/// Why the program ends before its script does.
#[derive(Clone, Copy, Debug, PartialEq, Eq)]
pub enum Failure<'a> {
    /// The arguments are none that it knows.
    Usage,
    /// There is no built-in row of this name.
    NoRow(&'a str),
    /// The script has too many bytes.
    TooLong,
    /// The line of this number, from 1 on, breaks the grammar, and it is the first that does.
    BadLine(usize),
    /// The allocator refused.
    NoMemory,
    /// The script can't be read.
    CannotRead,
    /// What the script gives can't be written.
    CannotWrite,
}

impl Failure<'_> {
    /// The status that the program ends with.
    pub fn status(&self) -> u8
        ensures { result ≡ status_of self.now }
    {
        match self {
            Failure::Usage | Failure::NoRow(_) | Failure::TooLong | Failure::BadLine(_) => 2,
            Failure::NoMemory => 3,
            Failure::CannotRead => 4,
            Failure::CannotWrite => 5,
        }
    }
}

impl fmt::Display for Failure<'_> {
    fn fmt<W: fmt::Write>(&self, f: &mut fmt::Formatter<W>) -> fmt::Result {
        match self {
            Failure::Usage => write!(f, "usage: seize-run row NAME | seize-run script"),
            Failure::NoRow(name) => write!(f, "no row {name}"),
            Failure::TooLong => write!(f, "script too long"),
            Failure::BadLine(line) => write!(f, "line {line}: bad line"),
            Failure::NoMemory => write!(f, "no memory"),
            Failure::CannotRead => write!(f, "cannot read"),
            Failure::CannotWrite => write!(f, "cannot write"),
        }
    }
}

impl From<AllocError> for Failure<'_> {
    ghost from_gives = { λ _ failure. failure ≡ NoMemory };

    fn from(_error: AllocError) -> Self {
        Failure::NoMemory
    }
}

impl<T: Drop> From<AllocFailed<T>> for Failure<'_> {
    ghost from_gives = { λ _ failure. failure ≡ NoMemory };

    fn from(_failed: AllocFailed<T>) -> Self {
        Failure::NoMemory
    }
}

/// The program makes one collector, for one processor. So what it asks can be refused for want of memory alone.
impl From<Refusal> for Failure<'_> {
    ghost from_gives = { λ _ failure. failure ≡ NoMemory };

    fn from(_refusal: Refusal) -> Self {
        Failure::NoMemory
    }
}
