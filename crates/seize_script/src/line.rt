//! One line of a script, read from left to right: words, numbers and names. The grammar of whole lines is above it.
ghost use Rattle.std.specs.Prelude.{◌≡◌, ◌≤◌, ◌++◌, length, MatchBool};
ghost use Rattle.seize_script.specs.declared.line.LineError.TheVariants.{NoMemory};

use crate::failure::Failure;
use crate::name::{Name, is_in_name};
use std::alloc::{AllocError, AllocFailed};
use std::marker::Model;
use std::str;

/// Why a line is not read.
#[derive(Clone, Copy, Debug, PartialEq, Eq)]
pub enum LineError {
    /// It breaks the grammar.
    Bad,
    /// The allocator refused.
    NoMemory,
}

impl LineError {
    /// The failure of the line of this number.
    pub fn at<'a>(self, number: usize) -> Failure<'a> {
        match self {
            LineError::Bad => Failure::BadLine(number),
            LineError::NoMemory => Failure::NoMemory,
        }
    }
}

impl From<AllocError> for LineError {
    ghost from_gives = { λ _ error. error ≡ NoMemory };

    fn from(_error: AllocError) -> LineError {
        LineError::NoMemory
    }
}

impl<T: Drop> From<AllocFailed<T>> for LineError {
    ghost from_gives = { λ _ error. error ≡ NoMemory };

    fn from(_failed: AllocFailed<T>) -> LineError {
        LineError::NoMemory
    }
}

/// What is left to read of a line.
#[derive(Drop)]
pub struct Line<'s> {
    rest: &'s [u8],
}

impl<'s> Model for Line<'s> {
    ghost use Rattle.std.specs.Prelude.{ℕ, List};

    ghost Value = { List ℕ };

    ghost view = { λ line. line.rest.now };
}

impl<'s> Line<'s> {
    /// A whole line, without its line feed.
    pub fn new(bytes: &'s [u8]) -> Line<'s>
        ensures { result ≡ bytes.now }
    {
        Line { rest: bytes }
    }

    /// Takes these bytes, if they come next.
    pub fn take(&mut self, bytes: &[u8]) -> bool
        ensures { MatchBool result (self.old ≡ bytes.now ++ self.new) (self.new ≡ self.old) }
    {
        match self.rest.strip_prefix(bytes) {
            Some(rest) => {
                self.rest = rest;
                true
            }
            None => false,
        }
    }

    /// Takes these bytes, which have to come next.
    pub fn expect(&mut self, bytes: &[u8]) -> Result<(), LineError>
        ensures { length self.new ≤ length self.old }
    {
        if self.take(bytes) {
            Ok(())
        } else {
            Err(LineError::Bad)
        }
    }

    /// Takes bytes up to the first that fails the test.
    fn take_while<F: Fn(&u8) -> bool>(&mut self, test: F) -> &'s [u8]
        requires { F.IsAlwaysCallable test }
        ensures { length self.new ≤ length self.old }
    {
        let count = self.rest.iter().position(|byte| !test(byte));
        let (taken, rest) = self.rest.split_at(count.unwrap_or(self.rest.len()));
        self.rest = rest;
        taken
    }

    /// Takes a word, up to a space or the end.
    pub fn word(&mut self) -> &'s [u8]
        ensures { length self.new ≤ length self.old }
    {
        self.take_while(|byte| *byte != b' ')
    }

    /// Decimal digits without a leading zero, or `0`, behind a space.
    pub fn number(&mut self) -> Result<usize, LineError>
        ensures { length self.new ≤ length self.old }
    {
        self.expect(b" ")?;
        let digits = self.take_while(u8::is_ascii_digit);
        if let [b'0', _, ..] = digits {
            return Err(LineError::Bad);
        }
        let Ok(text) = str::from_utf8(digits) else {
            return Err(LineError::Bad);
        };
        text.parse().map_err(|_| LineError::Bad)
    }

    /// A letter, then at most seven letters or digits.
    pub fn name(&mut self) -> Result<Name, LineError>
        ensures { length self.new ≤ length self.old }
    {
        Name::new(self.take_while(is_in_name)).ok_or(LineError::Bad)
    }

    /// The line ends here.
    pub fn end(&self) -> Result<(), LineError> {
        if self.rest.is_empty() {
            Ok(())
        } else {
            Err(LineError::Bad)
        }
    }
}
