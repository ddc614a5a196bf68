//! Names of values.
ghost use Rattle.std.specs.Prelude.{◌≤◌};
ghost use Rattle.seize_script.specs.declared.name.TheConstants.{LONGEST_NAME};

use std::fmt;
use std::fmt::Write;

/// How many bytes a name has at most.
pub const LONGEST_NAME: usize = 8;

/// A letter from a to z, then letters or digits.
#[derive(Clone, Copy, Debug, PartialEq, Eq)]
pub struct Name {
    bytes: [u8; LONGEST_NAME],
    len: usize,
    ghost fits: { len ≤ LONGEST_NAME },
}

impl Name {
    /// This name, if it is one.
    pub fn new(word: &[u8]) -> Option<Name> {
        let first = word.first()?;
        if word.len() > LONGEST_NAME
            || !first.is_ascii_lowercase()
            || !word.iter().all(is_in_name)
        {
            return None;
        }
        let mut bytes = [0; LONGEST_NAME];
        bytes[..word.len()].copy_from_slice(word);
        Some(Name {
            bytes,
            len: word.len(),
        })
    }
}

/// Whether the byte may stand in a name, behind the first.
pub fn is_in_name(byte: &u8) -> bool {
    byte.is_ascii_lowercase() || byte.is_ascii_digit()
}

impl fmt::Display for Name {
    fn fmt<W: fmt::Write>(&self, f: &mut fmt::Formatter<W>) -> fmt::Result {
        for byte in &self.bytes[..self.len] {
            f.write_char(char::from(*byte))?;
        }
        Ok(())
    }
}
