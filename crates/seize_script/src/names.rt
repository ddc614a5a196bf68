//! Who is told of the values gone: it notes their names, to be printed.
ghost use base.Stored.{coded_unit};

use crate::name::Name;
use crate::value::Value;
use seize::Watch;
use std::alloc::{AllocError, Global};

/// The names of the values gone, in order.
#[derive(Drop)]
pub struct Names {
    gone: Vec<Name>,
}

impl Names {
    /// No name yet, and room for this many.
    pub fn with_room(alloc: Global, values: usize) -> Result<Names, AllocError> {
        Ok(Names {
            gone: Vec::with_capacity(alloc, values)?,
        })
    }

    /// The names since the last `clear`.
    pub fn as_slice(&self) -> &[Name] {
        self.gone.as_slice()
    }

    /// Keeps the room, and no name.
    pub fn clear(&mut self) {
        self.gone.clear();
    }
}

impl Watch<Value> for Names {
    ghost Seen = { Unit {0} };

    ghost coded = { coded_unit };

    ghost seen = { λ _. tt };

    ghost told = { λ _ _. tt };

    fn gone(&mut self, value: &Value) {
        // never refused, since there is room for every value of the script, and each is gone once
        let _ = self.gone.push(value.name);
    }
}
