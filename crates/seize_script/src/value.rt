//! Values of scripts.
ghost use Rattle.seize_script.specs.Values.{inside_of, owners_of, weight_of};
ghost use Rattle.seize_script.specs.Weights.{inside_lighter};

use crate::name::Name;
use seize::{Further, Owned, Puts, Reclaim};

/// A name, and the values in its brackets.
#[derive(Drop)]
pub struct Value {
    pub name: Name,
    pub inside: Vec<Owned<Value>>,
}

/// Puts the values in the brackets, in their order.
#[derive(Clone, Copy, Debug, PartialEq, Eq)]
pub struct PutInside;

impl Puts<Value> for PutInside {
    ghost weight = { weight_of };

    ghost owners = { owners_of };

    ghost puts = { λ _ value. inside_of value };

    ghost lighter = { λ _ value. inside_lighter value };
}

impl Reclaim<Value> for PutInside {
    fn reclaim(self, _kind: u64, value: Value, further: &mut Further<'_, Value, Self>) {
        let Value { name: _, inside } = value;
        further.put_all(inside);
    }
}
