//! The keys of several values, in order: those of a batch, which go to its count and come back from it together.
ghost use Rattle.std.specs.Prelude.{◌≡◌, ◌≢◌, [], true};
ghost use Rattle.seize_book.specs.Linked.{are_linked};
ghost use Rattle.seize_book.specs.Private.{are_of_blocks};

use crate::book::keys::Keys;
use crate::book::pass::Pass;
use crate::book::permit::Permit;
use crate::book::value_key::ValueKey;

/// The keys of some values, in order, as `ValueKey` is the key of one. What is noted of each block says the number
/// of the next one, so they are all found by the first number.
#[derive(Drop)]
pub struct ValueKeys {
    /// The rights by themselves, for crates with words.
    pub keys: Keys,
    ghost each: { are_of_blocks keys.held ≡ true },
    ghost linked: { are_linked keys.held ≡ true },
}

impl ValueKeys {
    ghost use Rattle.seize_book.specs.Lending.{IsPermitOf};
    ghost use Rattle.seize_book.specs.Values.{AreStill, IsEmpty, IsEmptyIn, LeadsOn, LeadsTo, Appends, IsKeyOfOne, IsOfSameBook, LieApart, Nexts, Pops, Pushes, book_in, values_of};

    /// No keys, of the pass's book.
    pub fn new(pass: &mut Pass) -> ValueKeys
        ensures { IsEmpty result pass.old × (pass.new ≡ pass.old) }
    {
        ValueKeys {
            keys: Keys::empty(pass),
        }
    }

    /// No keys, of the same book.
    pub fn none(&mut self) -> ValueKeys
        ensures { (self.new ≡ self.old) × IsEmptyIn (book_in self.old) result }
    {
        ValueKeys {
            keys: self.keys.none(),
        }
    }

    /// The key of one value.
    pub fn of(value: ValueKey) -> ValueKeys
        ensures { IsKeyOfOne value result }
    {
        ValueKeys { keys: value.keys }
    }

    /// Takes the key of one value more, which comes last. What is noted of the block of the last one before says its block's number.
    pub fn push(&mut self, value: ValueKey)
        requires book { IsOfSameBook value self.old }
        requires leads { LeadsTo self.old value }
        ensures { Pushes self.old value self.new }
    {
        let mut keys = value.keys;
        self.keys.join(&mut keys);
    }

    /// Takes all the others, which come after its own. They lead on to each other.
    pub fn append(&mut self, other: &mut ValueKeys)
        requires book { book_in other.old ≡ book_in self.old }
        requires leads { LeadsOn self.old other.old }
        ensures { Appends self.old other.old self.new other.new }
    {
        self.keys.join(&mut other.keys);
    }

    /// The permit for what is lent with the values.
    pub fn permit(&self) -> Permit
        ensures { IsPermitOf (book_in self.now) (values_of self.now) result }
    {
        self.keys.permit()
    }

    /// No two of the values lie in one block: nobody has the key of a block twice.
    pub fn apart(&mut self)
        ensures { AreStill self.old self.new × LieApart (values_of self.old) }
    {
        self.keys.apart();
    }

    /// The key of the last value. There is one.
    pub fn pop(&mut self) -> ValueKey
        requires { values_of self.old ≢ [] }
        ensures { Pops self.old result self.new }
    {
        let mut last = self.keys.none();
        self.keys.part_last(&mut last);
        ValueKey { keys: last }
    }

    /// The key of the first value. There is one.
    pub fn next(&mut self) -> ValueKey
        requires { values_of self.old ≢ [] }
        ensures { Nexts self.old result self.new }
    {
        let mut first = self.keys.none();
        first.join(&mut self.keys);
        first.part(&mut self.keys);
        ValueKey { keys: first }
    }
}
