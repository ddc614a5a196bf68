//! The key of the numbers. It is `Keys` with one key.
ghost use Rattle.std.specs.Prelude.{◌≡◌, true};
ghost use mathlib.Core.List.{IsPrefix};
ghost use Rattle.seize_book.specs.Book.{numbers};
ghost use Rattle.seize_book.specs.Private.{is_one, key_of};

use crate::book::keys::Keys;
use crate::book::pass::Pass;

/// The right to take slots' numbers and to give them back. It knows which are in use, and what slots left in their batches as they ended.
///
/// Where it is dropped, no number is taken or given back any more, so no slot is made.
#[derive(Drop)]
pub struct NumbersKey {
    /// The right by itself, for crates with words.
    pub keys: Keys,
    ghost one: { is_one numbers keys.held ≡ true },
    ghost zero: { key_of keys.held ≡ 0 },
}

impl NumbersKey {
    ghost use Rattle.seize_machine.specs.Machine.Frames.{used};
    ghost use Rattle.seize_book.specs.Homesteads.{state_seen};
    ghost use Rattle.seize_book.specs.Others.{AreNumbersOf, FollowsNumbers, numbers_saw, rest_of, use_flags};
    ghost use Rattle.seize_book.specs.Passes.{LooksOn};

    /// Looks at the list with no event: so many slots were made, just those numbers are in use, and that was left, as the key
    /// knows.
    pub fn look(&mut self, pass: &mut Pass)
        requires book { AreNumbersOf self.old pass.old }
        ensures looks { LooksOn pass.old pass.new × FollowsNumbers self.old pass.new self.new
            × IsPrefix (numbers_saw self.old) pass.new.seen }
        ensures used { (used (state_seen pass.new) ≡ use_flags self.old) × (use_flags self.new ≡ use_flags self.old) }
        ensures rest { ((state_seen pass.new).rest ≡ rest_of self.old) × (rest_of self.new ≡ rest_of self.old) }
    {
        self.keys.look(pass);
    }
}
