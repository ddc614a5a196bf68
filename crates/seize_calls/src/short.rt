//! A retirement that attempts nothing: with its value too, the slot's batch has fewer values than the batch size says. It has no need of a
//! reclaimer, nor of a manner, and so it is no call that may wait.
use crate::batch::Newcomer;
use crate::further::Further;
use crate::holder::Holder;
use seize_words::book::Pass;
use seize_words::words::Words;

impl<T: Drop> Holder<T> {
    ghost use Rattle.std.specs.Prelude.{◌≡◌, ◌+◌, ◌<◌, [], length, true, false};
    ghost use Rattle.seize_machine.specs.Machine.State.{is_idle};
    ghost use Rattle.seize_book.specs.Others.{MayRetire, book_of, value_of};
    ghost use Rattle.seize_book.specs.Slots.{slot_of};
    ghost use Rattle.seize_book.specs.Values.{values_of};
    ghost use Rattle.seize_calls.specs.Batches.{keys_in};
    ghost use Rattle.seize_calls.specs.Calls.{RetiresOne};
    ghost use Rattle.seize_calls.specs.Laying.{Lays};
    ghost use Rattle.seize_calls.specs.Together.{IsHolderFor};

    /// Retires the value as `retire` does, where nothing is attempted then.
    ///
    /// It takes no memory and waits for nobody.
    #[inline(always)]
    pub(crate) fn retire_short(&mut self, words: &Words<T>, newcomer: Newcomer, pass: &mut Pass)
        requires holder { IsHolderFor words.now self.old pass.old × (is_idle (slot_of self.old.key) ≡ true) }
        requires value { (book_of newcomer.value ≡ pass.old.name) × MayRetire newcomer.value }
        requires short { length (values_of (keys_in self.old.batch)) + 1 < words.now.size }
        ensures holder { IsHolderFor words.now self.new pass.new }
        ensures laid { Lays pass.old self.old.spots pass.new self.new.spots }
        ensures retires { let v = value_of newcomer.value in let values = keys_in self.old.batch in
            RetiresOne self.old.key pass.old v newcomer.kept values [] self.new.key pass.new (keys_in self.new.batch) [] false }
    {
        let _queue = Further::new(pass);
        let mut newcomer = newcomer;
        let kept = newcomer.kept;
        self.key.begin_retire(&mut newcomer.value, kept, pass);
        self.key.put(pass);
        self.batch.push(&words.blocks, newcomer);
        self.key.finish(pass);
    }
}
