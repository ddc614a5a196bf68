//! Lists of calls, made one after another: each is the call of that name, and one reply says what it answered.

use crate::alone::Alone;
use crate::block::Owned;
use seize_parts::reclaim::{Reclaim, Watch};
use seize_table::Refusal;
use std::collections::VecDeque;

/// One call of a list, with the slot that makes it. A block that it brings is dropped with it where the call is never made.
#[derive(Drop)]
pub enum Call<T: Drop> {
    /// [`Alone::register`](crate::Alone::register)
    Register,
    /// [`Alone::enter_owned`](crate::Alone::enter_owned)
    EnterOwned,
    /// [`Alone::enter`](crate::Alone::enter)
    Enter(usize),
    /// [`Alone::leave`](crate::Alone::leave)
    Leave(usize),
    /// [`Alone::end`](crate::Alone::end)
    End(usize),
    /// [`Alone::refresh`](crate::Alone::refresh)
    Refresh(usize),
    /// [`Alone::flush`](crate::Alone::flush)
    Flush(usize),
    /// [`Alone::retire`](crate::Alone::retire) of a block that was never in a link, with its kind
    Retire(usize, Owned<T>, u64),
    /// [`Alone::protect`](crate::Alone::protect): whether the link holds a block
    Protect(usize, usize),
    /// [`Alone::swap`](crate::Alone::swap) of the link; what the link held is retired by the slot, with this kind
    Swap(usize, usize, Option<Owned<T>>, u64),
}

/// What a call of a list answers.
#[derive(Drop)]
pub enum Reply<T: Drop> {
    /// The call was done.
    Done,
    /// The number that was taken.
    Slot(usize),
    /// The end of a slot gave no number back, since a guard keeps it.
    Kept,
    /// Whether the link holds a block.
    Found(bool),
    /// The call was refused, and the block that was given comes back.
    Refused(Refusal, Option<Owned<T>>),
}

impl<T: Drop> Reply<T> {
    ghost use Rattle.std.specs.Prelude.{◌≡◌, None};
    ghost use Rattle.seize_model.specs.Waiting.Lists as lists;
    ghost use Rattle.seize.specs.Running.{reply_of};

    // To a call that takes a number.
    fn number(answer: Result<usize, Refusal>) -> Reply<T>
        ensures { reply_of result ≡ lists.reply_to lists.Number None answer }
    {
        match answer {
            Ok(number) => Reply::Slot(number),
            Err(refusal) => Reply::Refused(refusal, None),
        }
    }

    // To a call that answers nothing but its refusal.
    fn plain(answer: Result<(), Refusal>) -> Reply<T>
        ensures { reply_of result ≡ lists.reply_to lists.done_reply None answer }
    {
        match answer {
            Ok(()) => Reply::Done,
            Err(refusal) => Reply::Refused(refusal, None),
        }
    }
}

impl<T: Drop, R: Reclaim<T>> Alone<T, R> {
    ghost use Rattle.std.specs.Prelude.{◌≡◌, [], IfErr, IfOk};
    ghost use Rattle.seize_table.specs.declared.refusal.Refusal.TheVariants.{NoMemory as no_memory};
    ghost use Rattle.seize.specs.Alones.{IsSame, ListGrows};
    ghost use Rattle.seize.specs.Running.{AreFor, AreFrom, DoesCall, IsFor, IsFrom, Ran};

    // A block that was never in a link is retired. Whether the number is in use comes first, so a refusal gives the block back as it was.
    fn retires<W: Watch<T>>(
        &mut self,
        s: usize,
        owned: Owned<T>,
        kind: u64,
        watch: &mut W,
    ) -> Reply<T>
        requires { IsFor R.owners self.old.book.store self.old.links (Call.Retire s owned kind) }
        ensures done { DoesCall R.puts R.weight W.told (Call.Retire s owned kind) result self.old.state self.new.state
            (W.seen watch.old) (W.seen watch.new) }
        ensures own { IsFrom R.owners self.old.book.store result }
        ensures same { IsSame self.old self.new }
        ensures grows { ListGrows self.old self.new }
        ensures same_reference { watch.exit.ghost_name ≡ watch.entry.ghost_name }
    {
        if self.known(s).is_none() {
            return Reply::Refused(Refusal::NotInUse, Some(owned));
        }
        let taken = self.taken(owned);
        self.retire_in(s, taken, kind, watch);
        Reply::Done
    }

    // A link is exchanged, and what it held is retired. The slot has a guard then, so that is not refused.
    fn swaps<W: Watch<T>>(
        &mut self,
        s: usize,
        link: usize,
        new: Option<Owned<T>>,
        kind: u64,
        watch: &mut W,
    ) -> Reply<T>
        requires { IsFor R.owners self.old.book.store self.old.links (Call.Swap s link new kind) }
        ensures done { DoesCall R.puts R.weight W.told (Call.Swap s link new kind) result self.old.state self.new.state
            (W.seen watch.old) (W.seen watch.new) }
        ensures own { IsFrom R.owners self.old.book.store result }
        ensures same { IsSame self.old self.new }
        ensures grows { ListGrows self.old self.new }
        ensures same_reference { watch.exit.ghost_name ≡ watch.entry.ghost_name }
    {
        let old = match self.swap(s, link, new) {
            Ok(Some(old)) => old,
            Ok(None) => return Reply::Done,
            Err((refusal, new)) => return Reply::Refused(refusal, new),
        };
        self.retire_in(s, old, kind, watch);
        Reply::Done
    }

    // One call of a list.
    fn reply<W: Watch<T>>(&mut self, call: Call<T>, watch: &mut W) -> Reply<T>
        requires { IsFor R.owners self.old.book.store self.old.links call }
        ensures done { DoesCall R.puts R.weight W.told call result self.old.state self.new.state (W.seen watch.old) (W.seen watch.new) }
        ensures own { IsFrom R.owners self.old.book.store result }
        ensures same { IsSame self.old self.new }
        ensures grows { ListGrows self.old self.new }
        ensures same_reference { watch.exit.ghost_name ≡ watch.entry.ghost_name }
    {
        match call {
            Call::Register => Reply::number(self.register(watch)),
            Call::EnterOwned => Reply::number(self.enter_owned(watch)),
            Call::Enter(s) => Reply::plain(self.enter(s)),
            Call::Leave(s) => Reply::plain(self.leave(s, watch)),
            Call::End(s) => match self.end(s, watch) {
                Ok(true) => Reply::Done,
                Ok(false) => Reply::Kept,
                Err(refusal) => Reply::Refused(refusal, None),
            },
            Call::Refresh(s) => Reply::plain(self.refresh(s, watch)),
            Call::Flush(s) => Reply::plain(self.flush(s, watch)),
            Call::Retire(s, owned, kind) => self.retires(s, owned, kind, watch),
            Call::Protect(s, link) => match self.protect(s, link) {
                Ok(found) => Reply::Found(found.is_some()),
                Err(refusal) => Reply::Refused(refusal, None),
            },
            Call::Swap(s, link, new, kind) => self.swaps(s, link, new, kind, watch),
        }
    }

    /// Takes the calls from the front, and adds one reply for each. Every link that they name is below `links()`, and every block that they
    /// bring is of this collector, with each block inside it that the reclaimer's `owners` names.
    ///
    /// It first makes room for all replies. Where memory for a number is refused, that call's reply says so, and the next calls follow. The
    /// other calls take no memory. It waits for nobody, but for what watch and reclaimer do. The watch is told of each value that is gone,
    /// in order.
    ///
    /// # Errors
    ///
    /// `NoMemory` where there is no room for all replies. Nothing was done then.
    pub fn run<W: Watch<T>>(
        &mut self,
        calls: &mut VecDeque<Call<T>>,
        replies: &mut Vec<Reply<T>>,
        watch: &mut W,
    ) -> Result<(), Refusal>
        requires { AreFor R.owners self.old.book.store self.old.links calls.old.items }
        ensures ran { IfOk result (λ _. (calls.new.items ≡ []) × Ran R.puts R.weight W.told calls.old.items replies.old.items
            replies.new.items self.old.state self.new.state (W.seen watch.old) (W.seen watch.new)) }
        ensures refused { IfErr result (λ refusal. (refusal ≡ no_memory) × (self.new ≡ self.old)
            × (W.seen watch.new ≡ W.seen watch.old) × (calls.new.items ≡ calls.old.items) × (replies.new.items ≡ replies.old.items)) }
        ensures own { AreFrom R.owners self.old.book.store replies.old.items → AreFrom R.owners self.old.book.store replies.new.items }
        ensures same { IsSame self.old self.new }
        ensures grows { ListGrows self.old self.new }
        ensures same_reference { watch.exit.ghost_name ≡ watch.entry.ghost_name }
    {
        replies.reserve(calls.len())?;
        while let Some(call) = calls.pop_front() {
            let reply = self.reply(call, watch);
            replies.push_reserved(reply);
        }
        Ok(())
    }
}
