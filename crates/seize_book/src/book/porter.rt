//! Porters: a porter lends the passes of its book to those who share it by `&`, and comes home for a caller who has it alone.
ghost use Rattle.std.specs.Prelude.{◌≡◌, ℕ, Bool, false, true, List};
ghost use base.Fml.{fsep};
ghost use base.Stored.{coded_list};
ghost use Rattle.std.specs.Coded.{coded_bool};
ghost use Rattle.seize_book.specs.Bounds.{had_size};
ghost use Rattle.seize_book.specs.Shared.{porter_has, porter_shares};
ghost use Rattle.seize_book.specs.Entry.{Entry, entry_coded};
ghost use Rattle.seize_book.specs.Tokens.{Name, name_coded};

use crate::book::pass::Pass;
use crate::book::permit::{Permit, Permitted};
use crate::book::seen::Seen;
use crate::book::sizes::Sizes;
use std::marker::{Model, PhantomData};

/// Lends the passes of its book, of which it is the one porter. If it is dropped, nobody adds to the list any more: the passes that it
/// lent are over by then.
pub struct Porter {
    pub(super) marker: PhantomData<()>,
    /// The book.
    pub ghost name: { Name } by { name_coded },
    /// The batch size: a slot's call attempts its batch when that has so many values, and at least one.
    pub ghost size: { ℕ },
    /// The beginning of the list that it has seen.
    pub ghost seen: { List Entry } by { coded_list entry_coded },
    /// Whether it is at home: nobody may add to the list, and the whole of it is what the porter has seen.
    pub ghost home: { Bool } by { coded_bool },
}

impl Model for Porter {
    ghost also_owns = { λ p. fsep (had_size p.name.gate.sizes p.size) (porter_has p.name p.home p.seen) };

    ghost also_shares = { λ p _ κ. fsep (had_size p.name.gate.sizes p.size) (porter_shares p.name p.home p.seen κ) };
}

// Where the first pass lies while it is lent.
struct Place {
    marker: PhantomData<&'static ()>,
}

/// A piece of work that [`Porter::stay`] lends the first pass, and that leaves this pass there.
pub trait Stay<R> {
    ghost use Rattle.seize_book.specs.Passes.{IsSamePass};
    ghost use Rattle.seize_book.specs.declared.book.pass.Pass.{Pass};

    /// With which passes the work may be done.
    ghost may: { Self → Pass → Type 0 };

    /// What the work does: from the work and the pass as they were before, to both as they are afterwards, and the result.
    ghost gives: { Self → Self → Pass → Pass → R → Type 0 };

    /// Does the work. It leaves the pass that it was lent, and no other one in its place.
    fn stay(&mut self, pass: &mut Pass<'static>) -> R
        requires { may self.old pass.old }
        ensures { IsSamePass pass.old pass.new × gives self.old self.new pass.old pass.new result };
}

impl Porter {
    ghost use mathlib.Core.List.{IsPrefix};
    ghost use Rattle.seize_book.specs.Lending.{ArePairsPermitted, IsPermitForAll};
    ghost use Rattle.seize_book.specs.Passes.{LooksOn};
    ghost use Rattle.seize_book.specs.Porters.{ComesHome, GrewByOthers, HadStay, LeavesHome, LendsPass, MayStay, OpensAgain, Resizes, Shuts, most_raised};
    ghost use Rattle.seize_book.specs.Tokens.{IsSole};

    /// A new pass, which has seen what the porter has, and perhaps more; a kept [`Seen`] tells a new pass what an earlier one saw
    /// ([`Pass::learn`]). It lasts for as long as the porter is shared: a caller who has the porter alone again may come home or leave,
    /// whether the pass was dropped or forgotten, here or by another thread.
    ///
    /// A `Pass` has a `Drop`, so its holder drops or forgets it before the porter is borrowed by `&mut`. The call takes no memory, and does
    /// nothing when the program runs.
    pub fn pass(&self) -> Pass<'_>
        requires { self.now.home ≡ false }
        ensures { LendsPass self.now result }
    {
        Pass {
            marker: PhantomData,
        }
    }

    /// Looks at the list with one of its passes, and adds nothing. The pass has seen what the porter has then, and nothing was made with
    /// the first pass since the porter left home: nobody has that pass meanwhile. The look gives two permits, both for the list that the
    /// pass has seen then: that for what is lent with each value that was ever named, and that for the pairs of all exchanges that were
    /// won, but for those of the first pass. It does nothing when the program runs.
    pub fn look(&self, pass: &mut Pass) -> Permitted
        requires { (self.now.home ≡ false) × (pass.old.name ≡ self.now.name) }
        ensures { LooksOn pass.old pass.new × GrewByOthers self.now pass.new
            × IsPermitForAll pass.new result.named × ArePairsPermitted pass.new result.pairs }
    {
        Permitted {
            named: Permit {
                marker: PhantomData,
            },
            pairs: Permit {
                marker: PhantomData,
            },
        }
    }

    /// Sets the batch size of the passes that it lends from then on. A size of 0 serves as 1: a batch to which a value was just added has
    /// one. No pass that it lent before lasts. The greatest size that the book ever had is this one then, if it is greater. Contracts alone
    /// see the size, so a caller keeps the number for its calls.
    pub fn set_size(&mut self, _size: usize, sizes: &mut Sizes)
        requires { sizes.old.name ≡ self.old.name }
        ensures { Resizes self.old self.new _size × (sizes.new ≡ most_raised sizes.old _size) }
    {}

    /// Leaves home: callers who share it by `&` are lent passes from then on.
    pub fn leave_home(&mut self)
        ensures { LeavesHome self.old self.new }
    {}

    /// Comes home, where all passes are over that it lent: nobody may add to the list until the porter leaves, and it has seen the whole of
    /// it.
    pub fn come_home(&mut self)
        ensures { ComesHome self.old self.new }
    {}

    /// At home the porter has the whole list: it has seen what each [`Seen`] of it has. So what a thread keeps in one of what its pass saw
    /// is known here. It does nothing: its contract is the law.
    pub fn covers(&mut self, book: &Seen)
        requires { (self.old.home ≡ true) × (book.now.name ≡ self.old.name) }
        ensures { (self.new ≡ self.old) × IsPrefix book.now.seen self.new.seen }
    {}

    /// Comes home and gives the first pass of the book, which has seen the whole list. It is alone: nobody else can add to the list until
    /// [`Porter::again`] opens the gate.
    pub fn shut(self) -> Pass<'static>
        ensures { Shuts self result }
    {
        let Self { marker: _ } = self;
        Pass {
            marker: PhantomData,
        }
    }

    /// Comes home and lends the first pass of the book to a piece of work. The pass has seen the whole list, which is the porter's own if
    /// that was at home. It is alone: until the work ends, nobody else can add to the list. Afterwards the porter is at home, and has seen
    /// what the pass had seen when the work ended, which goes on from what it had seen when it was lent. The caller knows the work as it is
    /// then.
    ///
    /// The call itself takes no memory and waits for nobody; the work may do both.
    pub fn stay<W: Stay<R>, R>(&mut self, work: &mut W) -> R
        requires { MayStay (W.may work.old) self.old }
        ensures { HadStay (λ lent back. W.gives work.old work.new lent back result) self.old self.new }
    {
        let mut place = Place {
            marker: PhantomData,
        };
        let at = (&mut place as *mut Place).cast::<Pass<'static>>();
        let result = work.stay(unsafe { &mut *at });
        let Place { marker: _ } = place;
        result
    }

    /// Opens the gate again, to which the first pass was alone. The porter is at home.
    pub fn again(pass: Pass<'static>) -> Porter
        requires { IsSole pass.id }
        ensures { OpensAgain pass.entry result }
    {
        pass.open_again()
    }
}

impl Drop for Porter {
    fn drop(self) {
        let Self { marker: _ } = self;
    }
}

unsafe impl Send for Porter {}

unsafe impl Sync for Porter {}
