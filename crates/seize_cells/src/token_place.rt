//! Where the token of a cell lies, for one thread: it is there, or the thread has it.
ghost use Rattle.std.specs.Prelude.{◌≡◌, IfSome};

use crate::local_cell::LocalCell;
use crate::tag::Tag;
use seize_content::{CellToken, Steady, SteadyCell};
use std::sync::Wait;
use std::thread;

// What lies there, with the name of the cell.
#[derive(Drop)]
struct Laid {
    token: Option<CellToken>,
    tag: Tag,
}

impl Steady for Laid {
    ghost label = { λ laid. laid.tag.name };

    ghost sound = { λ laid. IfSome laid.token (λ token. token.name ≡ laid.tag.name) };
}

// By which proofs know the cell.
#[derive(Drop)]
struct Named<'a, M: Steady> {
    cell: &'a SteadyCell<M>,
}

impl<M: Steady> Steady for Named<'_, M> {
    ghost label = { λ named. named.cell.now.name };

    ghost sound = { λ _. Unit {0} };
}

/// A place for the token of one cell.
#[derive(Drop)]
pub(crate) struct TokenPlace {
    place: LocalCell<Laid>,
}

impl TokenPlace {
    /// The place of this cell's token, which lies there.
    pub(crate) fn new<M: Steady>(cell: &SteadyCell<M>, token: CellToken) -> TokenPlace
        requires { token.name ≡ cell.now.name }
        ensures { result.place ≡ cell.now.name }
    {
        let tag = LocalCell::new(Named { cell }).tag();
        let token = Some(token);
        TokenPlace {
            place: LocalCell::new(Laid { token, tag }),
        }
    }

    /// The token, if it is there.
    #[inline(always)]
    pub(crate) fn take(&self) -> Option<CellToken>
        ensures { IfSome result (λ token. token.name ≡ self.now.place) }
    {
        let tag = self.place.tag();
        self.place.replace(Laid { token: None, tag }).token
    }

    /// The token, as soon as it is there. Where the thread has it already, that is never.
    pub(crate) fn wait(&self, rt: &impl Wait) -> CellToken
        ensures { result.name ≡ self.now.place }
    {
        for _ in rt.forever() {
            if let Some(token) = self.take() {
                return token;
            }
            thread::yield_now();
        }
        unreachable!()
    }

    /// Lays the token there.
    #[inline(always)]
    pub(crate) fn give(&self, token: CellToken)
        requires { token.name ≡ self.now.place }
    {
        let tag = self.place.tag();
        let token = Some(token);
        self.place.replace(Laid { token, tag });
    }
}
