//! The memory of a row: one allocation, cut into a head and its chunks. Each chunk's memory is laid back by itself, in any order and on
//! any thread, and the whole goes back with the last of them. `chunk` says how it is laid out; `row` takes and cuts it.
ghost use Rattle.std.specs.Prelude.{◌≡◌, ◌+◌, ◌<◌, List, ◌∷◌, length, IfOk, IfSome};
ghost use base.Stored.{coded_list};
ghost use denote.RawPtr.{Ptr, coded_ptr};
ghost use Rattle.seize_store.specs.Chunk.{piece_owns};
ghost use Rattle.seize_store.specs.Row.{Fits, rooms_own, strip_owns};

use crate::chunk::{Base, Body};
use std::alloc::{AllocError, Allocator, Global};
use std::marker::{Brand, Model, PhantomData};
use std::mem::{align_of, size_of};
use std::sync::atomic::Ordering::SeqCst;
use std::sync::atomic::raw;

/// Room for so many chunks, and the right to give it back.
pub(crate) struct Rooms<H, P, T, A: Allocator> {
    at: *mut Body<H, P, T>,
    pub(crate) len: usize,
    by: PhantomData<A>,
    pub(crate) ghost heap: { A },
}

impl<H, P, T, A: Allocator> Model for Rooms<H, P, T, A> {
    ghost also_owns = { λ r. rooms_own H.row P.row T.row (A.dealloc_token r.heap) r.at r.len };
}

impl<H, P, T, A: Allocator> Rooms<H, P, T, A> {
    ghost use Rattle.seize_store.specs.Parts.{room_count};

    pub(crate) fn take(alloc: &A, len: usize) -> Result<Rooms<H, P, T, A>, AllocError>
        requires { Fits H.row P.row T.row len }
        ensures { IfOk result (λ r. (room_count r ≡ len) × (r.heap ≡ alloc.now)) }
    {
        match alloc.allocate(
            len * size_of::<Body<H, P, T>>(),
            align_of::<Body<H, P, T>>(),
        ) {
            Ok(room) => {
                let at = room as *mut Body<H, P, T>;
                let by = PhantomData;
                Ok(Rooms { at, len, by })
            }
            Err(error) => Err(error),
        }
    }

    pub(crate) fn free(self, alloc: &A)
        requires { (self.heap ≡ alloc.now) × Fits H.row P.row T.row (room_count self) }
    {
        let Rooms { at, len, by: _ } = self;
        unsafe {
            alloc.deallocate(
                at as *mut u8,
                len * size_of::<Body<H, P, T>>(),
                align_of::<Body<H, P, T>>(),
            );
        }
    }
}

/// What is not cut into chunks yet of a row's memory.
#[derive(Drop)]
pub(crate) struct Strip<H, P, T> {
    at: *mut Body<H, P, T>,
    head: *mut Body<H, P, T>,
    // Where the chunks will lie.
    pub(crate) ghost places: { List Ptr } by { coded_list coded_ptr },
}

impl<H, P, T> Model for Strip<H, P, T> {
    ghost also_owns = { λ s. strip_owns H.row P.row T.row s.at s.head s.places };
}

impl<H, P, T> Strip<H, P, T> {
    ghost use Rattle.seize_store.specs.Parts.{piece_at, room_count};

    /// A row with its head, and room for so many chunks, which begin at that base.
    pub(crate) fn of(rooms: Rooms<H, P, T, Global>, left: u64) -> (Base<H, P, T>, Strip<H, P, T>)
        requires { (left + 1 ≡ room_count rooms) × Fits H.row P.row T.row (room_count rooms) }
        ensures { (result.1.places ≡ result.0.places) × (length result.0.places ≡ left) }
    {
        let Rooms {
            at: head,
            len,
            by: _,
        } = rooms;
        unsafe {
            (&raw mut (*head).state).write(left);
            (&raw mut (*head).len).write(len);
        }
        let at = unsafe { head.add(1) };
        (Base { at }, Strip { at, head })
    }

    /// The first chunk's memory, and the others.
    pub(crate) fn cut(self) -> (Piece<H, P, T>, Strip<H, P, T>)
        requires { 0 < length self.places }
        ensures { self.places ≡ piece_at result.0 ∷ result.1.places }
    {
        let Strip { at, head } = self;
        unsafe {
            (&raw mut (*at).head).write(head as *mut u8);
        }
        let rest = unsafe { at.add(1) };
        (Piece { at }, Strip { at: rest, head })
    }
}

/// The memory of a chunk.
pub(crate) struct Piece<H, P, T> {
    pub(crate) at: *mut Body<H, P, T>,
}

impl<H, P, T> Model for Piece<H, P, T> {
    ghost also_owns = { λ p. piece_owns H.row P.row T.row p.at };
}

impl<H, P, T> Piece<H, P, T> {
    ghost use Rattle.seize_store.specs.Parts.{room_count};

    // Lays the memory back: one atomic step. The whole row's comes out where this was the last.
    fn end(self) -> Option<Rooms<H, P, T, Global>>
        ensures { IfSome result (λ r. Fits H.row P.row T.row (room_count r)) }
    {
        let Piece { at } = self;
        let head = unsafe { (&raw const (*at).head).read() } as *mut Body<H, P, T>;
        if unsafe { raw::fetch_sub::<Brand>(&raw const (*head).state, 1, SeqCst) } == 1 {
            let len = unsafe { (&raw const (*head).len).read() };
            let by = PhantomData;
            Some(Rooms { at: head, len, by })
        } else {
            None
        }
    }

    /// Lays the memory back, and frees the row's where this was the last.
    pub(crate) fn give(self, alloc: &Global) {
        if let Some(rooms) = self.end() {
            rooms.free(alloc);
        }
    }
}

unsafe impl<H, P, T> Send for Piece<H, P, T> {}
