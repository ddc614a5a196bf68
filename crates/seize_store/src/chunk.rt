//! A chunk, as the store has it: the room of one block, which is in or out. Its memory comes from `strip`, its room goes out as one of
//! `block`, and `row` keeps the chunks.
ghost use Rattle.std.specs.Prelude.{◌≡◌, ℕ, ◌<◌, List, length, IfSome};
ghost use base.Stored.{coded_list};
ghost use denote.RawPtr.{Ptr, coded_ptr};
ghost use denote.Sharing.{said};
ghost use Rattle.seize_content.specs.Stages.{held};
ghost use Rattle.seize_store.specs.Row.{IsRow, at_entry, fact};
ghost use Rattle.seize_table.specs.Pairs.{left_of, right_of};
ghost use Rattle.seize_store.specs.Chunk.{chunk_owns, chunk_shares, remains_own};

use crate::block::Out;
use crate::strip::Piece;
use seize_content::Ticket;
use seize_table::Labelled;
use std::marker::{Brand, Model};
use std::sync::atomic::Ordering::SeqCst;
use std::sync::atomic::raw;

/// The memory of a chunk. With the rest two chunks are 64 bytes apart or more, and 56 where header, owner's part and value are empty. The
/// head of a row is laid out in the same way: its state counts the row's chunks that were not laid back, and only it has a length, of the
/// row with its head.
pub(crate) struct Body<H, P, T> {
    pub(crate) state: u64,
    pub(crate) header: H,
    pub(crate) part: P,
    pub(crate) room: T,
    // Where the head lies. The type can't name itself behind a pointer.
    pub(crate) head: *mut u8,
    pub(crate) len: usize,
    rest: [u64; 4],
}

/// Where the chunks of a row lie: one after the other, from a first one on.
#[derive(Drop)]
pub(crate) struct Base<H, P, T> {
    pub(crate) at: *mut Body<H, P, T>,
    pub(crate) ghost places: { List Ptr } by { coded_list coded_ptr },
}

impl<H, P, T> Model for Base<H, P, T> {
    ghost also_owns = { λ b. fact (IsRow H.row P.row T.row b.at b.places) };

    ghost also_shares = { λ b _ κ. said (fact (IsRow H.row P.row T.row b.at b.places)) κ };
}

unsafe impl<H, P, T> Send for Base<H, P, T> {}

unsafe impl<H, P, T> Sync for Base<H, P, T> {}

/// The store's side of a chunk.
pub(crate) struct Chunk<H, P: Labelled, T> {
    pub(crate) at: *mut Body<H, P, T>,
    pub(crate) ghost life: { ℕ },
    pub(crate) ghost out: { ℕ },
    pub(crate) ghost home: { ℕ },
    pub(crate) ghost tag: { ℕ },
    pub(crate) ghost header: { H },
}

impl<H, P: Labelled, T> Model for Chunk<H, P, T> {
    ghost also_owns = { λ c. chunk_owns H.row P.row T.row P.label c.tag c.life c.out c.home c.at c.header };

    ghost also_shares = { λ c _ κ. chunk_shares H.row P.row T.row P.label c.tag c.life c.out c.home c.at c.header κ };
}

impl<H, P: Labelled, T> Chunk<H, P, T> {
    ghost use Rattle.seize_store.specs.Parts.{chunk_at, lies_with, piece_at, room_with};

    /// A chunk that is in.
    pub(crate) fn of(piece: Piece<H, P, T>, header: H, part: P, ticket: Ticket) -> Chunk<H, P, T>
        requires { ticket.says ≡ held }
        ensures { (chunk_at result ≡ piece_at piece) × (result.header ≡ header)
            × ((left_of result.tag ≡ P.label part) × (right_of result.tag ≡ ticket.name)) }
    {
        let Piece { at } = piece;
        let Ticket { marker: _ } = ticket;
        unsafe {
            (&raw mut (*at).state).write(0);
            (&raw mut (*at).header).write(header);
            (&raw mut (*at).part).write(part);
        }
        Chunk { at }
    }

    /// The header, for as long as the store is shared, found by where the row's chunks begin and not by this handle.
    pub(crate) fn header_by(&self, base: &Base<H, P, T>, entry: usize) -> &H
        requires { (entry < length base.now.places) × (chunk_at self.now ≡ at_entry base.now.places entry) }
        ensures { result.now ≡ self.now.header }
    {
        unsafe { &(*base.at.add(entry)).header }
    }

    /// Whether the chunk was in at that moment. One load.
    pub(crate) fn is_in(&self) -> bool {
        let at = self.at;
        let word = unsafe { raw::load::<Brand>(&raw const (*at).state, SeqCst) };
        word == 0
    }

    /// Takes the room, with the owner's part, unless it is out. One swap.
    pub(crate) fn claim(&self) -> Option<Out<H, P, T>>
        ensures { IfSome result (λ out. room_with out ≡ lies_with self.now) }
    {
        let at = self.at;
        if unsafe { raw::swap::<Brand>(&raw const (*at).state, 1, SeqCst) } == 0 {
            Some(Out { at })
        } else {
            None
        }
    }

    /// The store goes. The header comes out; the memory comes too, unless the room is out: then it goes to who gives that back.
    pub(crate) fn close(self) -> (H, Option<Remains<H, P, T>>)
        ensures { result.0 ≡ self.header }
    {
        let Chunk { at } = self;
        let header = unsafe { (&raw const (*at).header).read() };
        if unsafe { raw::swap::<Brand>(&raw const (*at).state, 2, SeqCst) } == 0 {
            (header, Some(Remains { at }))
        } else {
            (header, None)
        }
    }
}

/// All the memory of a chunk that has no two sides any more, with the owner's part in it.
pub(crate) struct Remains<H, P, T> {
    pub(crate) at: *mut Body<H, P, T>,
}

impl<H, P, T> Model for Remains<H, P, T> {
    ghost also_owns = { λ r. remains_own H.row P.row T.row r.at };
}

impl<H, P, T> Remains<H, P, T> {
    /// The owner's part by value, and the memory.
    pub(crate) fn take(self) -> (P, Piece<H, P, T>) {
        let Remains { at } = self;
        let part = unsafe { (&raw const (*at).part).read() };
        (part, Piece { at })
    }
}

// A value passes from thread to thread only with its block, so of T nothing is asked. An owner's part does so by a claim.
unsafe impl<H: Send, P: Labelled + Send, T> Send for Chunk<H, P, T> {}

unsafe impl<H: Sync, P: Labelled + Send, T> Sync for Chunk<H, P, T> {}
