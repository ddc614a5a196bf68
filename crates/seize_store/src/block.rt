//! A chunk's room in its holder's hands: an empty room, a block, which is a value in a room, and each of these without the owner's part,
//! a shell and a hull. Each has the ticket of the chunk's content. It uses `chunk` for the memory and `row_token` for titles; `spot`,
//! `owned`, `hollow` and `bare` wrap these for who holds them.
ghost use Rattle.std.specs.Prelude.{◌≡◌, ◌≢◌, ℕ};
ghost use Rattle.std.specs.Borrow.{sem};
ghost use Rattle.seize_store.specs.Block.{out_owns, block_owns, block_shares, hull_owns, hull_shares, shell_owns};
ghost use Rattle.seize_store.specs.Titled.{title_place, title_tag};
ghost use Rattle.seize_table.specs.Pairs.{left_of};

use crate::chunk::{Body, Remains};
use crate::row_token::Title;
use seize_table::Labelled;
use std::marker::{Brand, Model};
use std::sync::atomic::Ordering::SeqCst;
use std::sync::atomic::raw;

/// The room of a chunk that is out, and empty, with the owner's part.
pub(crate) struct Out<H, P: Labelled, T> {
    pub(crate) at: *mut Body<H, P, T>,
    pub(crate) ghost tag: { ℕ },
}

impl<H, P: Labelled, T> Model for Out<H, P, T> {
    ghost also_owns = { λ o. out_owns H.row P.row T.row P.label o.at o.tag };
}

/// A value in the room of a chunk, with the owner's part.
pub(crate) struct Block<H, P: Labelled, T> {
    at: *mut Body<H, P, T>,
    pub(crate) title: Title,
    pub(crate) ghost value: { T },
}

impl<H, P: Labelled, T> Model for Block<H, P, T> {
    ghost also_owns = { λ o. block_owns H.row P.row T.row P.label (title_place o.title) (title_tag o.title) o.at o.value };

    ghost also_shares = { λ o _ κ. block_shares H.row P.row T.row P.label (title_tag o.title) o.at o.value κ };
}

impl<H, P: Labelled, T> Out<H, P, T> {
    /// Puts the room and the owner's part back into their chunk: one swap. Where the store is gone, the chunk's memory comes out.
    pub(crate) fn give_back(self) -> Option<Remains<H, P, T>> {
        let Out { at } = self;
        if unsafe { raw::swap::<Brand>(&raw const (*at).state, 0, SeqCst) } == 2 {
            Some(Remains { at })
        } else {
            None
        }
    }
}

impl<H, P: Labelled, T> Out<H, P, T> {
    ghost use Rattle.seize_store.specs.Parts.{out_room_at, room_with};

    /// Two rooms that are out at once lie apart. It does nothing: its contract says so.
    pub(crate) fn differ(self, other: Out<H, P, T>) -> (Out<H, P, T>, Out<H, P, T>)
        ensures { (room_with result.0 ≡ room_with self) × (room_with result.1 ≡ room_with other) × (out_room_at self ≢ out_room_at other) }
    {
        let Out { at: first } = self;
        let Out { at: second } = other;
        (Out { at: first }, Out { at: second })
    }
}

impl<H, P: Labelled, T> Block<H, P, T> {
    ghost use Rattle.seize_store.specs.Lends.{lends_room};
    ghost use Rattle.seize_store.specs.Parts.{block_title, hull_with, room_with};
    ghost use Rattle.seize_store.specs.Titled.{chunk_of};

    /// A block in this room. It takes no memory and no atomic step.
    pub(crate) fn of(out: Out<H, P, T>, title: Title, value: T) -> Block<H, P, T>
        requires { chunk_of title ≡ room_with out }
        ensures { (result.value ≡ value) × (block_title result ≡ title) }
    {
        let Out { at } = out;
        unsafe { (&raw mut (*at).room).write(value) };
        Block { at, title }
    }

    /// The value, for as long as the block is borrowed.
    pub(crate) fn get(&self) -> &T
        ensures { result.now ≡ self.now.value }
    {
        unsafe { &(*self.at).room }
    }

    /// The value, to be changed, for as long as the block is borrowed. All else of the block stays.
    pub(crate) fn get_mut(&mut self) -> &mut T
        ensures* writes_back { sem 𝓛 (lends_room H.row P.row T.row P.label self.entry result) }
        ensures value { result.now ≡ self.old.value }
    {
        unsafe { &mut (*self.at).room }
    }

    pub(crate) fn title(&self) -> &Title
        ensures { result.now ≡ block_title self.now }
    {
        &self.title
    }

    /// The value by value, and the room where it lay.
    pub(crate) fn empty(self) -> (T, Out<H, P, T>, Title)
        ensures { (result.0 ≡ self.value) × (chunk_of result.2 ≡ room_with result.1) × (result.2 ≡ block_title self) }
    {
        let Block { at, title } = self;
        let value = unsafe { (&raw const (*at).room).read() };
        (value, Out { at }, title)
    }
    /// The owner's part by value, and the block without it.
    pub(crate) fn split(self) -> (P, Hull<H, P, T>, Title)
        ensures { (P.label result.0 ≡ left_of (title_tag (block_title self))) × (result.1.value ≡ self.value)
            × (chunk_of result.2 ≡ hull_with result.1) × (result.2 ≡ block_title self) }
    {
        let Block { at, title } = self;
        let part = unsafe { (&raw const (*at).part).read() };
        (part, Hull { at }, title)
    }
}

/// A value in the room of a chunk that is out, while the owner's part is elsewhere, with the ticket of the chunk's content.
pub(crate) struct Hull<H, P: Labelled, T> {
    pub(crate) at: *mut Body<H, P, T>,
    pub(crate) ghost tag: { ℕ },
    pub(crate) ghost value: { T },
}

impl<H, P: Labelled, T> Model for Hull<H, P, T> {
    ghost also_owns = { λ o. hull_owns H.row P.row T.row P.label o.at o.tag o.value };

    ghost also_shares = { λ o _ κ. hull_shares H.row P.row T.row P.label o.at o.value κ };
}

impl<H, P: Labelled, T> Hull<H, P, T> {
    ghost use Rattle.seize_store.specs.Parts.{block_title, hull_with, shell_with};
    ghost use Rattle.seize_store.specs.Titled.{chunk_of};

    /// The block, with the owner's part in it. It takes no memory and no atomic step.
    pub(crate) fn with(self, title: Title, part: P) -> Block<H, P, T>
        requires { (chunk_of title ≡ hull_with self) × (P.label part ≡ left_of (title_tag title)) }
        ensures { (result.value ≡ self.value) × (block_title result ≡ title) }
    {
        let Hull { at } = self;
        unsafe { (&raw mut (*at).part).write(part) };
        Block { at, title }
    }

    /// The value, for as long as the hull is borrowed.
    pub(crate) fn get(&self) -> &T
        ensures { result.now ≡ self.now.value }
    {
        let at = self.at;
        unsafe { &(*at).room }
    }

    /// The value by value, and the room where it lay.
    pub(crate) fn take(self) -> (T, Shell<H, P, T>)
        ensures { (result.0 ≡ self.value) × (shell_with result.1 ≡ hull_with self) }
    {
        let Hull { at } = self;
        let taken = unsafe { (&raw const (*at).room).read() };
        (taken, Shell { at })
    }
}

/// The room of a chunk that is out, and empty, while the owner's part is elsewhere, with the ticket of the chunk's content. Where it ends,
/// the chunk stays out for good.
#[derive(Drop)]
pub(crate) struct Shell<H, P: Labelled, T> {
    pub(crate) at: *mut Body<H, P, T>,
    pub(crate) ghost tag: { ℕ },
}

impl<H, P: Labelled, T> Model for Shell<H, P, T> {
    ghost also_owns = { λ o. shell_owns H.row P.row T.row P.label o.at o.tag };
}

impl<H, P: Labelled, T> Shell<H, P, T> {
    ghost use Rattle.seize_store.specs.Parts.{room_with, shell_with};

    /// The room with the owner's part. It takes no memory and no atomic step.
    pub(crate) fn with(self, part: P) -> Out<H, P, T>
        requires { P.label part ≡ left_of self.tag }
        ensures { room_with result ≡ shell_with self }
    {
        let Shell { at } = self;
        unsafe { (&raw mut (*at).part).write(part) };
        Out { at }
    }
}

unsafe impl<H, P: Labelled + Send, T> Send for Out<H, P, T> {}

unsafe impl<H, P: Labelled + Send, T: Send> Send for Block<H, P, T> {}

unsafe impl<H, P: Labelled + Sync, T: Sync> Sync for Block<H, P, T> {}

unsafe impl<H, P: Labelled + Send, T: Send> Send for Hull<H, P, T> {}

unsafe impl<H, P: Labelled, T: Sync> Sync for Hull<H, P, T> {}

unsafe impl<H, P: Labelled + Send, T> Send for Shell<H, P, T> {}
