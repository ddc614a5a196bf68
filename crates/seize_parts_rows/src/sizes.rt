//! Tokens and words by their sizes.
use seize_words::activation::Activation;
use seize_words::batch::Count;
use seize_words::book::{
    BareKey, BookKeys, ChunkKeys, CountKey, FieldKey, FutureBook, HeadKey, LinkKeys, NumbersKey,
    Pass, Seen, SlotKey, SlotKeys, TotalKey, ValueKey, ValueKeys,
};
use seize_words::chunk::{Header, Part};
use seize_words::header::Field;
use seize_words::link::{Link, MaybeKey};
use seize_words::reservation::Head;
use seize_words::slots::Reservation;
use seize_words::total::Total;
use std::mem::size_of;
use std::test::*;

#[test]
fn tokens_have_no_bytes(rt: HostRuntime) {
    assert_eq!(rt; size_of::<Seen>() + size_of::<Pass>(), 0);
    assert_eq!(rt;
        size_of::<SlotKey>()
            + size_of::<ValueKey>()
            + size_of::<ValueKeys>()
            + size_of::<BareKey>()
            + size_of::<ChunkKeys>()
            + size_of::<Part>()
            + size_of::<FutureBook>()
            + size_of::<CountKey>()
            + size_of::<FieldKey>()
            + size_of::<NumbersKey>()
            + size_of::<TotalKey>()
            + size_of::<HeadKey>()
            + size_of::<SlotKeys>()
            + size_of::<BookKeys>()
            + size_of::<LinkKeys>()
            + size_of::<MaybeKey>()
            + size_of::<Activation>(),
        0
    );
}

// A head, a link, a count, a field and the total are one word each. In the table a head has 64 bytes on each side.
#[test]
fn words_have_eight_bytes(rt: HostRuntime) {
    assert_eq!(rt; size_of::<Head>(), 8);
    assert_eq!(rt; size_of::<Link>(), 8);
    assert_eq!(rt; size_of::<Count>(), 8);
    assert_eq!(rt; size_of::<Field>(), 8);
    assert_eq!(rt; size_of::<Total>(), 8);
    assert_eq!(rt; size_of::<Reservation>(), 64 + 8 + 64);
}

// A chunk's header is its block's three words, and what is noted of the block, as long as these.
#[test]
fn a_header_has_three_words_and_a_note(rt: HostRuntime) {
    assert_eq!(rt; size_of::<Header>(), 48);
}
