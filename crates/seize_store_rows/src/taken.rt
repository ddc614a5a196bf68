//! Values that are taken out of bare blocks: what comes out, and where the chunks go afterwards.
ghost use Rattle.std.specs.Prelude.{◌≡◌};
ghost use Rattle.seize_store.specs.Named.{AreOfStore, bare_content, bare_label, bare_number, bare_value, count_of, count_with, hollow_content, hollow_label, hollow_number, owned_value, store_of, title_of, titles_of, titles_with};

use seize_store::{Bare, Hollow, Labelled, Owned, Spots};

/// What is left of a block has its number, its label and its content.
pub(crate) fn hollowed<H, P: Labelled + Drop, T: Drop>(bare: Bare<H, P, T>) -> (T, Hollow<H, P, T>)
    ensures value { result.0 ≡ bare_value bare }
    ensures number { hollow_number result.1 ≡ bare_number bare }
    ensures label { hollow_label result.1 ≡ bare_label bare }
    ensures content { hollow_content result.1 ≡ bare_content bare }
{
    bare.take()
}

/// The value by value, and its chunk into the list, as `empty_into` does both.
pub(crate) fn taken_into<H, P: Labelled + Drop, T: Drop>(
    owned: Owned<H, P, T>,
    spots: &mut Spots<H, P, T>,
) -> T
    requires { AreOfStore spots.old (store_of owned) }
    ensures value { result ≡ owned_value owned }
    ensures spots { AreOfStore spots.new (store_of owned) }
    ensures count { count_of spots.new ≡ count_with (count_of spots.old) }
    ensures last { titles_of spots.new ≡ titles_with (titles_of spots.old) (title_of owned) }
{
    let (part, bare) = owned.split();
    let (value, hollow) = bare.take();
    hollow.put_into(part, spots);
    value
}
