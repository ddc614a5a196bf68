//! Blocks that are lent: what readers see of one by its number, on one thread and on two, and what its owner gets back.
ghost use Rattle.std.specs.Prelude.{◌≡◌};
ghost use Rattle.seize_content.specs.Loans.{IsLent};
ghost use Rattle.seize_store.specs.RowTokens.{content_in, entry_of};
ghost use Rattle.seize_store.specs.Named.{IsRowOf, bare_known, bare_number, bare_store, bare_value, owned_number, owned_value, store_name, store_of};

use seize_content::Pool;
use seize_store::{Bare, Labelled, Owned, RowToken, Store};

/// The value of the block of that number, which is lent, for as long as store and pool are borrowed.
pub(crate) fn seen<'g, H: Labelled + Drop, P: Labelled + Drop, T>(
    store: &'g Store<H, P, T>,
    number: usize,
    known: &RowToken,
    pool: &'g Pool,
) -> &'g T
    requires store { known.now.store ≡ store_name store.now }
    requires row { IsRowOf known.now number }
    requires loan { pool.now.name ≡ content_in known.now.chunks (entry_of number) }
    ensures { T.row.coded.code result.now ≡ pool.now.value }
{
    store.see(number, known, pool.sight())
}

/// A block that is lent and comes back has its value and its number.
pub(crate) fn lent_and_back<H: Labelled + Drop, P: Labelled + Drop, T: Drop>(
    store: &Store<H, P, T>,
    bare: Bare<H, P, T>,
) -> Bare<H, P, T>
    requires { bare_store bare ≡ store_name store.now }
    ensures value { bare_value result ≡ bare_value bare }
    ensures title { (bare_number result ≡ bare_number bare) × (bare_known result ≡ bare_known bare) }
{
    let number = bare.number();
    let known = bare.known().again();
    let (ticket, pool) = store.lend(bare);
    store.back(number, &known, ticket, pool)
}

/// The same with the owner's part, which stays with the caller meanwhile.
pub(crate) fn lent_without_its_part<H: Labelled + Drop, P: Labelled + Drop, T: Drop>(
    store: &Store<H, P, T>,
    owned: Owned<H, P, T>,
) -> Owned<H, P, T>
    requires { store_of owned ≡ store_name store.now }
    ensures value { owned_value result ≡ owned_value owned }
    ensures number { (owned_number result ≡ owned_number owned) × (store_of result ≡ store_of owned) }
{
    let (part, bare) = owned.split();
    lent_and_back(store, bare).with(part)
}
