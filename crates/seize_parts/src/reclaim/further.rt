//! What a reclaimer puts.
ghost use Rattle.std.specs.Prelude.{◌≡◌, map};
ghost use Rattle.seize_book.specs.Kept.{kepts_of};
ghost use Rattle.seize_book.specs.Lending.{ArePermitsOf};
ghost use Rattle.seize_book.specs.Values.{values_of};
ghost use Rattle.seize_calls.specs.Furthers.{further_in};
ghost use Rattle.seize_calls.specs.Handing.{IsServed};
ghost use Rattle.seize_words.specs.Chunks.{blocks_book};
ghost use Rattle.seize_parts.specs.Served.{is_served-prop};

use crate::block::Owned;
use crate::ender::Fit;
use crate::reclaim::Puts;
use seize_calls::further as chain;
use seize_words::blocks::Blocks;
use seize_words::book::Permits;

/// The blocks that a reclaimer puts with one value. The call in which it runs retires them when it has nothing else to do, the first first.
#[derive(Drop)]
pub struct Further<'a, T: Drop, R: Puts<T>> {
    pub chain: chain::Further,
    blocks: &'a Blocks<T>,
    permits: &'a Permits<Fit<T, R>>,
    kind: u64,
    ghost listed: { ArePermitsOf (blocks_book blocks.now) permits.now },
    ghost served: { IsServed (further_in chain) (blocks_book blocks.now) } by { is_served-prop (further_in chain) _ },
    ghost words: { kepts_of (further_in chain) ≡ map (λ _. kind) (values_of (further_in chain)) },
}

impl<'a, T: Drop, R: Puts<T>> Further<'a, T, R> {
    ghost use Rattle.std.specs.Prelude.{All, [], ◌∷◌};
    ghost use Rattle.seize_parts.specs.Blocks.{Belongs, content};
    ghost use Rattle.seize_parts.specs.Furthers.{HasPut, Joins, further_store};

    /// None was put, with a value of this kind.
    pub fn new(
        chain: chain::Further,
        blocks: &'a Blocks<T>,
        permits: &'a Permits<Fit<T, R>>,
        kind: u64,
    ) -> Further<'a, T, R>
        requires listed { ArePermitsOf (blocks_book blocks.now) permits.now }
        requires served { IsServed (further_in chain) (blocks_book blocks.now) × (values_of (further_in chain) ≡ []) }
        ensures store { further_store result ≡ (blocks_book blocks.now).store }
        ensures none { HasPut T.row.coded.code result [] }
        ensures its { (result.blocks.now ≡ blocks.now) × (result.kind ≡ kind) }
    {
        Further {
            chain,
            blocks,
            permits,
            kind,
        }
    }

    /// Puts a block of the collector, which comes last. It gets the kind of the value with which it is put. It goes to the same reclaimer,
    /// once no slot can read it any more.
    ///
    /// It takes no memory and waits for nobody.
    pub fn put(&mut self, owned: Owned<T>)
        requires { Belongs R.owners (further_store self.old) owned }
        ensures { Joins T.row.coded.code self.old self.new (content owned ∷ []) }
    {
        let (number, key) = owned.lend(self.blocks, self.permits);
        self.chain.put(self.blocks, number, self.kind, key);
    }

    /// Puts all these, in their order, behind those that were put before.
    ///
    /// It takes no memory and waits for nobody.
    pub fn put_all(&mut self, blocks: Vec<Owned<T>>)
        requires { All (Belongs R.owners (further_store self.old)) blocks.items }
        ensures { Joins T.row.coded.code self.old self.new (map content blocks.items) }
    {
        for owned in blocks {
            self.put(owned);
        }
    }
}
