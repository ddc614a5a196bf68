//! Permits for exchanges of links, from the list of the pairs, before and after, that links may go through. Each exchange that may be won
//! shows one, but for those of the first pass (`Pass::no_pairs`). Nothing here runs.
ghost use Rattle.std.specs.Prelude.{◌≡◌, ◌∷◌, [], suc};
ghost use Rattle.seize_book.specs.Lending.{ArePairsOf};
ghost use Rattle.seize_book.specs.Loans.{loan_number};
ghost use Rattle.seize_book.specs.Pairs.{content_number, pair_code};
ghost use Rattle.seize_words.specs.LinkWords.{IsPermittedExchange, IsPermittedSwap, value_held};

use crate::link::{Expects, MaybeKey};
use seize_book::book::{Chosen, Condition, Pass, Permit, Permits};
use std::marker::Brand;

/// The permit for a swap, which puts the value of this key into a link, or none, whatever the link holds.
pub fn for_swap<C: Condition>(
    pairs: &Permits<C>,
    link: usize,
    key: &MaybeKey,
    _pass: &Pass,
) -> Permit
    requires pairs { ArePairsOf _pass.now.name pairs.now }
    requires rule { C.holds pairs.now.store (pair_code link 0 (content_number (value_held key.now))) }
    ensures { IsPermittedSwap link key.now _pass.now result }
{
    permit::<C, Brand>(pairs, link, key)
}

/// The permit for an exchange that compares, where the link holds what is expected (`E`).
pub fn for_exchange<C: Condition, E: Expects>(
    pairs: &Permits<C>,
    link: usize,
    key: &MaybeKey,
    _pass: &Pass,
) -> Permit
    requires pairs { ArePairsOf _pass.now.name pairs.now }
    requires rule { C.holds pairs.now.store (pair_code link (suc (content_number E.current)) (content_number (value_held key.now))) }
    ensures { IsPermittedExchange link key.now _pass.now E.current result }
{
    permit::<C, Brand>(pairs, link, key)
}

// The permit for the pair that `K` says. Link and key are for the proof, which picks the pair by them.
fn permit<C: Condition, K: Chosen>(pairs: &Permits<C>, _link: usize, _key: &MaybeKey) -> Permit
    requires { C.holds pairs.now.store K.code }
    ensures { (result.list ≡ pairs.now.list) × (result.codes ≡ loan_number K.code ∷ []) }
{
    pairs.permit_code::<K>()
}
