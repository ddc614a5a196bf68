//! An exchange of a link of a collector in one caller's hands. Links stand still there, so they are read by `&`; for as long as the step
//! lasts the link is one that threads may share. The unit of the slot's activation is all that it needs of the slot.
ghost use Rattle.std.specs.Prelude.{◌≡◌, ◌<◌, ℕ, Option, IfSome, length};
ghost use Rattle.seize_machine.specs.Machine.Event.{ExchangeLink};
ghost use Rattle.seize_machine.specs.declared.machine.event.Answer.TheVariants.{Link};
ghost use Rattle.seize_machine.specs.declared.machine.event.Exchange.TheVariants.{Swap};
ghost use Rattle.seize_alone.specs.Events.{MakesAlone};
ghost use Rattle.seize_book.specs.Homesteads.{state_seen};
ghost use Rattle.seize_book.specs.Tokens.{IsSole};
ghost use Rattle.seize_machine.specs.Machine.State.{link_at};
ghost use Rattle.seize_calls.specs.Slots.{IsLooseOf, IsPassOf, IsReadable};
ghost use Rattle.seize_words.specs.Joined.{words_book};
ghost use Rattle.seize_words.specs.Named.{link_count};
ghost use Rattle.seize_words.specs.Rows.{IsSameBut, IsSharedAt, StandsAt};
ghost use Rattle.seize_parts.specs.Blocks.{Belongs, IsNamed, LooseComesOut};
ghost use Rattle.seize_parts.specs.Enders.{IsEnderOf};

use seize_calls::slot::Loose;
use seize_guards::block::{Owned, name};
use seize_parts::alone::place::Unit;
use seize_parts::ender::Ender;
use seize_parts::reclaim::Reclaim;
use seize_words::book::Pass;
use seize_words::words::Words;

// The link, which threads may share, holds this block then, or none. It gives what came out. The slot of this unit is active.
fn exchange_in<T: Drop, R: Reclaim<T>>(
    words: &Words<T>,
    ender: &Ender<T, R>,
    unit: &Unit,
    link: usize,
    new: Option<Owned<T>>,
    pass: &mut Pass,
) -> Option<Loose>
    requires pass { IsPassOf words.now pass.old × IsSole pass.old.id × (unit.now.seen.name ≡ words_book words.now) }
    requires link { (link < length (words_book words.now).links) × IsSharedAt words.now.links link }
    requires ender { IsEnderOf words.now ender.now }
    requires own { IfSome new (λ owned. Belongs R.owners (words_book words.now).store owned) }
    ensures makes { (number : Option ℕ) × (held : Option ℕ)
        × MakesAlone pass.old pass.new (ExchangeLink unit.now.number link (Swap number)) (Link held)
        × IsNamed T.row.coded.code new number × LooseComesOut held result }
    ensures loose { IfSome result (λ loose. IsLooseOf words.now loose × IsReadable loose) }
{
    pass.learn(&unit.seen);
    let (new, mut key) = name(new, words, ender, pass);
    let permit = pass.no_pairs();
    let old = words.swap_link(link, new, &mut key, &unit.unit, pass, &permit);
    Loose::of(old, key)
}

/// The same with a link that stands still, before and after.
pub(crate) fn exchange_at<T: Drop, R: Reclaim<T>>(
    words: &mut Words<T>,
    ender: &Ender<T, R>,
    unit: &Unit,
    link: usize,
    new: Option<Owned<T>>,
    pass: &mut Pass,
) -> Option<Loose>
    requires pass { IsPassOf words.old pass.old × IsSole pass.old.id × (unit.now.seen.name ≡ words_book words.old) }
    requires link { (link < link_count words.old.links) × ((held : Option ℕ) × StandsAt words.old.links link held) }
    requires ender { IsEnderOf words.old ender.now }
    requires own { IfSome new (λ owned. Belongs R.owners (words_book words.old).store owned) }
    ensures makes { (number : Option ℕ) × (held : Option ℕ)
        × MakesAlone pass.old pass.new (ExchangeLink unit.now.number link (Swap number)) (Link held)
        × IsNamed T.row.coded.code new number × LooseComesOut held result }
    ensures loose { IfSome result (λ loose. IsLooseOf words.old loose × IsReadable loose) }
    ensures words { (words.new.blocks ≡ words.old.blocks) × (words.new.size ≡ words.old.size)
        × IsSameBut link words.old.links words.new.links × (words.new.sizes ≡ words.old.sizes)
        × (words.new.id ≡ words.old.id) }
    ensures stands { StandsAt words.new.links link (link_at (state_seen pass.new) link) }
{
    words.links.stir_at(link);
    let old = exchange_in(words, ender, unit, link, new, pass);
    words.links.rest_at(link, pass);
    old
}
