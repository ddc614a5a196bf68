//! The links of a book in a row, by their numbers. It stands on links.
ghost use Rattle.std.specs.Prelude.{◌≡◌, ℕ, Option};
ghost use Rattle.seize_book.specs.Homesteads.{state_seen};
ghost use Rattle.seize_book.specs.Tokens.{IsSole};
ghost use Rattle.seize_machine.specs.Machine.State.{link_at};
ghost use Rattle.seize_words.specs.LinkRows.{AllAt, AreInRow};
ghost use Rattle.seize_words.specs.Stands.{IsSharedLink, Stands};

use crate::link::Link;
use seize_book::book::{LinkKeys, Pass, Seen};
use seize_table::Refusal;
use std::alloc::{AllocError, Global};

// All links of the row stand still then, and hold what the pass has seen.
fn rest_all(row: &mut Vec<Link>, pass: &mut Pass)
    requires row { AreInRow pass.old.name row.old.items }
    requires shared { AllAt (λ _ link. IsSharedLink link) row.old.items × IsSole pass.old.id }
    ensures pass { pass.new ≡ pass.old }
    ensures row { AreInRow pass.old.name row.new.items }
    ensures stand { AllAt (λ l link. Stands link (link_at (state_seen pass.old) l)) row.new.items }
{
    for l in 0..row.len() {
        row[l].rest(pass);
    }
}

// Threads may share all links of the row again.
fn stir_all(row: &mut Vec<Link>, _book: &Seen)
    requires row { AreInRow _book.now.name row.old.items }
    requires stand { AllAt (λ l link. (held : Option ℕ) × Stands link held) row.old.items }
    ensures row { AreInRow _book.now.name row.new.items }
    ensures shared { AllAt (λ _ link. IsSharedLink link) row.new.items }
{
    for l in 0..row.len() {
        row[l].stir();
    }
}

/// All links of a book, which threads share by `&`, or which stand still.
#[derive(Drop)]
pub struct Links {
    row: Vec<Link>,
    /// The book whose links they are.
    pub book: Seen,
    ghost in_row: { AreInRow book.name row.items },
}

impl Links {
    ghost use Rattle.std.specs.Prelude.{◌<◌, IfErr, IfOk};
    ghost use Rattle.seize_table.specs.declared.refusal.Refusal.TheVariants.{NoMemory};
    ghost use Rattle.seize_words.specs.LinkRows.{AreAllOf, IsLinkAt};
    ghost use Rattle.seize_words.specs.Named.{link_count, links_name};
    ghost use Rattle.seize_words.specs.Rows.{AllStand, AreShared, IsSameBut, IsSharedAt, StandsAt};

    /// All links of a book that has so many, which are empty. It asks for their memory, 8 bytes each.
    ///
    /// # Errors
    ///
    /// `NoMemory` where that was refused.
    pub fn new(alloc: Global, many: usize, left: LinkKeys, book: Seen) -> Result<Links, Refusal>
        requires left { AreAllOf left book.name many }
        ensures made { IfOk result (λ links. (links.book ≡ book) × (link_count links ≡ many) × AreShared links) }
        ensures refused { IfErr result (λ e. e ≡ NoMemory) }
    {
        let mut left = left;
        let row = Links::row(alloc, many, &mut left)?;
        Ok(Links { row, book })
    }

    // All links of the book, in their order.
    fn row(alloc: Global, many: usize, left: &mut LinkKeys) -> Result<Vec<Link>, Refusal>
        requires left { AreAllOf left.old left.old.keys.name many }
        ensures made { IfOk result (λ row. AreInRow left.old.keys.name row.items × AllAt (λ _ link. IsSharedLink link) row.items) }
        ensures refused { IfErr result (λ e. e ≡ NoMemory) }
    {
        let mut row = Vec::with_capacity(alloc, many)?;
        for _ in 0..many {
            row.push(Link::next(left)).map_err(AllocError::from)?;
        }
        Ok(row)
    }

    /// How many there are.
    pub fn len(&self) -> usize
        ensures { result ≡ link_count self.now }
    {
        self.row.len()
    }

    /// The link with this number: one load more than that of its word.
    pub fn get(&self, link: usize) -> &Link
        requires { link < link_count self.now }
        ensures at { IsLinkAt (links_name self.now) link result.now }
        ensures shared { IsSharedAt self.now link → IsSharedLink result.now }
        ensures stands { (held : Option ℕ) → StandsAt self.now link held → Stands result.now held }
    {
        &self.row[link]
    }

    /// All stand still from then on, and hold what the pass has seen, which is alone. Each of them is looked at, with no event.
    pub fn rest(&mut self, pass: &mut Pass)
        requires shared { AreShared self.old }
        requires alone { (links_name self.old ≡ pass.old.name) × IsSole pass.old.id }
        ensures pass { pass.new ≡ pass.old }
        ensures stand { AllStand self.new (state_seen pass.old) }
        ensures same { self.new.book ≡ self.old.book }
    {
        rest_all(&mut self.row, pass);
    }

    /// Threads may share all of them again, which stood still.
    pub fn stir(&mut self)
        requires stand { (l : ℕ) → l < link_count self.old → (held : Option ℕ) × StandsAt self.old l held }
        ensures shared { AreShared self.new }
        ensures same { self.new.book ≡ self.old.book }
    {
        stir_all(&mut self.row, &self.book);
    }

    /// This one stands still from then on, as with `rest`.
    pub fn rest_at(&mut self, link: usize, pass: &mut Pass)
        requires shared { (link < link_count self.old) × IsSharedAt self.old link }
        requires alone { (links_name self.old ≡ pass.old.name) × IsSole pass.old.id }
        ensures pass { pass.new ≡ pass.old }
        ensures stands { StandsAt self.new link (link_at (state_seen pass.old) link) }
        ensures same { IsSameBut link self.old self.new }
    {
        self.row[link].rest(pass);
    }

    /// Threads may share this one again, which stood still.
    pub fn stir_at(&mut self, link: usize)
        requires stands { (link < link_count self.old) × ((held : Option ℕ) × StandsAt self.old link held) }
        ensures shared { IsSharedAt self.new link }
        ensures same { IsSameBut link self.old self.new }
    {
        self.row[link].stir();
    }
}
