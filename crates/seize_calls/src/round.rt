//! A round through the values of a batch, from the first one on: it finds their blocks one after the other by what is noted of them.
ghost use Rattle.std.specs.Prelude.{◌≡◌, [], true};
ghost use Rattle.seize_calls.specs.Numbered.{starts_at};
ghost use Rattle.seize_book.specs.Values.{AreClosed, AreOfBook, LeadsOn, book_in as book_of_keys, values_of};

use seize_words::blocks::Blocks;
use seize_words::book::{Pass, ValueKeys};
use seize_words::chunk::Header;
use seize_words::note::Note;

/// The keys of a batch's values: of those where the round has been, and of those to come.
#[derive(Drop)]
pub struct Round {
    // The number of the block of the next value, where there is one.
    number: u64,
    done: ValueKeys,
    rest: ValueKeys,
    ghost one_book: { book_of_keys rest ≡ book_of_keys done },
    ghost next: { starts_at number (values_of rest) ≡ true },
    ghost leads: { LeadsOn done rest },
    ghost closed: { AreClosed rest },
}

impl Round {
    ghost use Rattle.seize_book.specs.Passes.{LooksOn};
    ghost use Rattle.seize_book.specs.Values.{IsEmpty};
    ghost use Rattle.seize_calls.specs.Rounds.{HasNextValue, IsNextOf, MovesPast, Remarks, all_in, book_at, done_in, rest_in};
    ghost use Rattle.seize_words.specs.Chunks.{blocks_book};

    /// A round through all these, of which the first has this number.
    pub fn new(first: u64, values: &mut ValueKeys, pass: &mut Pass) -> Round
        requires book { AreOfBook values.old pass.old }
        requires first { starts_at first (values_of values.old) ≡ true }
        requires closed { AreClosed values.old }
        ensures pass { pass.new ≡ pass.old }
        ensures none { IsEmpty values.new pass.old }
        ensures begins { (book_at result ≡ pass.old.name) × ((done_in result ≡ []) × (rest_in result ≡ values.old.keys.held))
            × (result.number ≡ first) }
    {
        let done = ValueKeys::new(pass);
        let mut rest = ValueKeys::new(pass);
        rest.append(values);
        Round {
            number: first,
            done,
            rest,
        }
    }

    /// The number of the block of the next value.
    pub fn number(&self) -> u64
        ensures { result ≡ self.now.number }
    {
        self.number
    }

    /// Goes past the next value, and gives what is noted of its block. This is its header.
    pub fn next(&mut self, header: &Header) -> Note
        requires header { IsNextOf header.now self.old }
        ensures { MovesPast self.old result self.new }
    {
        let mut value = self.rest.next();
        let note = value.note(&header.note);
        self.done.push(value);
        self.number = note.next.saturating_sub(1);
        note
    }

    /// Notes this slot of the block of the next value, and goes past it.
    ///
    /// It takes no memory: a look-up, a plain read and a plain write.
    pub fn mark<T: Drop>(&mut self, blocks: &Blocks<T>, slot: usize, pass: &mut Pass)
        requires book { (book_at self.old ≡ pass.old.name) × (blocks_book blocks.now ≡ pass.old.name) }
        requires next { HasNextValue self.old pass.old }
        ensures looks { LooksOn pass.old pass.new }
        ensures marks { Remarks self.old slot self.new }
    {
        let header = blocks.header(self.number, pass);
        let mut value = self.rest.next();
        let note = value.note(&header.note);
        value.set_note(&header.note, Note { slot, ..note });
        self.done.push(value);
        self.number = note.next.saturating_sub(1);
    }

    /// All the keys again, in their order.
    pub fn end(self, values: &mut ValueKeys, pass: &mut Pass)
        requires book { IsEmpty values.old pass.old × (book_at self ≡ pass.old.name) }
        ensures pass { pass.new ≡ pass.old }
        ensures all { (book_of_keys values.new ≡ pass.old.name) × (values.new.keys.held ≡ all_in self) × AreClosed values.new }
    {
        let Round { done, rest, .. } = self;
        let mut done = done;
        let mut rest = rest;
        values.append(&mut done);
        values.append(&mut rest);
    }
}
