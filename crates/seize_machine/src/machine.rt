//! The events of a collector as a machine, in one caller's hands and without memory of its own to reclaim: which events
//! are legal, what each does, and the laws that hold of every list of them. It uses `refusal` alone, and the modules above
//! use its definitions alone.
ghost use Rattle.std.specs.Prelude.{◌≡◌, ℕ, ◌<◌, List, [], ◌∷◌, ◌++◌, Some, length, map, take, drop, replicate, OnOk, OnErr, IfOk, IfErr};
ghost use Rattle.seize_machine.specs.Machine.State.{State, opening, head_at, is_active};
ghost use Rattle.seize_machine.specs.Machine.Next.{next};
ghost use Rattle.seize_machine.specs.Machine.History.{Timed, Legal, IsReached};
ghost use Rattle.seize_machine.specs.Machine.Laws.{is_quiet, HoldsOfAll, AtMostOnce, After, Quiet, Unused, Protection, Whereabouts, Gone, Holders, NoLaterHolders, UnderGuard, Tries};
ghost use Rattle.seize_machine.specs.Machine.Event.{Event as Occurrence};
ghost use Rattle.seize_machine.specs.Machine.Code.{Sized, event_of, HasDone, HasRun, HasRunLegally};
ghost use Rattle.seize_machine.specs.declared.machine.event.Answer.{Answer as Told};
ghost use Rattle.seize_table.specs.declared.refusal.Refusal.TheVariants.{NoMemory};

use seize_table::Refusal;
use std::alloc::{AllocError, Global};
use std::marker::Model;

mod batch;
mod configuration;
mod event;
mod head;
mod slot;
mod worked_runs;

use configuration::Configuration;
pub use event::{Answer, Event, Exchange, Job, Try};
pub use worked_runs::{counterexamples, rows, schedules};

/// The core of a collector as a machine, for one caller: slots that are taken and given back, heads, batches and their
/// counts, links, and a call under way for each slot. Values are numbers.
///
/// Its state is one that a legal list of events reaches, so no count overflows.
#[derive(Drop)]
pub struct Machine {
    size: usize,
    configuration: Configuration,
}

impl Model for Machine {
    ghost use Rattle.seize_machine.specs.Machine.Code.{Sized};
    ghost use Rattle.seize_machine.specs.Machine.History.{IsReached};

    ghost Value = { Sized };

    ghost view = { λ m. record { size = m.size; state = m.configuration } };

    ghost invariant = { λ m. IsReached m.configuration };
}

impl Machine {
    /// A machine with no slot made, for a batch size, where 0 is as 1, and with so many links, all empty.
    ///
    /// It takes memory for the links.
    ///
    /// # Errors
    ///
    /// `NoMemory` where that was refused; then nothing is kept.
    pub fn new(alloc: Global, size: usize, links: usize) -> Result<Machine, Refusal>
        ensures ok { IfOk result (λ machine. machine ≡ record { size = size; state = opening 0 (replicate links None) }) }
        ensures err { IfErr result (λ refusal. refusal ≡ NoMemory) }
    {
        let links = empty_links(alloc, links)?;
        Ok(Machine {
            size,
            configuration: Configuration::new(alloc, links),
        })
    }

    /// Does the event and answers it. An illegal event answers `Illegal` and changes nothing.
    ///
    /// It may take memory.
    ///
    /// # Errors
    ///
    /// `NoMemory` where that was refused; the machine is unchanged.
    pub fn step(&mut self, event: Event) -> Result<Answer, Refusal>
        ensures done { IfOk result (λ answer. HasDone event self.old self.new answer) }
        ensures unchanged { OnErr result (self.new ≡ self.old) }
        ensures err { IfErr result (λ refusal. refusal ≡ NoMemory) }
    {
        Ok(self.apply(&event)?)
    }

    fn apply(&mut self, event: &Event) -> Result<Answer, AllocError>
        ensures done { IfOk result (λ answer. HasDone event.now self.old self.new answer) }
        ensures unchanged { OnErr result (self.new ≡ self.old) }
    {
        self.configuration.step(self.size, event)
    }

    /// Does the events in order, and pushes the answer of each.
    ///
    /// It may take memory.
    ///
    /// # Errors
    ///
    /// `NoMemory` where that was refused: then only some first events, or none, are done. The answers pushed are theirs, behind those
    /// that were there, and the machine stands after them.
    pub fn run(&mut self, events: &[Event], answers: &mut Vec<Answer>) -> Result<(), Refusal>
        ensures ok { OnOk result (HasRun (map event_of events.now) self.old self.new answers.old.items answers.new.items) }
        ensures legal { OnOk result (HasRunLegally (map event_of events.now) self.old self.new answers.old.items answers.new.items) }
        ensures some { OnErr result ((done : ℕ) × (done < length events.now)
            × HasRun (map event_of (take done events.now)) self.old self.new answers.old.items answers.new.items) }
        ensures err { IfErr result (λ refusal. refusal ≡ NoMemory) }
    {
        for event in events {
            answers.reserve(1)?;
            let answer = self.apply(event)?;
            answers.push_reserved(answer);
        }
        Ok(())
    }

    /// The machine stands in a state that a legal list of events leads to. It does nothing.
    pub fn reached(&self)
        ensures { IsReached self.now.state }
    {
        let _ = &self.size;
    }

    /// The values reclaimed so far, in order.
    pub fn reclaimed(&self) -> &[u64]
        ensures { result.now ≡ self.now.state.gone }
    {
        self.configuration.reclaimed()
    }

    /// Whether the slot is active. One that was never made is not.
    pub fn active(&self, slot: usize) -> bool
        ensures { result ≡ is_active (head_at self.now.state slot) }
    {
        self.configuration.active(slot)
    }

    /// Whether no call is under way and no slot is active.
    pub fn quiet(&self) -> bool
        ensures { result ≡ is_quiet self.now.state }
    {
        self.configuration.quiet()
    }
}

/// So many links that hold nothing.
fn empty_links(alloc: Global, links: usize) -> Result<Vec<Option<u64>>, AllocError>
    ensures { IfOk result (λ made. made.items ≡ replicate links None) }
{
    let mut made = Vec::new(alloc);
    made.resize(links, None)?;
    Ok(made)
}

/// What holds of every legal list of events, from every opening state, with any number of slots made and any size at each
/// event. It does nothing: its contract is the laws.
pub fn laws()
    ensures at_most_once { HoldsOfAll AtMostOnce }
    ensures after { HoldsOfAll After }
    ensures quiet { HoldsOfAll Quiet }
    ensures unused { HoldsOfAll Unused }
    ensures protection { HoldsOfAll Protection }
    ensures whereabouts { HoldsOfAll Whereabouts }
    ensures gone { HoldsOfAll Gone }
    ensures holders { HoldsOfAll Holders }
    ensures no_later_holders { HoldsOfAll NoLaterHolders }
    ensures under_guard { HoldsOfAll UnderGuard }
    ensures tries { HoldsOfAll Tries }
{}

/// How legal lists are made and taken apart. No event is a legal list, one legal event after a legal list makes a longer one, a
/// legal list goes on with what is legal from its end, and each beginning of a legal list is one, which the rest goes on. The first
/// of its events is legal, and the others are a legal list from there. What a machine ran with no illegal answer, whether or not its
/// memory was refused then, is a legal list. It does nothing.
pub fn legal_lists()
    ensures no_event { (st : State) → Legal next st [] [] st }
    ensures one_more { (st now later : State) (events : List Timed) (answers : List Told) (t : Timed) (answer : Told)
        → Legal next st events answers now → next t.size now t.event ≡ Some (later, answer)
        → Legal next st (events ++ t ∷ []) (answers ++ answer ∷ []) later }
    ensures joined { (st now later : State) (events more : List Timed) (answers told : List Told)
        → Legal next st events answers now → Legal next now more told later → Legal next st (events ++ more) (answers ++ told) later }
    ensures taken_apart { (st later : State) (events more : List Timed) (answers : List Told) → Legal next st (events ++ more) answers later
        → (now : State) × Legal next st events (take (length events) answers) now
        × Legal next now more (drop (length events) answers) later }
    ensures first_event { (st later : State) (t : Timed) (more : List Timed) (answers : List Told) → Legal next st (t ∷ more) answers later
        → (now : State) × (answer : Told) × (rest : List Told) × (answers ≡ answer ∷ rest)
        × (next t.size st t.event ≡ Some (now, answer)) × Legal next now more rest later }
    ensures of_runs { (events : List Occurrence) (old new : Sized) (answers told : List Told) → HasRun events old new answers told
        → HasRunLegally events old new answers told }
{}
