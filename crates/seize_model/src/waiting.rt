//! What the model of waiting sets does, shown on given lists of calls. Each function does nothing: its contract is what is shown.
//! The contracts of `Alone` are by the same definitions.

ghost use Rattle.std.specs.Prelude.{◌≡◌, ℕ, List, ◌∷◌, []};
ghost use Rattle.seize_model.specs.Waiting.State.{new, model_slot};
ghost use Rattle.seize_model.specs.Waiting.Further.{Lighter, AfterwardsLaws, DrainLaws};
ghost use Rattle.seize_model.specs.Waiting.Laws.{BoundLaw, FlushLaw, GivingLaw, LastEndLaw, RetireLaw, UnusedLaw};
ghost use Rattle.seize_model.specs.Waiting.Lists.{AmpleLaw};
ghost use Rattle.seize_model.specs.Waiting.Reached.{GoneLaw};
ghost use Rattle.seize_model.specs.Waiting.Runs as runs;

/// Worked runs, each from a collector just made of the given size and number of links: what is told of each group of calls.
pub fn calls_in_turn()
    ensures single { runs.tellings (new 2 0) runs.single ≡ runs.single_told }
    ensures flushes { runs.tellings (new 5 0) runs.flushes ≡ runs.flushes_told }
    ensures fives { runs.tellings (new 5 0) runs.fives ≡ runs.fives_told }
    ensures reentrant { runs.tellings (new 5 0) runs.reentrant ≡ runs.reentrant_told }
    ensures refreshes { runs.tellings (new 5 0) runs.refreshes ≡ runs.refreshes_told }
    ensures enough { runs.tellings (new 1 0) runs.enough ≡ runs.enough_told }
    ensures enough_before_third { (model_slot (runs.state_after (new 1 0) runs.enough_before_third) 0).batch ≡ (1, tt) ∷ (2, tt) ∷ [] }
    ensures nobody_active_at_size_0 { runs.tellings (new 0 0) runs.nobody_active ≡ runs.nobody_active_told }
    ensures nobody_active_at_size_1 { runs.tellings (new 1 0) runs.nobody_active ≡ runs.nobody_active_told }
    ensures further_values { runs.tellings (new 2 0) runs.further_values ≡ runs.further_values_told }
    ensures further_in_batch { (model_slot (runs.state_after (new 2 0) runs.further_in_batch) 0).batch ≡ (15, tt) ∷ [] }
    ensures reclaims { runs.tellings (new 2 0) runs.reclaims ≡ runs.reclaims_told }
    ensures deep_reclaims { runs.tellings (new 8 0) runs.deep_reclaims ≡ runs.deep_reclaims_told }
    ensures many { runs.tellings (new 20 0) runs.many ≡ runs.many_told }
    ensures crowd { runs.tellings (new 1 0) runs.crowd ≡ runs.crowd_told }
    ensures reuse { runs.tellings (new 4 0) runs.reuse ≡ runs.reuse_told }
    ensures forgotten_guard { runs.tellings (new 4 0) runs.forgotten_guard ≡ runs.forgotten_guard_told }
    ensures left_behind { runs.tellings (new 3 0) runs.left_behind ≡ runs.left_behind_told }
    ensures inherited_batch { runs.tellings (new 3 0) runs.inherited_batch ≡ runs.inherited_batch_told }
    ensures rest_gathered { runs.tellings (new 4 0) runs.rest_gathered ≡ runs.rest_gathered_told }
    ensures rest_taken { runs.tellings (new 2 0) runs.rest_taken ≡ runs.rest_taken_told }
    ensures refusals { runs.tellings (new 1 0) runs.refusals ≡ runs.refusals_told }
    ensures links { runs.tellings (new 1 1) runs.link_runs ≡ runs.link_runs_told }
{}

/// How further values are retired and reclaimed, for every reclaimer and every state, where what a reclaimer puts weighs less than its
/// value.
///
/// An empty queue leaves all as it is. Of another one the first value is retired, and then the rest, with what the values gone put
/// behind it. Where all is reclaimed, the first value goes, and then the rest, with what it put behind it.
pub fn further_values<T, R>()
    ensures afterwards { (puts : R → T → List T) (weight : T → ℕ) → Lighter puts weight → AfterwardsLaws puts weight }
    ensures gone_from { (puts : R → T → List T) (weight : T → ℕ) → Lighter puts weight → DrainLaws puts weight }
{}

/// How lists of calls go where memory may be refused: where no reply is that it was, the calls did what the model says of the list.
pub fn lists_in_turn<T, R>()
    ensures { (puts : R → T → List T) (weight : T → ℕ) → AmpleLaw puts weight }
{}

/// In every state that calls lead to from a collector just made, a retired batch that waits for no slot is gone: it has no values left.
pub fn retired_batches<T, R>()
    ensures { (puts : R → T → List T) (weight : T → ℕ) → GoneLaw puts weight }
{}

/// What follows for every state: no value is gone in a flush, nor in a retirement by an active slot. And in every state that calls and
/// changes of the size lead to from a collector just made, each batch is below the bound: the greater of the largest size so far, at least
/// 1, and the number of slots ever made. What slots that ended left is below that bound times the number of slots ever made.
pub fn batches<T, R>()
    ensures flush { (puts : R → T → List T) (weight : T → ℕ) → FlushLaw puts weight }
    ensures retire { (puts : R → T → List T) (weight : T → ℕ) → RetireLaw puts weight }
    ensures bound { (puts : R → T → List T) (weight : T → ℕ) → BoundLaw puts weight }
{}

/// What becomes of all that was retired where no number is in use, in every state that calls lead to from a collector just made, where
/// what a reclaimer puts weighs less than its value.
///
/// As the last number in use is given back, what the slots that ended left is gone, then the batch of the slot itself, and then what
/// those values put, in turn. So where no number is in use, all that was retired is gone.
///
/// And in every state, a number that goes back at once leaves all as it is, and else gathers first, and less is left to gather then.
pub fn last_ends<T, R>()
    ensures last { (puts : R → T → List T) (weight : T → ℕ) → Lighter puts weight → LastEndLaw puts weight }
    ensures unused { (puts : R → T → List T) (weight : T → ℕ) → Lighter puts weight → UnusedLaw puts weight }
    ensures giving { (puts : R → T → List T) (weight : T → ℕ) → Lighter puts weight → GivingLaw puts weight }
{}
