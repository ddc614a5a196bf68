//! The two models agree: a call on waiting sets is a list of events of the machine. Each function does nothing: its contract is what
//! is shown.

ghost use Rattle.std.specs.Prelude.{◌≡◌, ℕ, List, replicate, None};
ghost use Rattle.seize_machine.specs.Machine.State.{opening};
ghost use Rattle.seize_model.specs.Waiting.State.{new};
ghost use Rattle.seize_model.specs.Waiting.Further.{Lighter};
ghost use Rattle.seize_model.specs.Waiting.Runs as runs;
ghost use Rattle.seize_model.specs.Agreement.Shows.{ShowsState};
ghost use Rattle.seize_model.specs.Agreement.Links.{ReadAgreement, ExchangeAgreement, ExchangeOnLists};
ghost use Rattle.seize_model.specs.Agreement.Reopening.{ReopenedLaw};
ghost use Rattle.seize_model.specs.Agreement.Statement.{HasNames, HasNamesFor, Agreement, AgreementWith, AgreementAnew, AgreementOnLists};
ghost use Rattle.seize_model.specs.Agreement.Play.{PlaysAreLegal};
ghost use Rattle.seize_model.specs.Agreement.Runs.{by_events, by_sets};

/// The worked runs of waiting sets, each from a collector just made of the given size and number of links, up to its first reclaim
/// of all: the events of the calls are legal, and give the same heads and the same values in the same order.
pub fn runs_agree()
    ensures single { by_events 2 0 runs.single ≡ by_sets 2 0 runs.single }
    ensures flushes { by_events 5 0 runs.flushes ≡ by_sets 5 0 runs.flushes }
    ensures fives { by_events 5 0 runs.fives ≡ by_sets 5 0 runs.fives }
    ensures reentrant { by_events 5 0 runs.reentrant ≡ by_sets 5 0 runs.reentrant }
    ensures refreshes { by_events 5 0 runs.refreshes ≡ by_sets 5 0 runs.refreshes }
    ensures enough { by_events 1 0 runs.enough ≡ by_sets 1 0 runs.enough }
    ensures nobody_active { by_events 0 0 runs.nobody_active ≡ by_sets 0 0 runs.nobody_active }
    ensures further_values { by_events 2 0 runs.further_values ≡ by_sets 2 0 runs.further_values }
    ensures crowd { by_events 1 0 runs.crowd ≡ by_sets 1 0 runs.crowd }
    ensures reuse { by_events 4 0 runs.reuse ≡ by_sets 4 0 runs.reuse }
    ensures left_behind { by_events 3 0 runs.left_behind ≡ by_sets 3 0 runs.left_behind }
    ensures inherited_batch { by_events 3 0 runs.inherited_batch ≡ by_sets 3 0 runs.inherited_batch }
    ensures rest_gathered { by_events 4 0 runs.rest_gathered ≡ by_sets 4 0 runs.rest_gathered }
    ensures rest_taken { by_events 2 0 runs.rest_taken ≡ by_sets 2 0 runs.rest_taken }
    ensures refusals { by_events 1 0 runs.refusals ≡ by_sets 1 0 runs.refusals }
    ensures links { by_events 1 1 runs.link_runs ≡ by_sets 1 1 runs.link_runs }
{}

/// What is said here of lists that are played is said of the machine's legal lists, at one size.
pub fn plays_are_legal_lists()
    ensures { PlaysAreLegal }
{}

/// A machine just opened shows a collector just made. From every two states that show each other, where what a reclaimer puts weighs
/// less than its value, each call but a reclaim of all agrees with the machine in both directions.
///
/// It is a list of legal events, of the call's own slot, where there is always a fresh number for a value; and where there is one for a
/// value with its reclaimer, a list in which each value handed puts what its reclaimer puts. For values of any type, which may have no
/// such numbers, each list of calls has some: a function from numbers to values that is as before at any numbers that are to be kept,
/// and under which each call in turn is a list of legal events.
///
/// And every legal list of events that the call makes alone, from its beginning to its return, has its reply and its values gone, and
/// ends where it ends, under whatever fresh numbers for what the reclaimers put.
pub fn models_agree<T, R>()
    ensures made { (of : ℕ → T) (size links : ℕ) → ShowsState T R of (new size links) (opening 0 (replicate links None)) }
    ensures call { (puts : R → T → List T) (weight : T → ℕ) (of : ℕ → T) → Lighter puts weight → HasNames of → Agreement puts weight of }
    ensures with_reclaimers { (puts : R → T → List T) (weight : T → ℕ) (of : ℕ → T) (by : ℕ → R)
        → Lighter puts weight → HasNamesFor of by → AgreementWith puts weight of by }
    ensures any { (puts : R → T → List T) (weight : T → ℕ) → Lighter puts weight → AgreementAnew puts weight }
    ensures every { (puts : R → T → List T) (weight : T → ℕ) → Lighter puts weight → AgreementOnLists puts weight }
{}

/// A read of a link, and an exchange of it without the retirement of what it held, agree with the machine: from every two states that
/// show each other each is one legal event, or none where it is refused, which finds the number of what the link held; and each legal
/// exchange does what the exchange does.
pub fn links_agree<T, R>()
    ensures read { (of : ℕ → T) → ReadAgreement R of }
    ensures exchange { (of : ℕ → T) → HasNames of → ExchangeAgreement R of }
    ensures every_exchange { ExchangeOnLists T R }
{}

/// Reclaiming all leads to a state that a machine just opened shows, with as many slots and the links as they were.
pub fn reclaiming_reopens<T, R>()
    ensures { (puts : R → T → List T) (weight : T → ℕ) → ReopenedLaw puts weight }
{}
