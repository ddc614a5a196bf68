//! The facts that the machine's crate exports, each used as a crate that builds on it would. Each function does nothing: its contract
//! is what follows.

ghost use Rattle.std.specs.Prelude.{◌≡◌, ◌≢◌, ◌⊎◌, ℕ, pos, true, false, not, List, [], ◌∷◌, ◌++◌, Option, Some, length, take, drop};
ghost use Rattle.std.specs.List.{list_all};
ghost use Rattle.seize_machine.specs.Machine.State.{State, slot_at, link_at, has, linked_values, are_distinct, opening};
ghost use Rattle.seize_machine.specs.Machine.Event.{Event};
ghost use Rattle.seize_machine.specs.Machine.Next.{next, can_link};
ghost use Rattle.seize_machine.specs.Machine.History.{Timed, Legal, IsReached, handed, is_swap_out, is_legal};
ghost use Rattle.seize_machine.specs.Machine.Laws.{detached_by, Lists, Walks};
ghost use Rattle.seize_machine.specs.Machine.Frames.{changes_batch};
ghost use Rattle.seize_machine.specs.declared.machine.event.Answer.{Answer};
ghost use Rattle.seize_machine.specs.declared.machine.event.Answer.TheVariants.{Count};
ghost use Rattle.seize_machine.specs.Machine.Kept.{occ};
ghost use Rattle.seize_machine_rows.specs.Interface.{Unmoved, UnderWay, CallsTidy, ValuesStand, Obeys, Handing};

/// From the middle of a list on: a value that a slot sees in a link is not handed while the slot neither leaves nor refreshes.
pub fn kept_while_read()
    ensures { (st end : State) (s v l : ℕ) (events : List Timed) (answers : List Answer) → IsReached st → can_link st s l ≡ true
        → link_at st l ≡ Some v → Legal next st events answers end → list_all (λ t. not (is_swap_out s t.event)) events ≡ true
        → has v (handed answers) ≡ false }
{}

/// What a legal event doesn't touch is as it was.
pub fn beside_other_events()
    ensures unmoved { (size : ℕ) (st : State) (event : Event) (d : State × Answer) → next size st event ≡ Some d → Unmoved st event d.0 }
    ensures answered { (size : ℕ) (st : State) (event : Event) (d : State × Answer) → next size st event ≡ Some d → is_legal d.1 ≡ true }
{}

/// Where calls and values stand and how counts are in each state that a legal list reaches from an opening.
pub fn in_reached_states()
    ensures reached { (slots : ℕ) (links : List (Option ℕ)) (events : List Timed) (answers : List Answer) (end : State)
        → are_distinct (linked_values links) ≡ true → Legal next (opening slots links) events answers end → IsReached end }
    ensures again { (st : State) → IsReached st → IsReached st }
    ensures tidy { (st : State) → IsReached st → CallsTidy st }
    ensures values { (st : State) → IsReached st → ValuesStand st }
    ensures unheld { (size : ℕ) (st : State) (event : Event) (d : State × Answer) (b : ℕ) → IsReached st → next size st event ≡ Some d
        → d.1 ≡ Count (pos 0) → changes_batch st b event ≡ true
        → (s : ℕ) → ¬ (Lists d.0 s b) × ¬ (Walks d.0 s b) × (detached_by (slot_at d.0 s).call ≢ Some b) }
{}

/// What a call under way does next, and which of its events are legal; a value stands in a list of distinct ones once or not at all.
pub fn calls_under_way()
    ensures steps { (size : ℕ) (st : State) → UnderWay size st }
    ensures once { (v : ℕ) (vs : List ℕ) → are_distinct vs ≡ true
        → ((has v vs ≡ true) × (occ v vs ≡ 1)) ⊎ ((has v vs ≡ false) × (occ v vs ≡ 0)) }
{}

/// The laws of a list that goes on by one legal event; two events of a list that hand one value are one; and a beginning of a legal
/// list, read by itself, is what it is within the list.
pub fn of_legal_lists()
    ensures handed_once { (slots : ℕ) (links : List (Option ℕ)) (v : ℕ) (end : State) (answers : List Answer)
        (events more : List Timed) (t : Timed) (before : Handing slots links v events t)
        (events2 more2 : List Timed) (t2 : Timed) (before2 : Handing slots links v events2 t2) → are_distinct (linked_values links) ≡ true
        → Legal next (opening slots links) (events ++ t ∷ more) answers end → events ++ t ∷ more ≡ events2 ++ t2 ∷ more2
        → length events ≡ length events2 }
    ensures beginning { (st later now : State) (events more : List Timed) (answers told : List Answer)
        → Legal next st (events ++ more) answers later → Legal next st events told now
        → (take (length events) answers ≡ told) × Legal next now more (drop (length events) answers) later }
    ensures obeys { (slots : ℕ) (links : List (Option ℕ)) (events : List Timed) (answers : List Answer) (now later : State) (t : Timed)
        (answer : Answer) → are_distinct (linked_values links) ≡ true → Legal next (opening slots links) events answers now
        → next t.size now t.event ≡ Some (later, answer) → Obeys (opening slots links) (events ++ t ∷ []) }
{}
