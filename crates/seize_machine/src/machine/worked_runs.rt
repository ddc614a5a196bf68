//! What the machine does, shown on given lists of events. Each function does nothing: its contract is what is shown.

ghost use Rattle.std.specs.Prelude.{◌≡◌, Some, [], ◌∷◌, true};
ghost use Rattle.seize_machine.specs.Machine.State.{opening, head_at, is_active};
ghost use Rattle.seize_machine.specs.Machine.Event.{Give};
ghost use Rattle.seize_machine.specs.Machine.History.{at_size, end_of, answers_of};
ghost use Rattle.seize_machine.specs.Machine.Laws.{AtMostOnce, After, Quiet, Unused, Protection, Whereabouts, Gone, Holders, NoLaterHolders, UnderGuard, Tries, Breaks};
ghost use Rattle.seize_machine.specs.Machine.Rows.{history_of, walker_first, walker_first_answers, left_before_insertion, left_before_insertion_answers, back_before_insertion, back_before_insertion_answers, two_insertions, two_insertions_answers, added_beside_active, entered_before_add, entered_before_add_answers, is_illegal_throughout};
ghost use Rattle.seize_machine.specs.Machine.Schedules.{retire_first, retire_first_answers, left_before_put, left_before_put_answers, left_before_attempt, left_before_attempt_answers, second_finishes_first, second_finishes_first_answers, left_before_both, left_before_both_answers};
ghost use Rattle.seize_machine.specs.Machine.Counterexamples.{nothing_given_up, retired_alone, given_up_unless_active, given_up_below_zero, counted_down_early, given_up_and_kept, counted_alone, handed_twice, given_up_and_forgotten, skipped_and_counted, skipped_and_added, one_value_more, retired_at_a_smaller_size, rest_passed_over, retired_beside_two, number_passed_over, read_last_alone, read_other_alone, given_up_when_full, found_and_retired, full_and_not_attempted, left_beside_another, fixed_note, made_before_put, retired_again, retired_twice, given_up_unretired, begun_alone, handed_alone, lost_at_any_time, lost_alone, left_in_the_link, found_after_its_retirement, taken_out, out_and_forgotten, another_stored, joined_at_entry, entered_after_add, left_after_add, kept_by_a_refresh, refreshed_after_add, ended_at_any_time, left_by_the_last, ended_by_its_batch, left_for_the_last, taken_without_the_rest, left_and_taken, taken_with_no_note, taken_at_a_smaller_size, recorded_in_front, handed_in_order};

/// Worked runs at size 1, from the opening with no slot made: the answers to their events.
///
/// A slot that becomes active before an add neither changes the count nor keeps the batch. A number that was never taken is
/// not given back at any time of a run.
pub fn rows()
    ensures walker_first_gives { answers_of (history_of walker_first) ≡ walker_first_answers }
    ensures left_before_insertion_gives { answers_of (history_of left_before_insertion) ≡ left_before_insertion_answers }
    ensures back_before_insertion_gives { answers_of (history_of back_before_insertion) ≡ back_before_insertion_answers }
    ensures two_insertions_gives { answers_of (history_of two_insertions) ≡ two_insertions_answers }
    ensures entered_before_add_gives { answers_of (history_of entered_before_add) ≡ entered_before_add_answers }
    ensures active_at_hand { is_active (head_at (end_of (opening 0 []) (history_of added_beside_active)) 2) ≡ true }
    ensures illegal_in_walker_first { is_illegal_throughout (Give 9) (history_of walker_first) ≡ true }
    ensures illegal_in_left_before_insertion { is_illegal_throughout (Give 9) (history_of left_before_insertion) ≡ true }
    ensures illegal_in_back_before_insertion { is_illegal_throughout (Give 9) (history_of back_before_insertion) ≡ true }
    ensures illegal_in_two_insertions { is_illegal_throughout (Give 9) (history_of two_insertions) ≡ true }
{}

/// The answers where the events of the same calls come in other orders: the calls of `walker_first`, a retirement beside an
/// active slot that leaves, in three orders more, and those of `two_insertions` in two orders more.
pub fn schedules()
    ensures retire_first_gives { answers_of (history_of retire_first) ≡ retire_first_answers }
    ensures left_before_put_gives { answers_of (history_of left_before_put) ≡ left_before_put_answers }
    ensures left_before_attempt_gives { answers_of (history_of left_before_attempt) ≡ left_before_attempt_answers }
    ensures second_finishes_first_gives { answers_of (history_of second_finishes_first) ≡ second_finishes_first_answers }
    ensures left_before_both_gives { answers_of (history_of left_before_both) ≡ left_before_both_answers }
{}

/// Machines that are wrong in one thing each, and a list of events, legal under each, on which it breaks a law. Each of the laws is
/// broken, and each of its parts.
///
/// A clause is named by what is wrong and the law that it breaks.
pub fn counterexamples()
    ensures nothing_given_up_breaks_quiet { Breaks nothing_given_up [] (at_size 1 retired_alone) Quiet }
    ensures nothing_given_up_breaks_holders { Breaks nothing_given_up [] (at_size 1 retired_alone) Holders }
    ensures given_up_unless_active_breaks_holders { Breaks given_up_unless_active [] (at_size 1 added_beside_active) Holders }
    ensures given_up_below_zero_breaks_after { Breaks given_up_below_zero [] (at_size 2 counted_down_early) After }
    ensures retired_again_breaks_at_most_once { Breaks retired_again [] (at_size 2 handed_twice) AtMostOnce }
    ensures given_up_and_kept_breaks_whereabouts { Breaks given_up_and_kept [] (at_size 1 counted_alone) Whereabouts }
    ensures given_up_and_forgotten_breaks_whereabouts { Breaks given_up_and_forgotten [] (at_size 1 retired_alone) Whereabouts }
    ensures skipped_and_counted_breaks_quiet { Breaks skipped_and_counted [] (at_size 1 skipped_and_added) Quiet }
    ensures one_value_more_breaks_quiet { Breaks one_value_more [] retired_at_a_smaller_size Quiet }
    ensures full_and_not_attempted_breaks_quiet { Breaks full_and_not_attempted [] (at_size 1 left_beside_another) Quiet }
    ensures rest_passed_over_breaks_after { Breaks rest_passed_over [] (at_size 1 retired_beside_two) After }
    ensures number_passed_over_breaks_after { Breaks number_passed_over [] (at_size 1 read_last_alone) After }
    ensures number_passed_over_breaks_under_guard { Breaks number_passed_over [] (at_size 1 read_other_alone) UnderGuard }
    ensures given_up_when_full_breaks_protection { Breaks given_up_when_full (Some 7 ∷ []) (at_size 1 found_and_retired) Protection }
    ensures given_up_when_full_breaks_after { Breaks given_up_when_full (Some 7 ∷ []) (at_size 1 found_and_retired) After }
    ensures fixed_note_breaks_after { Breaks fixed_note [] (at_size 1 made_before_put) After }
    ensures retired_again_breaks_after { Breaks retired_again [] (at_size 2 retired_twice) After }
    ensures given_up_unretired_breaks_after { Breaks given_up_unretired [] (at_size 1 handed_alone) After }
    ensures given_up_unretired_breaks_whereabouts { Breaks given_up_unretired [] (at_size 1 begun_alone) Whereabouts }
    ensures left_in_the_link_breaks_whereabouts { Breaks left_in_the_link (Some 7 ∷ []) (at_size 1 taken_out) Whereabouts }
    ensures out_and_forgotten_breaks_whereabouts { Breaks out_and_forgotten (Some 7 ∷ []) (at_size 1 taken_out) Whereabouts }
    ensures another_stored_breaks_whereabouts { Breaks another_stored (Some 7 ∷ []) (at_size 1 taken_out) Whereabouts }
    ensures lost_at_any_time_breaks_tries { Breaks lost_at_any_time [] (at_size 1 lost_alone) Tries }
    ensures left_in_the_link_breaks_protection { Breaks left_in_the_link (Some 7 ∷ []) (at_size 1 found_after_its_retirement) Protection }
    ensures joined_at_entry_breaks_no_later_holders { Breaks joined_at_entry [] (at_size 1 entered_after_add) NoLaterHolders }
    ensures joined_at_entry_walks { Breaks joined_at_entry [] (at_size 1 left_after_add) NoLaterHolders }
    ensures kept_by_a_refresh_breaks_no_later_holders { Breaks kept_by_a_refresh [] (at_size 1 refreshed_after_add) NoLaterHolders }
    ensures ended_at_any_time_breaks_unused { Breaks ended_at_any_time [] (at_size 2 left_by_the_last) Unused }
    ensures ended_by_its_batch_breaks_unused { Breaks ended_by_its_batch [] (at_size 2 left_for_the_last) Unused }
    ensures taken_without_the_rest_breaks_whereabouts { Breaks taken_without_the_rest [] (at_size 2 left_and_taken) Whereabouts }
    ensures taken_with_no_note_breaks_after { Breaks taken_with_no_note [] taken_at_a_smaller_size After }
    ensures recorded_in_front_breaks_gone { Breaks recorded_in_front [] (at_size 2 handed_in_order) Gone }
{}
