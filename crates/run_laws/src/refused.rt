//! Runs with one thing wrong each, and runs that no user would accept.
ghost use Rattle.run_laws.specs.FiveFiles.{five_work};
ghost use Rattle.run_laws.specs.InTime.{AreCausedInTime};
ghost use Rattle.run_laws.specs.OneStream.{one_stream_work};
ghost use Rattle.run_laws.specs.Others.{copy_work, no_streams, silent_work, stopped_work, u_csv};
ghost use Rattle.run_laws.specs.Refused.{another_number, another_value, begins_behind_a_failed_write, begins_behind_a_fault, begins_in_silence, begins_unwanted, cancel_told_otherwise, canceled_by_another, crossed_pairs, cut_behind_the_last, done_without_close, fault_of_no_device, first_table_first, halted_by_a_later_one, in_turn_work, invented_scope, lease_by_a_stream, leased_table_ended, left_before_closing, next_table_tried, nobody_given, one_frame_too_many, one_frame_work, other_bytes_stored, root_never_closed, root_told_otherwise, second_device, side_left_open, stolen_row, stopped_by_nothing, stopped_one_begins, tables_never_acquired, third_pair, third_too_early, two_open, without_lease};
ghost use Rattle.run_laws.specs.Sides.{pairs_work};
ghost use Rattle.run_laws.specs.Tables.{lookup_work, t_csv};
ghost use Rattle.run_laws.specs.Unacceptable.{AreUnacceptable};
ghost use Rattle.run_laws.specs.UnfitGroups.{AreUnfitGroups};
ghost use Rattle.run_laws.specs.Untold.{AreUntold};
ghost use Rattle.run_laws.specs.UnfitLists.{AreUnfitLists};
ghost use Rattle.run_rules.specs.Run.{Performs};
ghost use Rattle.std.specs.Prelude.{[], ◌∷◌, None, Some};

/// The outer stream isn't ahead, or too many streams are open.
pub fn wrong_pace()
    ensures is_without_lease { ¬ (Performs stopped_work without_lease) }
    ensures is_two_open { ¬ (Performs in_turn_work two_open) }
{}

/// Rows, scopes and leases that nobody has, and rows that end too early or in a wrong order.
pub fn wrong_rows()
    ensures is_first_table_first { ¬ (Performs (no_streams (t_csv ∷ u_csv ∷ [])) first_table_first) }
    ensures is_leased_table_ended { ¬ (Performs lookup_work leased_table_ended) }
    ensures is_stolen_row { ¬ (Performs stopped_work stolen_row) }
    ensures is_invented_scope { ¬ (Performs copy_work invented_scope) }
    ensures is_lease_by_a_stream { ¬ (Performs stopped_work lease_by_a_stream) }
    ensures is_left_before_closing { ¬ (Performs copy_work left_before_closing) }
{}

/// A device that no row asked for, and a file that holds what wasn't written.
pub fn wrong_stores()
    ensures is_second_device { ¬ (Performs copy_work second_device) }
    ensures is_other_bytes_stored { ¬ (Performs copy_work other_bytes_stored) }
{}

/// Frames that may not be printed, and a value that the table hasn't.
pub fn wrong_outputs()
    ensures is_another_value { ¬ (Performs lookup_work another_value) }
    ensures is_one_frame_too_many { ¬ (Performs silent_work one_frame_too_many) }
    ensures is_cut_behind_the_last { ¬ (Performs one_frame_work cut_behind_the_last) }
{}

/// Ends without their causes.
pub fn wrong_ends()
    ensures is_halted_by_a_later_one { ¬ (Performs in_turn_work halted_by_a_later_one) }
    ensures is_stopped_by_nothing { ¬ (Performs copy_work stopped_by_nothing) }
    ensures is_fault_of_no_device { ¬ (Performs lookup_work fault_of_no_device) }
    ensures is_root_never_closed { ¬ (Performs silent_work root_never_closed) }
    ensures is_tables_never_acquired { ¬ (Performs (no_streams (t_csv ∷ u_csv ∷ [])) tables_never_acquired) }
    ensures is_next_table_tried { ¬ (Performs (no_streams (t_csv ∷ u_csv ∷ [])) next_table_tried) }
    ensures is_nobody_given { ¬ (Performs in_turn_work nobody_given) }
{}

/// Streams that begin behind a stop.
pub fn begun_too_late()
    ensures is_stopped_one_begins { ¬ (Performs stopped_work stopped_one_begins) }
    ensures is_begins_behind_a_fault { ¬ (Performs in_turn_work begins_behind_a_fault) }
    ensures is_begins_behind_a_failed_write { ¬ (Performs in_turn_work begins_behind_a_failed_write) }
    ensures is_begins_in_silence { ¬ (Performs silent_work begins_in_silence) }
{}

/// Exits that aren't those of the ends.
pub fn told_otherwise()
    ensures is_root_told_otherwise { ¬ (Performs copy_work root_told_otherwise) }
    ensures is_cancel_told_otherwise { ¬ (Performs copy_work cancel_told_otherwise) }
{}

/// Pairs that aren't those of the two files, and a file of the two that is never closed.
pub fn wrong_sides()
    ensures is_third_pair { ¬ (Performs pairs_work third_pair) }
    ensures is_crossed_pairs { ¬ (Performs pairs_work crossed_pairs) }
    ensures is_side_left_open { ¬ (Performs pairs_work side_left_open) }
{}

/// Streams that aren't one after another, and an output under another stream's number.
pub fn wrong_files()
    ensures is_third_too_early { ¬ (Performs five_work third_too_early) }
    ensures is_another_number { ¬ (Performs five_work another_number) }
{}

/// An outer stream that never closed its root, that gives a stream where nothing may be printed, and
/// that cancels for a stream which was begun.
pub fn wrong_stream()
    ensures is_done_without_close { ¬ (Performs (one_stream_work None) done_without_close) }
    ensures is_begins_unwanted { ¬ (Performs (one_stream_work (Some 0)) begins_unwanted) }
    ensures is_canceled_by_another { ¬ (Performs (one_stream_work None) canceled_by_another) }
{}

/// Runs of which each is all right but for one thing, and that no user would accept.
pub fn unacceptable()
    ensures { AreUnacceptable }
{}

/// Runs in which an act on a device failed, and that end as if it hadn't.
pub fn untold_failures()
    ensures { AreUntold }
{}

/// Of those in which a stream is halted for what comes later, each has its causes with the other order.
pub fn caused_in_time()
    ensures { AreCausedInTime }
{}

/// Runs of groups of which each is all right but for one thing.
pub fn unfit_groups()
    ensures { AreUnfitGroups }
{}

/// Runs over the lines of a list of which each is all right but for one thing, whichever lines are
/// said to have been given streams.
pub fn unfit_lists()
    ensures { AreUnfitLists }
{}
