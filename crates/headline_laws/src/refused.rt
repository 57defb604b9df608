//! Calls with one thing wrong each.
ghost use Rattle.flume_cli.specs.Headline.{Headline};
ghost use Rattle.headline_laws.specs.Refused.{end_never_met, failed_read_forgotten, invented_output, cut_output, row_of_no_plan, event_of_no_stream, lease_of_no_stream, call_with_row_without_a_final, call_with_final_before_close, kept_device, closed_twice, left_open, failure_not_told, halted_without_a_cause, fault_without_a_fault, failed_close_not_told, done_told_as_errored, fault_told_as_succeeded, halt_told_as_succeeded, final_unlike_its_close, device_told_otherwise, silent_call};
ghost use Rattle.std.specs.Prelude.{ℕ, ◌<◌, List, length};
ghost use Rattle.headline_laws.specs.Audited.{audit_of_nothing, audit_of_the_depot, clean_called_unended, ledger_not_reported, other_rule_named, refused_though_spelled, unended_called_clean, unended_with_status_0, unread_though_read};
ghost use Rattle.headline_laws.specs.Branched.{branch_halted_for_nothing, branch_without_end, branched_and_open, branched_as_errored, unmeant_branch};
ghost use Rattle.headline_laws.specs.Cases.{case_of_the_depot, case_of_the_source, failed_case, halted_case, nothing_summed, summary_of_another_seed, summary_without_memory};
ghost use Rattle.headline_laws.specs.Described.{drained, end_not_read, made_though_refused, never_read, next_stream_refused, read_by_cat, read_on, refusal_printed, refused_though_good, stream_left_out, unread_but_refused, unread_without_a_fault};
ghost use Rattle.headline_laws.specs.Evaluated.{evaluated_and_open, evaluation_halted, group_lost, groups_joined, groups_swapped};
ghost use Rattle.headline_laws.specs.Listed.{line_before_read, line_forgotten, other_group_run};
ghost use Rattle.headline_laws.specs.Rotated.{closed_at_the_end, cut_piece, done_as_errored, halted_rotation, printed_too, too_many_of_six, unfailed_write};
ghost use Rattle.headline_laws.specs.Surplus.{failed_read_told_as_memory, halted_by_the_tail, halted_for_memory, idle_devices, invented_scopes, larger_frame, made_without_words, memory_at_the_end, opened_again, writes_on};
ghost use Rattle.headline_laws.specs.Unruly.{emptied_unopened, opened_though_missing, opened_twice, out_of_turn, read_beyond_the_end};

/// Outputs that no device gave.
pub fn invented_outputs()
    ensures is_invented_output { ¬ (Headline invented_output) }
    ensures is_cut_output { ¬ (Headline cut_output) }
{}

/// Rows and streams that the command hasn't, and rows that end wrongly.
pub fn wrong_ledgers()
    ensures is_row_of_no_plan { ¬ (Headline row_of_no_plan) }
    ensures is_event_of_no_stream { ¬ (Headline event_of_no_stream) }
    ensures is_lease_of_no_stream { ¬ (Headline lease_of_no_stream) }
    ensures is_row_without_a_final { ¬ (Headline call_with_row_without_a_final) }
    ensures is_final_before_close { ¬ (Headline call_with_final_before_close) }
{}

/// Devices that didn't come back, or not as they should.
pub fn wrong_devices()
    ensures is_kept_device { ¬ (Headline kept_device) }
    ensures is_closed_twice { ¬ (Headline closed_twice) }
    ensures is_left_open { ¬ (Headline left_open) }
{}

/// Exits that aren't those of the stream's end, of the Close or of the Final.
pub fn wrong_exits()
    ensures is_done_told_as_errored { ¬ (Headline done_told_as_errored) }
    ensures is_fault_told_as_succeeded { ¬ (Headline fault_told_as_succeeded) }
    ensures is_halt_told_as_succeeded { ¬ (Headline halt_told_as_succeeded) }
    ensures is_final_unlike_its_close { ¬ (Headline final_unlike_its_close) }
    ensures is_device_told_otherwise { ¬ (Headline device_told_otherwise) }
{}

/// Devices, scopes and writes beyond what the command asks for, and what befell the tail told of
/// the run.
pub fn surplus()
    ensures is_idle_devices { ¬ (Headline idle_devices) }
    ensures is_opened_again { ¬ (Headline opened_again) }
    ensures is_invented_scopes { ¬ (Headline invented_scopes) }
    ensures is_writes_on { ¬ (Headline writes_on) }
    ensures is_halted_by_the_tail { ¬ (Headline halted_by_the_tail) }
    ensures is_memory_at_the_end { ¬ (Headline memory_at_the_end) }
    ensures is_halted_for_memory { ¬ (Headline halted_for_memory) }
    ensures is_larger_frame { ¬ (Headline larger_frame) }
    ensures is_made_without_words { ¬ (Headline made_without_words) }
{}

/// Devices that were opened or read as none is, a file that changed though nobody opened it, and streams
/// that came out of turn.
pub fn unruly()
    ensures is_opened_twice { ¬ (Headline opened_twice) }
    ensures is_opened_though_missing { ¬ (Headline opened_though_missing) }
    ensures is_read_beyond_the_end { ¬ (Headline read_beyond_the_end) }
    ensures is_emptied_unopened { ¬ (Headline emptied_unopened) }
    ensures is_out_of_turn { ¬ (Headline out_of_turn) }
{}

/// Ends and statuses without their causes, and causes that nobody was told.
pub fn missing_causes()
    ensures is_failure_not_told { ¬ (Headline failure_not_told) }
    ensures is_halted_without_a_cause { ¬ (Headline halted_without_a_cause) }
    ensures is_fault_without_a_fault { ¬ (Headline fault_without_a_fault) }
    ensures is_failed_read_forgotten { ¬ (Headline failed_read_forgotten) }
    ensures is_failed_read_told_as_memory { ¬ (Headline failed_read_told_as_memory) }
    ensures is_end_never_met { ¬ (Headline end_never_met) }
    ensures is_failed_close_not_told { ¬ (Headline failed_close_not_told) }
    ensures is_silent_call { ¬ (Headline silent_call) }
{}

/// Refusals that aren't the description's, and sources that were read otherwise than is told.
pub fn wrong_descriptions()
    ensures is_next_stream_refused { ¬ (Headline next_stream_refused) }
    ensures is_stream_left_out { ¬ (Headline stream_left_out) }
    ensures is_unread_without_a_fault { ¬ (Headline unread_without_a_fault) }
    ensures is_unread_but_refused { ¬ (Headline unread_but_refused) }
    ensures is_read_on { ¬ (Headline read_on) }
    ensures is_drained { (bytes : List ℕ) → 1048577 < length bytes → ¬ (Headline (drained bytes)) }
    ensures is_refused_though_good { ¬ (Headline refused_though_good) }
    ensures is_never_read { ¬ (Headline never_read) }
    ensures is_read_by_cat { ¬ (Headline read_by_cat) }
    ensures is_end_not_read { ¬ (Headline end_not_read) }
    ensures is_made_though_refused { ¬ (Headline made_though_refused) }
    ensures is_refusal_printed { ¬ (Headline refusal_printed) }
{}

/// A listed stream that read the file of another line, a list that is done and of which a line is
/// left, and a table that a stream of another group looks up.
pub fn wrong_lists_and_groups()
    ensures is_line_before_read { ¬ (Headline line_before_read) }
    ensures is_line_forgotten { ¬ (Headline line_forgotten) }
    ensures is_other_group_run { ¬ (Headline other_group_run) }
{}

/// Cases that took something from outside, failed, were left, or were summed up otherwise.
pub fn wrong_cases()
    ensures is_case_of_the_depot { ¬ (Headline case_of_the_depot) }
    ensures is_case_of_the_source { ¬ (Headline case_of_the_source) }
    ensures is_failed_case { ¬ (Headline failed_case) }
    ensures is_halted_case { ¬ (Headline halted_case) }
    ensures is_nothing_summed { ¬ (Headline nothing_summed) }
    ensures is_summary_of_another_seed { ¬ (Headline summary_of_another_seed) }
    ensures is_summary_without_memory { ¬ (Headline summary_without_memory) }
{}

/// Audits that tell another verdict, ledger or refusal than the text has, or took it from elsewhere.
pub fn wrong_audits()
    ensures is_unended_called_clean { ¬ (Headline unended_called_clean) }
    ensures is_unended_with_status_0 { ¬ (Headline unended_with_status_0) }
    ensures is_clean_called_unended { ¬ (Headline clean_called_unended) }
    ensures is_other_rule_named { ¬ (Headline other_rule_named) }
    ensures is_ledger_not_reported { ¬ (Headline ledger_not_reported) }
    ensures is_refused_though_spelled { ¬ (Headline refused_though_spelled) }
    ensures is_audit_of_the_depot { ¬ (Headline audit_of_the_depot) }
    ensures is_audit_of_nothing { ¬ (Headline audit_of_nothing) }
    ensures is_unread_though_read { ¬ (Headline unread_though_read) }
{}

/// Rotations that lost a byte, kept files open, or ended otherwise than their devices tell.
pub fn wrong_rotations()
    ensures is_cut_piece { ¬ (Headline cut_piece) }
    ensures is_closed_at_the_end { ¬ (Headline closed_at_the_end) }
    ensures is_too_many_of_six { ¬ (Headline too_many_of_six) }
    ensures is_halted_rotation { ¬ (Headline halted_rotation) }
    ensures is_unfailed_write { ¬ (Headline unfailed_write) }
    ensures is_done_as_errored { ¬ (Headline done_as_errored) }
    ensures is_printed_too { ¬ (Headline printed_too) }
{}

/// Branches that were halted for nothing, lost their end or mean no chain, and a reader whose device
/// came back open or was told otherwise.
pub fn wrong_branches()
    ensures is_open { ¬ (Headline branched_and_open) }
    ensures is_without_end { ¬ (Headline branch_without_end) }
    ensures is_halted { ¬ (Headline branch_halted_for_nothing) }
    ensures is_errored { ¬ (Headline branched_as_errored) }
    ensures is_unmeant { ¬ (Headline unmeant_branch) }
{}

/// Evaluations whose groups came in another order, got lost or were cut otherwise, that were halted
/// for nothing, or whose device came back open.
pub fn wrong_evaluations()
    ensures is_swapped { ¬ (Headline groups_swapped) }
    ensures is_lost { ¬ (Headline group_lost) }
    ensures is_joined { ¬ (Headline groups_joined) }
    ensures is_halted { ¬ (Headline evaluation_halted) }
    ensures is_open { ¬ (Headline evaluated_and_open) }
{}
