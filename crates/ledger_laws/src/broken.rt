//! Ledgers with one mistake each.
ghost use Rattle.ledger_laws.specs.Broken.{acquire_below_a_closed_scope, acquire_in_a_closed_scope, acquire_twice, cancel_before_the_finals, cancel_of_a_begun_stream, cancel_twice, close_of_no_scope, close_twice, event_between_close_and_finals, final_before_close, final_by_a_stranger, final_despite_a_lease, final_twice, final_with_another_exit_than_its_cancel, final_with_another_exit_than_its_close, finals_with_two_exits, lease_twice, lease_without_a_cancel, leased_rows_in_order_of_acquisition, parent_before_child, root_left_open, row_without_a_final, scope_left_open, siblings_in_order_of_acquisition, uncovered_row_waits};
ghost use Rattle.ledger_laws.specs.Written.{IsOnlyDisordered, IsOnlyIncomplete};
ghost use Rattle.res_ledger.specs.Ledger.{IsLegal};

/// Ledgers with an event that may not follow those before it.
pub fn illegal_ledgers()
    ensures is_final_before_close { ¬ (IsLegal final_before_close) }
    ensures is_final_twice { ¬ (IsLegal final_twice) }
    ensures is_final_despite_a_lease { ¬ (IsLegal final_despite_a_lease) }
    ensures is_final_by_a_stranger { ¬ (IsLegal final_by_a_stranger) }
    ensures is_cancel_before_the_finals { ¬ (IsLegal cancel_before_the_finals) }
    ensures is_cancel_of_a_begun_stream { ¬ (IsLegal cancel_of_a_begun_stream) }
    ensures is_cancel_twice { ¬ (IsLegal cancel_twice) }
    ensures is_lease_twice { ¬ (IsLegal lease_twice) }
    ensures is_acquire_in_a_closed_scope { ¬ (IsLegal acquire_in_a_closed_scope) }
    ensures is_acquire_below_a_closed_scope { ¬ (IsLegal acquire_below_a_closed_scope) }
    ensures is_acquire_twice { ¬ (IsLegal acquire_twice) }
    ensures is_close_twice { ¬ (IsLegal close_twice) }
    ensures is_close_of_no_scope { ¬ (IsLegal close_of_no_scope) }
{}

/// Legal ledgers that leave something open, leased or without its end.
pub fn incomplete_ledgers()
    ensures is_row_without_a_final { IsOnlyIncomplete row_without_a_final }
    ensures is_lease_without_a_cancel { IsOnlyIncomplete lease_without_a_cancel }
    ensures is_scope_left_open { IsOnlyIncomplete scope_left_open }
    ensures is_root_left_open { IsOnlyIncomplete root_left_open }
{}

/// Legal and complete ledgers whose rows end in a wrong order, or are told another exit than that
/// of the Close or Cancel they follow.
pub fn disordered_ledgers()
    ensures is_siblings_in_order_of_acquisition { IsOnlyDisordered siblings_in_order_of_acquisition }
    ensures is_parent_before_child { IsOnlyDisordered parent_before_child }
    ensures is_uncovered_row_waits { IsOnlyDisordered uncovered_row_waits }
    ensures is_leased_rows_in_order_of_acquisition { IsOnlyDisordered leased_rows_in_order_of_acquisition }
    ensures is_event_between_close_and_finals { IsOnlyDisordered event_between_close_and_finals }
    ensures is_final_with_another_exit_than_its_close { IsOnlyDisordered final_with_another_exit_than_its_close }
    ensures is_final_with_another_exit_than_its_cancel { IsOnlyDisordered final_with_another_exit_than_its_cancel }
    ensures is_finals_with_two_exits { IsOnlyDisordered finals_with_two_exits }
{}
