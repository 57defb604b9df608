//! Ledgers that are legal, complete and ordered.
ghost use Rattle.ledger_laws.specs.Worked.{stream_goes_on_after_its_cancel, child_closed_first, failed_finalizer, lease_on_the_middle, lease_on_the_root, nothing_acquired, one_row, reader_is_stopped, row_kept_by_a_lease, rows_of_a_leased_stream, stream_never_started, three_scopes_at_once, two_rows};
ghost use Rattle.ledger_laws.specs.Written.{IsRight};

/// Ledgers of runs that went right.
pub fn right_ledgers()
    ensures is_one_row { IsRight one_row }
    ensures is_failed_finalizer { IsRight failed_finalizer }
    ensures is_nothing_acquired { IsRight nothing_acquired }
    ensures is_row_kept_by_a_lease { IsRight row_kept_by_a_lease }
    ensures is_reader_is_stopped { IsRight reader_is_stopped }
    ensures is_two_rows { IsRight two_rows }
    ensures is_rows_of_a_leased_stream { IsRight rows_of_a_leased_stream }
    ensures is_child_closed_first { IsRight child_closed_first }
    ensures is_stream_never_started { IsRight stream_never_started }
    ensures is_lease_on_the_middle { IsRight lease_on_the_middle }
    ensures is_lease_on_the_root { IsRight lease_on_the_root }
    ensures is_three_scopes_at_once { IsRight three_scopes_at_once }
{}

/// What the rules don't refuse: no rule says that a stream ends with its Cancel.
pub fn ledgers_let_through()
    ensures { IsRight stream_goes_on_after_its_cancel }
{}
