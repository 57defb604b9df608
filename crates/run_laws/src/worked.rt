//! Runs that went as they should, each with what it prints.
ghost use Rattle.run_laws.specs.Files.{path_a, cut_line_end, cut_line_end_text, filtered_log, filtered_log_text, filtered_log_work, lines_work, lossy_hexadecimal, lossy_hexadecimal_text, lossy_hexadecimal_work, malformed_character, malformed_character_text, second_field, second_field_text, second_field_work, taker_stops, taker_stops_text, taker_stops_work, truncated_character, truncated_character_text, uneven_records, uneven_records_text, uneven_records_work, utf8_work, whole_character, whole_character_text};
ghost use Rattle.run_laws.specs.FiveFiles.{five, five_text, five_work};
ghost use Rattle.run_laws.specs.Groups.{group_work, grouped, grouped_text, pair, pair_text, pair_work};
ghost use Rattle.run_laws.specs.Lists.{bad_line, bad_line_text, list_work, one_line_work, one_too_many, one_too_many_text, two_listed, two_listed_text};
ghost use Rattle.run_laws.specs.OneStream.{one_stream_work, unbegun, ungiven, ungiven_text};
ghost use Rattle.run_laws.specs.Others.{copy_work, handled_work, no_streams, silent_work, stopped_work, u_csv, two_tables, nothing_described, silent, stopped, handled, copied, uncopied, two_tables_text, nothing_described_text, silent_text, stopped_text, handled_text, copied_text, uncopied_text};
ghost use Rattle.run_laws.specs.Sides.{merge_work, merged, merged_back, merged_back_text, merged_text, paired, paired_text, pairs_work};
ghost use Rattle.run_laws.specs.Tables.{lookup_work, path_b, t_csv, lookup, unread_table, refused_table, missing_table, unopened_file, unread_file, unclean_table, unclean_file, lookup_text, unread_table_text, refused_table_text, missing_table_text, unopened_file_text, unread_file_text, unclean_table_text, unclean_file_text};
ghost use Rattle.run_laws.specs.Written.{IsRightRun};
ghost use Rattle.run_rules.specs.Run.{Performs};
ghost use Rattle.std.specs.Prelude.{[], ◌∷◌, None, Some};

/// One file through steps.
pub fn one_file()
    ensures is_cut_line_end { IsRightRun lines_work cut_line_end cut_line_end_text }
    ensures is_whole_character { IsRightRun utf8_work whole_character whole_character_text }
    ensures is_truncated_character { IsRightRun utf8_work truncated_character truncated_character_text }
    ensures is_malformed_character { IsRightRun utf8_work malformed_character malformed_character_text }
    ensures is_lossy_hexadecimal { IsRightRun lossy_hexadecimal_work lossy_hexadecimal lossy_hexadecimal_text }
    ensures is_filtered_log { IsRightRun filtered_log_work filtered_log filtered_log_text }
    ensures is_taker_stops { IsRightRun taker_stops_work taker_stops taker_stops_text }
    ensures is_second_field { IsRightRun second_field_work second_field second_field_text }
    ensures is_uneven_records { IsRightRun uneven_records_work uneven_records uneven_records_text }
{}

/// A lookup through a lease, and its devices that can't be closed well.
pub fn lookups()
    ensures is_lookup { IsRightRun lookup_work lookup lookup_text }
    ensures is_unclean_table { IsRightRun lookup_work unclean_table unclean_table_text }
    ensures is_unclean_file { IsRightRun lookup_work unclean_file unclean_file_text }
{}

/// A lookup whose table or file fails.
pub fn failed_lookups()
    ensures is_unread_table { IsRightRun lookup_work unread_table unread_table_text }
    ensures is_refused_table { IsRightRun lookup_work refused_table refused_table_text }
    ensures is_missing_table { IsRightRun lookup_work missing_table missing_table_text }
    ensures is_unopened_file { IsRightRun lookup_work unopened_file unopened_file_text }
    ensures is_unread_file { IsRightRun lookup_work unread_file unread_file_text }
{}

/// No stream, two streams, a text for a fault, and a stream that is written to a file.
pub fn other_runs()
    ensures is_two_tables { IsRightRun (no_streams (t_csv ∷ u_csv ∷ [])) two_tables two_tables_text }
    ensures is_nothing_described { IsRightRun (no_streams []) nothing_described nothing_described_text }
    ensures is_silent { IsRightRun silent_work silent silent_text }
    ensures is_stopped { IsRightRun stopped_work stopped stopped_text }
    ensures is_handled { IsRightRun handled_work handled handled_text }
    ensures is_copied { IsRightRun copy_work copied copied_text }
    ensures is_uncopied { IsRightRun copy_work uncopied uncopied_text }
{}

/// Two files in pairs, and as a merge in either order.
pub fn two_sides()
    ensures is_paired { IsRightRun pairs_work paired paired_text }
    ensures is_merged { IsRightRun merge_work merged merged_text }
    ensures is_merged_back { IsRightRun merge_work merged_back merged_back_text }
{}

/// Five files of different sizes, one after another.
pub fn several_files()
    ensures is_five { IsRightRun five_work five five_text }
{}

/// One stream that is never begun: nothing may be printed, or there is no memory for it, and then
/// nothing is said behind the frames.
pub fn one_stream()
    ensures is_ungiven { IsRightRun (one_stream_work (Some 0)) ungiven ungiven_text }
    ensures is_unbegun { Performs (one_stream_work None) unbegun }
{}

/// A table and a stream of a group, and two streams of a group, whose table stands beside one of the
/// top.
pub fn groups()
    ensures is_grouped { IsRightRun group_work grouped grouped_text }
    ensures is_pair { IsRightRun pair_work pair pair_text }
{}

/// The lines of a list: two, one with an empty line behind it, and one with a further line where
/// only one is allowed.
pub fn lists()
    ensures is_two_listed { IsRightRun (list_work (path_a ∷ path_b ∷ [])) two_listed two_listed_text }
    ensures is_bad_line { IsRightRun (list_work (path_a ∷ [])) bad_line bad_line_text }
    ensures is_one_too_many { IsRightRun (one_line_work (path_a ∷ [])) one_too_many one_too_many_text }
{}
