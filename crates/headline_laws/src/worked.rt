//! Calls that went as they should.
ghost use Rattle.flume_cli.specs.Headline.{Headline};
ghost use Rattle.headline_laws.specs.Audited.{clean_ledger, unended_ledger, unread_ledger, unwritten_verdict};
ghost use Rattle.headline_laws.specs.Branched.{branches_turned, two_branches};
ghost use Rattle.headline_laws.specs.Cases.{case_not_made};
ghost use Rattle.headline_laws.specs.Described.{empty_description, no_memory, refused_description, unread_source};
ghost use Rattle.headline_laws.specs.Evaluated.{two_groups};
ghost use Rattle.headline_laws.specs.Listed.{other_group_refused, two_lines_listed};
ghost use Rattle.headline_laws.specs.Rotated.{two_pieces, unopened_piece};
ghost use Rattle.headline_laws.specs.Worked.{whole_file, empty_file, missing_file, read_fault, failed_close, failed_write, words_not_read};

/// Files that were read whole.
pub fn whole_files()
    ensures is_whole_file { Headline whole_file }
    ensures is_empty_file { Headline empty_file }
{}

/// Devices that failed.
pub fn failed_devices()
    ensures is_missing_file { Headline missing_file }
    ensures is_read_fault { Headline read_fault }
    ensures is_failed_close { Headline failed_close }
{}

/// An output that failed at once.
pub fn failed_outputs()
    ensures { Headline failed_write }
{}

/// Words for which there was no memory.
pub fn words()
    ensures { Headline words_not_read }
{}

/// Descriptions that were refused, not read, or of no stream.
pub fn descriptions()
    ensures is_refused_description { Headline refused_description }
    ensures is_unread_source { Headline unread_source }
    ensures is_no_memory { Headline no_memory }
    ensures is_empty_description { Headline empty_description }
{}

/// A list whose lines were given streams, and groups one of which looks up the other's table.
pub fn lists_and_groups()
    ensures is_two_lines_listed { Headline two_lines_listed }
    ensures is_other_group_refused { Headline other_group_refused }
{}

/// A case for which there was no memory.
pub fn cases()
    ensures { Headline case_not_made }
{}

/// Ledgers that were judged, or not read, and a verdict that was not written.
pub fn audits()
    ensures is_clean_ledger { Headline clean_ledger }
    ensures is_unended_ledger { Headline unended_ledger }
    ensures is_unwritten_verdict { Headline unwritten_verdict }
    ensures is_unread_ledger { Headline unread_ledger }
{}

/// A file that was copied into two, of which the second could not be opened, or could.
pub fn rotations()
    ensures is_two_pieces { Headline two_pieces }
    ensures is_unopened_piece { Headline unopened_piece }
{}

/// A file that was read once for two branches, whose frames stand in either order.
pub fn branches()
    ensures is_two_branches { Headline two_branches }
    ensures is_branches_turned { Headline branches_turned }
{}

/// A file whose lines were evaluated one by one.
pub fn evaluations()
    ensures { Headline two_groups }
{}
