//! What a collector of many streams leaves, as plain data, and that it did the work of its plan.
//!
//! All is plain data that only contracts see, and nothing here runs. `RunsTogether` says what is left
//! of a run once all its streams have ended: the devices that were made came back
//! (`MadeComeBack`), the ledger is whole (`IsJoinedLedger`), the outer stream kept the rows of its
//! tables and of its list (`AreTablesKept`), the collector's tale is told by the record
//! (`IsRecordOf`), and each stream was begun, noted its share and gave pieces of a run (`HasRun`), or
//! was never begun (`HasNotRun`). It names no tree, no seat and no job. The law is that such a run
//! did the work of its plan (`Performs`), where some lines of its list were given streams.
//!
//! That each lease covers the rows that are lent to its stream, and no other, follows of the order
//! in which the outer stream gives, in a ledger that is legal.
#![tactic(auto)]

pub mod laws;
