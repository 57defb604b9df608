//! The tests of a run that is written out are exact: each passes where its rule holds, and nowhere
//! else. No test looks at what the streams of the work may give, so that the laws speak of a work by
//! its outer stream and its streams, which may give anything: of `HasOneExit` the test leaves out
//! only that a run has the end that is told, and of `IsWanting` that a run goes on.
ghost use Rattle.chunk_core.specs.Lists.{IsAmong};
ghost use Rattle.chunk_core.specs.Texts.{Frame};
ghost use Rattle.chunk_core.specs.declared.code.How.{How};
ghost use Rattle.chunk_core.specs.declared.code.How.TheVariants as how;
ghost use Rattle.device_port.specs.Device.{DeviceTold, Place};
ghost use Rattle.res_ledger.specs.Ledger.{IsLegal};
ghost use Rattle.res_ledger.specs.declared.event.Event.{Event};
ghost use Rattle.res_ledger.specs.declared.event.StreamNo.{StreamNo};
ghost use Rattle.run_laws.specs.EndTests.{begin_in_room, closes_before, end_stops, end_stops_in_time, fault_stops, has_begun, has_cause_to_halt, has_one_exit, has_stopped_all, is_caused, is_exit_hidden, is_last, is_last_turn, is_memory_known, is_memory_told, is_shown, is_silenced, is_stopped, is_turn, may_stop, prints_behind, silence_stops, stops_by_end, stops_by_failure, stops_when_silenced, was_in, was_open};
ghost use Rattle.run_laws.specs.GivingTests.{gives_all, gives_in_order, is_given_by, lends_tables, takes_turns};
ghost use Rattle.run_laws.specs.Laws.{StopsByEnd, StopsByFailure, StopsWhenSilenced, TakesTurns, work_of};
ghost use Rattle.run_laws.specs.LedgerTests.{are_left_alone, begin_in_order, is_ahead, is_leaving_closed, is_ours, is_paced, is_shut, is_untouched, is_within, leases_in_order, never_fall, outer_waits};
ghost use Rattle.run_rules.specs.Devices.{IsShut};
ghost use Rattle.run_rules.specs.Ends.{BeginInRoom, ClosesBefore, EndIsCaused, EndStops, EndStopsInTime, FaultStops, HasBegun, HasCauseToHalt, HasStoppedAll, IsLast, IsLastTurn, IsShown, IsSilenced, IsStopped, IsTurn, MayStop, PrintsBehind, SilenceStops, WasIn, WasOpen};
ghost use Rattle.run_rules.specs.Exits.{HasOneExit, IsExitHidden};
ghost use Rattle.run_rules.specs.Homes.{AreLeftAlone, IsUntouched};
ghost use Rattle.run_rules.specs.Memory.{IsWanting};
ghost use Rattle.run_rules.specs.Outputs.{NeverFall};
ghost use Rattle.run_rules.specs.Pace.{BeginInOrder, IsPaced, LeasesAhead, LeasesInOrder, OuterWaits, WithinWidth};
ghost use Rattle.run_rules.specs.Giving.{GivesAll, GivesInOrder};
ghost use Rattle.run_rules.specs.Rules.{ClosesBeforeLeaving, IsGivenBy, IsOurs, LendsTables};
ghost use Rattle.run_rules.specs.Work.{Opener, RunRecord, Stream, Values};
ghost use Rattle.run_rules.specs.declared.end.EndOf.{EndOf};
ghost use Rattle.std.specs.Bool.{Decides};
ghost use Rattle.std.specs.Prelude.{◌≡◌, ℕ, true, List, Option};

/// Why a stream may be halted.
pub fn tests_of_causes()
    ensures of_may_stop { (o : Option Opener) (ss : List Stream) (j k : StreamNo) → Decides (may_stop (work_of o ss) j k) (MayStop (work_of o ss) j k) }
    ensures of_silenced { (o : Option Opener) (ss : List Stream) (c : RunRecord) → Decides (is_silenced (work_of o ss) c) (IsSilenced (work_of o ss) c) }
    ensures of_silence { (o : Option Opener) (ss : List Stream) (c : RunRecord) (k : StreamNo) → Decides (silence_stops (work_of o ss) c k) (SilenceStops (work_of o ss) c k) }
    ensures of_fault { (o : Option Opener) (ss : List Stream) (c : RunRecord) (k : StreamNo) → Decides (fault_stops (work_of o ss) c k) (FaultStops (work_of o ss) c k) }
    ensures of_before { (L : List Event) (j k : StreamNo) → Decides (closes_before L j k) (ClosesBefore L j k) }
    ensures of_end { (o : Option Opener) (ss : List Stream) (c : RunRecord) (k : StreamNo) → Decides (end_stops (work_of o ss) c k) (EndStops (work_of o ss) c k) }
    ensures of_time { (o : Option Opener) (ss : List Stream) (c : RunRecord) (k : StreamNo) → Decides (end_stops_in_time (work_of o ss) c k) (EndStopsInTime (work_of o ss) c k) }
    ensures of_cause { (o : Option Opener) (ss : List Stream) (c : RunRecord) (k : StreamNo) → Decides (has_cause_to_halt (work_of o ss) c k) (HasCauseToHalt (work_of o ss) c k) }
{}

/// That an end comes by its cause, and what is said of memory.
pub fn tests_of_ends()
    ensures of_shown { (ds : List DeviceTold) (ps : List Place) (h : How) → Decides (is_shown ds ps h) (IsShown ds ps h) }
    ensures of_begun { (e : EndOf) (L : List Event) → Decides (has_begun e L) (HasBegun e L) }
    ensures of_caused { (o : Option Opener) (ss : List Stream) (c : RunRecord) (e : EndOf) → Decides (is_caused (work_of o ss) c e) (EndIsCaused (work_of o ss) c e) }
    ensures of_memory_known { (c : RunRecord) → Decides (is_memory_known c) ((e : EndOf) → IsAmong e c.ends → e.how ≡ how.Memory → c.memory ≡ true) }
    ensures of_memory_told { (o : Option Opener) (ss : List Stream) (c : RunRecord) (v : Values) (w : ℕ → DeviceTold) → Decides (is_memory_told (work_of o ss) c) (c.memory ≡ true → IsWanting (work_of o ss) c v w) }
{}

/// That nothing begins behind a stop.
pub fn tests_of_stops()
    ensures of_last { (j : ℕ) (L : List Event) → Decides (is_last j L) (IsLast j L) }
    ensures of_failure { (c : RunRecord) → Decides (stops_by_failure c) (StopsByFailure c) }
    ensures of_silence { (o : Option Opener) (ss : List Stream) (c : RunRecord) → Decides (stops_when_silenced (work_of o ss) c) (StopsWhenSilenced (work_of o ss) c) }
    ensures of_end { (o : Option Opener) (ss : List Stream) (c : RunRecord) (k : ℕ) → Decides (stops_by_end (work_of o ss) c k) (StopsByEnd (work_of o ss) c k) }
    ensures of_stopped { (o : Option Opener) (ss : List Stream) (c : RunRecord) → Decides (is_stopped (work_of o ss) c) (IsStopped (work_of o ss) c) }
{}

/// Whose turn it was, and which streams were open then.
pub fn tests_of_room()
    ensures of_turn { (L : List Event) (k : ℕ) (e : Event) → Decides (is_turn L k e) (IsTurn L k e) }
    ensures of_last_turn { (j : ℕ) (L : List Event) → Decides (is_last_turn j L) (IsLastTurn j L) }
    ensures of_in { (L : List Event) (k i : ℕ) → Decides (was_in L k i) (WasIn L k i) }
    ensures of_behind { (k i : ℕ) (F : List Frame) → Decides (prints_behind k i F) (PrintsBehind F k i) }
    ensures of_stopped_all { (o : Option Opener) (ss : List Stream) (c : RunRecord) (i : ℕ) → Decides (has_stopped_all (work_of o ss) c i) (HasStoppedAll (work_of o ss) c i) }
    ensures of_open { (o : Option Opener) (ss : List Stream) (c : RunRecord) (k i : ℕ) → Decides (was_open (work_of o ss) c k i) (WasOpen (work_of o ss) c k i) }
    ensures of_room { (o : Option Opener) (ss : List Stream) (c : RunRecord) → Decides (begin_in_room o (work_of o ss) c) (BeginInRoom o (work_of o ss) c) }
{}

/// What the finalizers were told.
pub fn tests_of_exits()
    ensures of_hidden { (o : Option Opener) (ss : List Stream) (c : RunRecord) (e : EndOf) → Decides (is_exit_hidden (work_of o ss) c e) (IsExitHidden (work_of o ss) c e) }
    ensures of_one_exit { (o : Option Opener) (ss : List Stream) (c : RunRecord) (v : Values) (w : ℕ → DeviceTold) (e : EndOf) → Decides (has_one_exit (work_of o ss) c e) (HasOneExit (work_of o ss) c v w e) }
{}

/// Whose the events are.
pub fn tests_of_events()
    ensures of_ours { (o : Option Opener) (ss : List Stream) (e : Event) → Decides (is_ours (work_of o ss) e) (IsOurs (work_of o ss) e) }
    ensures of_leaving { (L : List Event) → Decides (is_leaving_closed L) (ClosesBeforeLeaving L) }
{}

/// How far the outer stream is ahead, and in which order the streams are given and begin.
pub fn tests_of_pace()
    ensures of_ahead { (L : List Event) → Decides (is_ahead L) (LeasesAhead L) }
    ensures of_within { (width n : ℕ) (L : List Event) → Decides (is_within width n L) (WithinWidth width n L) }
    ensures of_leases { (L : List Event) → Decides (leases_in_order L) (LeasesInOrder L) }
    ensures of_waits { (width n : ℕ) (L : List Event) → Decides (outer_waits width n L) (OuterWaits width n L) }
    ensures of_begins { (width : ℕ) (L : List Event) → Decides (begin_in_order width L) (BeginInOrder width L) }
    ensures of_pace { (width n : ℕ) (L : List Event) → Decides (is_paced width n L) (IsPaced width n L) }
{}

/// What the outer stream gives and in which order, and that the tables are lent, where the ledger is
/// legal.
pub fn tests_of_giving()
    ensures of_order { (o : Opener) (n : ℕ) (L : List Event) → Decides (gives_in_order o n L) (GivesInOrder o n L) }
    ensures of_all { (o : Opener) (n : ℕ) (L : List Event) → Decides (gives_all o n L) (GivesAll o n L) }
    ensures of_lent { (o : Opener) (n : ℕ) (L : List Event) → IsLegal L → Decides (lends_tables o n L) (LendsTables o n L) }
    ensures of_given { (o : Option Opener) (n : ℕ) (L : List Event) → IsLegal L → Decides (is_given_by o n L) (IsGivenBy o n L) }
    ensures of_turns { (o : Opener) (n : ℕ) (L : List Event) (w : ℕ → DeviceTold) → Decides (takes_turns o n L w) (TakesTurns o n L w) }
{}

/// Devices that came back or were left alone, and frames in order of their streams.
pub fn tests_of_rows()
    ensures of_shut { (d : DeviceTold) → Decides (is_shut d) (IsShut d) }
    ensures of_untouched { (d : DeviceTold) → Decides (is_untouched d) (IsUntouched d) }
    ensures of_left_alone { (o : Option Opener) (ss : List Stream) (c : RunRecord) (w : ℕ → DeviceTold) → Decides (are_left_alone (work_of o ss) c w) (AreLeftAlone (work_of o ss) c w) }
    ensures of_frames { (F : List Frame) → Decides (never_fall F) (NeverFall F) }
{}
