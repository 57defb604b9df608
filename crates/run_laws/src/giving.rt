//! What follows of the order in which the outer stream gives its streams, and what it comes to where
//! there are no groups and no list.
ghost use Rattle.chunk_core.specs.declared.code.How.{How};
ghost use Rattle.chunk_core.specs.declared.code.How.TheVariants as how;
ghost use Rattle.device_port.specs.Device.{DeviceTold};
ghost use Rattle.res_ledger.specs.Ledger.{IsLeased, Notes};
ghost use Rattle.res_ledger.specs.declared.event.Event.{Event};
ghost use Rattle.res_ledger.specs.declared.event.StreamNo.TheVariants.{Outer};
ghost use Rattle.res_ledger.specs.declared.event.What.TheVariants.{Lease};
ghost use Rattle.run_laws.specs.Laws.{IsPlain, TablesCovered, TablesRise};
ghost use Rattle.run_laws.specs.Streams.{no_listing};
ghost use Rattle.run_rules.specs.Giving.{GivesAll, GivesInOrder};
ghost use Rattle.run_rules.specs.Opening.{AreTablesRead, AreUntried, OuterHasRun};
ghost use Rattle.run_rules.specs.Rules.{LendsTables};
ghost use Rattle.run_rules.specs.Work.{Opener, RunRecord};
ghost use Rattle.std.specs.Prelude.{◌⊎◌, ℕ, ◌<◌, List, length};

/// The outer stream acquires its rows in their order.
pub fn outer_rows_rise()
    ensures { (o : Opener) (n : ℕ) (L : List Event) → GivesInOrder o n L → TablesRise L }
{}

/// An outer stream that gave all leased for each of its streams.
pub fn outer_leases_all()
    ensures { (o : Opener) (n : ℕ) (L : List Event) → GivesAll o n L → (k : ℕ) → k < n → IsLeased L k }
{}

/// Without groups and a list an outer stream that was halted read all its tables, or tried none.
pub fn plain_outer_halts()
    ensures { (o : Opener) (n : ℕ) (c : RunRecord) (w : ℕ → DeviceTold) → IsPlain o → OuterHasRun o no_listing n c w how.Halted → AreTablesRead o c w 0 o.tables ⊎ AreUntried w 0 o.tables }
{}

/// It leases only once all tables were read.
pub fn plain_outer_gives()
    ensures { (o : Opener) (n : ℕ) (c : RunRecord) (w : ℕ → DeviceTold) (h : How) → IsPlain o → OuterHasRun o no_listing n c w h → (j s : ℕ) → Notes c.events Outer (Lease j s) → AreTablesRead o c w 0 o.tables }
{}

/// Each of its leases covers all tables.
pub fn plain_outer_lends()
    ensures { (o : Opener) (n : ℕ) (L : List Event) → IsPlain o → LendsTables o n L → TablesCovered (length o.tables) L }
{}
