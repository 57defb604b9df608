//! The steps by which a seat sees the front of the ledger, and knows later what stands behind it.
ghost use Rattle.std.specs.Prelude.{◌≡◌, ◌<◌, ◌^◌, true, []};
ghost use Rattle.row_seat.specs.Fronts.{StandsBehind, sight_of};
ghost use Rattle.row_seat.specs.Rule.{view_of};
ghost use Rattle.row_seat.specs.Views.{IsFreshStamp};
ghost use Rattle.row_seat.specs.declared.front.Sight.{Sight};
ghost use Rattle.row_shared.specs.Places.{IsOfTable, idle, marking};
ghost use Rattle.row_shared.specs.Told.{IsIdle, IsMarked, Recalled, Saw};

use crate::steps::STAMP;
use crate::table::{Marks, Recalls, RowPass, RowShared, Sees, Unmarks};

// Looks at the front of the ledger.
fn see<P>(table: &RowShared<P>, pass: &mut RowPass<P>) -> u64
    requires table { IsOfTable pass.old.table_id table.now.table_id table.now.key }
    requires idle { IsIdle pass.old.me }
    ensures table { pass.new.table_id ≡ pass.old.table_id }
    ensures told { Saw table.now.table_id.slots pass.old.me.0.token result pass.new.me }
{
    table.load::<Sees>(pass, STAMP)
}

// Makes the mark that keeps what the seat saw.
fn mark_off<P>(table: &RowShared<P>, pass: &mut RowPass<P>) -> RowPass<P>
    requires table { IsOfTable pass.old.table_id table.now.table_id table.now.key }
    requires live { pass.old.me.0.token.live ≡ true }
    requires saw { (x : Sight) × IsMarked pass.old.me.0.token x pass.old.me }
    ensures table { (pass.new.table_id ≡ pass.old.table_id) × (result.table_id ≡ pass.old.table_id) }
    ensures seat { pass.new.me ≡ idle pass.old.me.0.token }
    ensures mark { (x : Sight) → IsMarked pass.old.me.0.token x pass.old.me → result.me ≡ marking x }
{
    table.split_seat::<Marks>(pass)
}

/// Sees how many events the ledger has, and makes a mark that keeps that.
pub fn mark<P>(table: &RowShared<P>, pass: &mut RowPass<P>) -> (u64, RowPass<P>)
    requires table { IsOfTable pass.old.table_id table.now.table_id table.now.key }
    requires idle { IsIdle pass.old.me }
    ensures table { (pass.new.table_id ≡ pass.old.table_id) × (result.1.table_id ≡ pass.old.table_id) }
    ensures seat { pass.new.me ≡ idle pass.old.me.0.token }
    ensures front { IsFreshStamp (view_of pass.old.me.0.token []) result.0 }
    ensures small { result.0 < 2 ^ 40 }
    ensures mark { result.1.me ≡ marking (sight_of (view_of pass.old.me.0.token []) result.0) }
{
    let front = see(table, pass);
    let mark = mark_off(table, pass);
    (front, mark)
}

// Takes a mark in.
fn take_in<P>(table: &RowShared<P>, pass: &mut RowPass<P>, mark: RowPass<P>)
    requires table { IsOfTable pass.old.table_id table.now.table_id table.now.key × (mark.table_id ≡ table.now.table_id) }
    requires idle { IsIdle pass.old.me }
    requires mark { (x : Sight) × (mark.me ≡ marking x) }
    ensures table { pass.new.table_id ≡ pass.old.table_id }
    ensures marked { (x : Sight) → mark.me ≡ marking x → IsMarked pass.old.me.0.token x pass.new.me }
{
    table.join_seat::<Unmarks>(pass, mark)
}

// Looks at the table after a mark was taken in.
fn look_back<P>(table: &RowShared<P>, pass: &mut RowPass<P>)
    requires table { IsOfTable pass.old.table_id table.now.table_id table.now.key }
    requires live { pass.old.me.0.token.live ≡ true }
    requires marked { (x : Sight) × IsMarked pass.old.me.0.token x pass.old.me }
    ensures table { pass.new.table_id ≡ pass.old.table_id }
    ensures told { Recalled pass.old.me.0.token pass.old.me.0.sights pass.new.me }
{
    table.load::<Recalls>(pass, STAMP);
}

/// Takes a mark in. What the stream has noted since stands behind the front that was seen then.
pub fn recall<P>(table: &RowShared<P>, pass: &mut RowPass<P>, mark: RowPass<P>)
    requires table { IsOfTable pass.old.table_id table.now.table_id table.now.key × (mark.table_id ≡ table.now.table_id) }
    requires idle { IsIdle pass.old.me }
    requires mark { (x : Sight) × (mark.me ≡ marking x) }
    ensures table { pass.new.table_id ≡ pass.old.table_id }
    ensures seat { pass.new.me ≡ idle pass.old.me.0.token }
    ensures behind { (x : Sight) → mark.me ≡ marking x → x.by ≡ pass.old.me.0.token.by → StandsBehind x pass.old.me.0.token.events }
{
    take_in(table, pass, mark);
    look_back(table, pass)
}
