//! Shared seats that threads step with at one table: two that note, one that closes a row while another
//! lets go of its last lease, and eight with rows of their own while a ninth closes those they share.
use crate::asserts::{holds, same};
use res_ledger::{Event, Ledger, StreamNo, What};
use shared_scripts::apart::both_note_apart;
use shared_scripts::crowds::{Counts, crowd};
use shared_scripts::hosting::COMMON;
use shared_scripts::notes::both_note;
use shared_scripts::races::race;
use std::alloc::{AllocError, Global};
use std::process::Abort;
use std::sync::atomic::Ordering::SeqCst;
use std::test::Fail;
use std::thread::Threads;

/// Fails the test unless each event has its place for its stamp.
fn are_stamped(rt: &impl Abort, events: &[Event]) {
    for (i, event) in events.iter().enumerate() {
        same(rt, event.stamp, i as u64);
    }
}

/// How many events of the ledger are of this stream.
fn events_of(ledger: &Ledger, stream: u32) -> usize {
    let by = StreamNo::Inner(stream);
    ledger
        .as_slice()
        .iter()
        .filter(|event| event.by == by)
        .count()
}

#[test]
fn two_threads_note_a_thousand_scopes_each(rt: HostRuntime) -> Result<(), Fail> {
    let ledger = both_note(&rt, rt.alloc(), 1000)?;
    same(&rt, ledger.len(), 2000);
    are_stamped(&rt, ledger.as_slice());
    same(&rt, events_of(&ledger, 1), 1000);
    same(&rt, events_of(&ledger, 2), 1000);
    Ok(())
}

#[test]
fn two_seats_note_at_handles_of_their_own(rt: HostRuntime) -> Result<(), Fail> {
    let ledger = both_note_apart(rt.alloc(), 100)?;
    same(&rt, ledger.len(), 200);
    are_stamped(&rt, ledger.as_slice());
    same(&rt, events_of(&ledger, 1), 100);
    same(&rt, events_of(&ledger, 2), 100);
    Ok(())
}

/// How many events of the ledger are the Final of this row.
fn finals_of(ledger: &Ledger, wanted: u32) -> usize {
    ledger
        .as_slice()
        .iter()
        .filter(|event| matches!(event.what, What::Final { row, .. } if row == wanted))
        .count()
}

/// Fails the test unless one of the two threads finalizes a fresh row.
fn one_finalizes<R: Abort + Threads + Sync>(
    rt: &R,
    alloc: Global,
    lessee_first: bool,
) -> Result<(), AllocError> {
    let (ledger, rings) = race(rt, alloc, lessee_first)?;
    same(rt, rings, 1);
    same(rt, finals_of(&ledger, 0), 1);
    Ok(())
}

#[test]
fn one_of_closer_and_leaver_finalizes(rt: HostRuntime) -> Result<(), Fail> {
    for turn in 0..1000 {
        one_finalizes(&rt, rt.alloc(), turn % 2 == 0)?;
    }
    Ok(())
}

/// Where the last lease was cancelled.
fn last_cancel(ledger: &Ledger) -> Option<u64> {
    ledger
        .as_slice()
        .iter()
        .filter(|event| matches!(event.what, What::Cancel { .. }))
        .map(|event| event.stamp)
        .max()
}

/// Where the first of the leased rows ended.
fn first_common_final(ledger: &Ledger) -> Option<u64> {
    ledger
        .as_slice()
        .iter()
        .filter(|event| matches!(event.what, What::Final { row, .. } if row < COMMON))
        .map(|event| event.stamp)
        .min()
}

/// Fails the test unless each payload was finalized once.
fn are_finalized(rt: &impl Abort, counts: &Counts) {
    same(rt, counts.len(), 520);
    holds(rt, counts.iter().all(|rings| rings.load(SeqCst) == 1));
}

/// Fails the test unless each row has one Final.
fn rows_end(rt: &impl Abort, ledger: &Ledger) {
    same(rt, ledger.len(), 2096);
    for row in 0..520 {
        same(rt, (row, finals_of(ledger, row)), (row, 1));
    }
}

/// Fails the test unless the leased rows ended after the last lease was cancelled.
fn leased_rows_end_last(rt: &impl Abort, ledger: &Ledger) {
    let cancel = last_cancel(ledger).expect(rt, "no lease was cancelled");
    let end = first_common_final(ledger).expect(rt, "no leased row ended");
    holds(rt, cancel < end);
}

fn crowd_ends<R: Abort + Threads + Sync>(rt: &R, alloc: Global) -> Result<(), AllocError> {
    let (ledger, counts) = crowd(rt, alloc)?;
    are_finalized(rt, &counts);
    rows_end(rt, &ledger);
    leased_rows_end_last(rt, &ledger);
    Ok(())
}

#[test]
fn eight_threads_end_their_rows_and_those_they_share(rt: HostRuntime) -> Result<(), Fail> {
    for _ in 0..200 {
        crowd_ends(&rt, rt.alloc())?;
    }
    Ok(())
}
