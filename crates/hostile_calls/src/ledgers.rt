//! Ledgers at random, and their text.
use printed_parts::{EXITS, Event, What, Who, put_event};
use random_files::Dice;
use slow_ledger::{due_of, is_lawful, keeps_order};
use std::alloc::{AllocError, Global};

fn who_of(dice: &mut Dice) -> Who {
    match dice.below(4) {
        0 => None,
        by => Some(by.saturating_sub(1)),
    }
}

/// An event that begins something, or once in so many times one that ends something.
fn event_of(dice: &mut Dice, ends_in: usize) -> Event {
    let by = who_of(dice);
    let (number, scope, exit) = (dice.below(8), dice.below(4), dice.pick(&EXITS));
    let what = match (dice.chance(ends_in), dice.below(4)) {
        (true, 0 | 1) => What::Close(scope, exit),
        (true, _) => What::Cancel(scope, exit),
        (false, 0) => What::OpenScope(dice.between(1, 3), scope),
        (false, 1) => What::Acquire(number, scope),
        (false, 2) => What::Acquire(number, 0),
        (false, _) => What::Lease(dice.below(4), scope),
    };
    Event { by, what }
}

/// Appends the event where it breaks no rule.
fn add_lawful(alloc: Global, events: &mut Vec<Event>, event: Event) -> Result<(), AllocError> {
    if is_lawful(events, &event) && keeps_order(alloc, events, &event)? {
        events.push(event)?;
    }
    Ok(())
}

/// Appends so many random events, each with the Finals that are to follow it, as far as they break no rule.
fn add_events(
    dice: &mut Dice,
    events: &mut Vec<Event>,
    count: usize,
    ends_in: usize,
) -> Result<(), AllocError> {
    for _ in 0..count {
        let event = event_of(dice, ends_in);
        add_lawful(dice.alloc, events, event)?;
        add_finals(dice, events, event.by)?;
    }
    Ok(())
}

/// Appends the Finals that are to follow.
fn add_finals(dice: &mut Dice, events: &mut Vec<Event>, by: Who) -> Result<(), AllocError> {
    let due = due_of(dice.alloc, events, by)?;
    for (row, _) in &due.rows {
        let what = What::Final(*row, due.exit, !dice.chance(4));
        add_lawful(dice.alloc, events, Event { by, what })?;
    }
    Ok(())
}

/// The events with one of them left out, put in at another place too, moved, or noted by another.
fn spoiled(dice: &mut Dice, events: &[Event]) -> Result<Vec<Event>, AllocError> {
    let (at, to) = (dice.below(events.len()), dice.below(events.len()));
    let (sort, by) = (dice.below(4), who_of(dice));
    let moved = events.get(at).copied();
    let mut list = Vec::new(dice.alloc);
    for (place, event) in events.iter().enumerate() {
        if let (true, 1 | 2, Some(moved)) = (place == to, sort, moved) {
            list.push(moved)?;
        }
        match (place == at, sort) {
            (true, 0 | 1) => {}
            (true, 3) => list.push(Event { by, ..*event })?,
            _ => list.push(*event)?,
        }
    }
    Ok(list)
}

/// The text of a ledger that says that it has so many events.
pub(crate) fn ledger_text(
    alloc: Global,
    said: usize,
    events: &[Event],
) -> Result<String, AllocError> {
    let mut text = format!(in alloc; "ledger {said}\n")?;
    for event in events {
        put_event(&mut text, event)?;
    }
    Ok(text)
}

/// The text with something put in at one place, mostly for a byte.
fn misspelled(dice: &mut Dice, text: &[u8]) -> Result<Vec<u8>, AllocError> {
    let at = dice.below(text.len().saturating_add(1));
    let put: &[u8] = dice.pick(&[b" ".as_slice(), b"\n", b"0", b"x", b"", b"99999999999"]);
    let behind = at.saturating_add(dice.below(2));
    let mut bytes = Vec::from_slice(dice.alloc, text.get(..at).unwrap_or(text))?;
    bytes.extend_from_slice(put)?;
    bytes.extend_from_slice(text.get(behind..).unwrap_or(b""))?;
    Ok(bytes)
}

/// A random text, mostly of a ledger.
pub(crate) fn ledger_source(dice: &mut Dice) -> Result<Vec<u8>, AllocError> {
    let mut events = Vec::new(dice.alloc);
    let count = dice.few(90);
    add_events(dice, &mut events, count, 12)?;
    add_events(dice, &mut events, 50, 1)?;
    for _ in 0..dice.below(3) {
        events = spoiled(dice, &events)?;
    }
    let more = usize::from(dice.chance(20));
    let said = events.len().saturating_add(more);
    let text = ledger_text(dice.alloc, said, &events)?.into_bytes();
    if dice.chance(6) {
        misspelled(dice, &text)
    } else {
        Ok(text)
    }
}
