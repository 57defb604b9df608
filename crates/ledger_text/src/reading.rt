//! Reading a ledger from its text.
ghost use Rattle.std.specs.Prelude.{◌≡◌, ◌<◌, ◌^◌, IfErr, IfOk};
ghost use Rattle.res_ledger.specs.Texts.{event_line, ledger_text};
ghost use Rattle.res_ledger.specs.Limits.{IsLedger, IsSmallEvent};
ghost use Rattle.ledger_text.specs.Reading.{IsReadInFront, IsRefusal, head_line};

use crate::spelling::{event, number, split_once};
use res_ledger::{Event, Ledger};
use std::alloc::Global;

/// Why a text was refused.
#[derive(Clone, Copy, Debug, PartialEq, Eq)]
pub enum LedgerRefused {
    /// There was no memory for the events.
    Memory,
    /// The place of the first line that isn't spelled as a ledger's, from the head, which is
    /// line 0.
    BadLine(u64),
    /// How many events the head says, and how many there are.
    BadCount(u64, u64),
}

/// The number of events that the head says, and the text behind the head.
fn head(text: &[u8]) -> Option<(u64, &[u8])>
    ensures { IsReadInFront (λ n. n < 2 ^ 64) head_line text.now result }
{
    let (line, rest) = split_once(text, b'\n')?;
    let digits = line.strip_prefix(b"ledger ")?;
    Some((number(digits)?, rest))
}

/// The event of the first line, and the text behind that line.
fn next_event(stamp: u64, text: &[u8]) -> Option<(Event, &[u8])>
    ensures { IsReadInFront (λ e. IsSmallEvent e × (e.stamp ≡ stamp)) event_line text.now result }
{
    let (line, rest) = split_once(text, b'\n')?;
    Some((event(stamp, line)?, rest))
}

/// The ledger whose text the bytes are. A text is refused at its first line that isn't well
/// spelled; only where each line is, its number of events is looked at.
pub fn read(alloc: Global, bytes: &[u8]) -> Result<Ledger, LedgerRefused>
    ensures ok { IfOk result (λ ledger. IsLedger ledger × (ledger_text ledger ≡ bytes.now)) }
    ensures err { IfErr result (IsRefusal bytes.now) }
{
    let Some((said, mut rest)) = head(bytes) else {
        return Err(LedgerRefused::BadLine(0));
    };
    let mut events = Vec::new(alloc);
    while !rest.is_empty() {
        let stamp = events.len() as u64;
        let Some((event, after)) = next_event(stamp, rest) else {
            return Err(LedgerRefused::BadLine(stamp + 1));
        };
        if events.push(event).is_err() {
            return Err(LedgerRefused::Memory);
        }
        rest = after;
    }
    let found = events.len() as u64;
    if said != found {
        return Err(LedgerRefused::BadCount(said, found));
    }
    Ok(Ledger::of_events(events))
}
