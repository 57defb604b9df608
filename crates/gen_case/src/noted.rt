//! How often each sort of event was noted.
ghost use Rattle.std.specs.Prelude.{◌≡◌, count_by};
ghost use Rattle.gen_case.specs.Noted.{noted_in, notes_acquire, notes_cancel, notes_close, notes_final, notes_lease};

use res_ledger::{Event, What};
use std::fmt;

/// The numbers of events of a ledger.
#[derive(Clone, Copy, Debug, PartialEq, Eq)]
pub struct Noted {
    pub acquire: u64,
    pub lease: u64,
    pub cancel: u64,
    pub close: u64,
    pub finals: u64,
}

impl fmt::Display for Noted {
    ghost use Rattle.std.specs.Prelude.{Some};
    ghost use Rattle.gen_case.specs.Summary.{noted_text};

    ghost output = { λ noted. Some (noted_text noted) };

    fn fmt<W: fmt::Write>(&self, f: &mut fmt::Formatter<W>) -> fmt::Result {
        let Noted {
            acquire,
            lease,
            cancel,
            close,
            finals,
        } = *self;
        writeln!(
            f,
            "acquire {acquire}\nlease {lease}\ncancel {cancel}\nclose {close}\nfinal {finals}"
        )
    }
}

fn notes_acquire(event: &Event) -> bool
    ensures { result ≡ notes_acquire event.now }
{
    matches!(event.what, What::Acquire { .. })
}

fn acquires(events: &[Event]) -> u64
    ensures { result ≡ count_by notes_acquire events.now }
{
    events.iter().filter(|event| notes_acquire(event)).count() as u64
}

fn notes_lease(event: &Event) -> bool
    ensures { result ≡ notes_lease event.now }
{
    matches!(event.what, What::Lease { .. })
}

fn leases(events: &[Event]) -> u64
    ensures { result ≡ count_by notes_lease events.now }
{
    events.iter().filter(|event| notes_lease(event)).count() as u64
}

fn notes_cancel(event: &Event) -> bool
    ensures { result ≡ notes_cancel event.now }
{
    matches!(event.what, What::Cancel { .. })
}

fn cancels(events: &[Event]) -> u64
    ensures { result ≡ count_by notes_cancel events.now }
{
    events.iter().filter(|event| notes_cancel(event)).count() as u64
}

fn notes_close(event: &Event) -> bool
    ensures { result ≡ notes_close event.now }
{
    matches!(event.what, What::Close { .. })
}

fn closes(events: &[Event]) -> u64
    ensures { result ≡ count_by notes_close events.now }
{
    events.iter().filter(|event| notes_close(event)).count() as u64
}

fn notes_final(event: &Event) -> bool
    ensures { result ≡ notes_final event.now }
{
    matches!(event.what, What::Final { .. })
}

fn finals(events: &[Event]) -> u64
    ensures { result ≡ count_by notes_final events.now }
{
    events.iter().filter(|event| notes_final(event)).count() as u64
}

/// The numbers of these events.
pub fn noted_in(events: &[Event]) -> Noted
    ensures { result ≡ noted_in events.now }
{
    Noted {
        acquire: acquires(events),
        lease: leases(events),
        cancel: cancels(events),
        close: closes(events),
        finals: finals(events),
    }
}
