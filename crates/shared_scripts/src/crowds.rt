//! Eight streams in threads of their own at one table, and the main seat in a ninth.
ghost use Rattle.std.specs.Prelude.{◌≡◌, ℕ, List, ◌+◌, ◌≤◌, ◌++◌, [], ◌∷◌, IfOk, vec_len};
ghost use Rattle.std.specs.Thread.{IsSync};
ghost use Rattle.chunk_core.specs.Lists.{IsAmong};
ghost use Rattle.row_shared.specs.Seats.{SharedFits, shown};
ghost use Rattle.shared_scripts.specs.Crowds.{IsGathered, IsRested};
ghost use Rattle.shared_scripts.specs.Guests.{ComesHome, EarlierFit, IsHosting, IsReady, IsEndedLedger};

use crate::hosting::{COMMON, ROWS, STREAMS, lend, open_common, shut_common};
use crate::races::Bell;
use crate::staying::stay;
use res_ledger::{Ledger, StreamNo};
use row_seat::RowSeat;
use row_shared::{SharedSeat, TableRef};
use std::alloc::{AllocError, Global};
use std::sync::Arc;
use std::sync::atomic::AtomicU64;
use std::thread::{Threads, join};

/// How often each payload was finalized.
pub type Counts = Vec<Arc<AtomicU64>>;

/// The main seat, with its handle.
#[derive(Drop)]
pub struct Host {
    pub seat: SharedSeat<Bell>,
    pub desk: TableRef<Bell>,
}

/// The seat of a stream, with a handle of its own and a payload for each of its rows.
#[derive(Drop)]
pub struct Guest {
    pub seat: SharedSeat<Bell>,
    pub desk: TableRef<Bell>,
    pub stream: u32,
    pub pays: Vec<Bell>,
}

impl Guest {
    fn stay(self) -> SharedSeat<Bell>
        requires ready { IsReady self }
        ensures rested { IsRested (shown result) self.stream }
        ensures home { ComesHome self.seat result }
    {
        let Guest {
            mut seat,
            mut desk,
            stream,
            pays,
        } = self;
        stay(&mut seat, &mut desk, stream, pays);
        seat
    }
}

// So many payloads, each with a count of its own.
fn bells(alloc: Global, number: u32, counts: &mut Counts) -> Result<Vec<Bell>, AllocError>
    ensures { IfOk result (λ v. vec_len v ≡ number) }
{
    let mut pays = Vec::with_capacity(alloc, number as usize)?;
    while pays.len() < number as usize {
        let rings = Arc::new(alloc, AtomicU64::new(0))?;
        counts.push(Arc::try_clone(&rings)?)?;
        pays.push(Bell { rings })?;
    }
    Ok(pays)
}

// Splits the seat of a stream off, for a thread.
fn hire(
    alloc: Global,
    host: Host,
    stream: u32,
    counts: &mut Counts,
) -> Result<(Host, Guest), AllocError>
    requires hosting { IsHosting host stream }
    requires more { stream ≤ 8 }
    ensures hosting { IfOk result (λ t. IsHosting t.0 (stream + 1)) }
    ensures ready { IfOk result (λ t. IsReady t.1 × (t.1.stream ≡ stream)) }
    ensures out { IfOk result (λ t. (shown t.0.seat).out ≡ (shown host.seat).out ++ stream ∷ []) }
    ensures home { IfOk result (λ t. SharedFits t.1.seat t.0.desk) }
    ensures earlier { IfOk result (λ t. EarlierFit stream host.desk t.0.desk) }
{
    let Host { mut seat, mut desk } = host;
    let pays = bells(alloc, ROWS, counts)?;
    let own = lend(alloc, &mut seat, &mut desk, stream)?;
    let guest = Guest {
        seat: own,
        desk: desk.share()?,
        stream,
        pays,
    };
    Ok((Host { seat, desk }, guest))
}

// Takes the seat of a stream in.
fn gather(host: Host, stream: u32, own: SharedSeat<Bell>) -> Host
    requires fits { SharedFits host.seat host.desk × SharedFits own host.desk }
    requires own { IsRested (shown own) stream }
    requires host { (out : List ℕ) × IsGathered (shown host.seat) (out ++ stream ∷ []) × ¬ (IsAmong stream out) }
    ensures host { (out : List ℕ) → IsGathered (shown host.seat) (out ++ stream ∷ []) → ¬ (IsAmong stream out) → IsGathered (shown result.seat) out }
    ensures fits { SharedFits result.seat result.desk }
    ensures earlier { EarlierFit stream host.desk result.desk }
{
    let Host { mut seat, mut desk } = host;
    seat.join(&mut desk, own);
    Host { seat, desk }
}

// The streams from this one on, each in a thread of its own; behind the last of them the main seat
// closes its rows.
fn crew<R: Threads + Sync>(
    rt: &R,
    alloc: Global,
    host: Host,
    stream: u32,
    mut counts: Counts,
) -> Result<(Host, Counts), AllocError>
    requires hosting { IsHosting host stream }
    ensures gathered { IfOk result (λ t. IsGathered (shown t.0.seat) (shown host.seat).out) }
    ensures fits { IfOk result (λ t. SharedFits t.0.seat t.0.desk) }
    ensures earlier { IfOk result (λ t. EarlierFit stream host.desk t.0.desk) }
{
    if stream > STREAMS {
        let Host { mut seat, mut desk } = host;
        shut_common(&mut seat, &mut desk);
        return Ok((Host { seat, desk }, counts));
    }
    let (host, guest) = hire(alloc, host, stream, &mut counts)?;
    let (own, rest) = join(
        rt,
        || -> SharedSeat<Bell>
            requires ready { IsReady guest }
            ensures rested { IsRested (shown result) guest.stream }
            ensures home { ComesHome guest.seat result }
        { guest.stay() },
        || -> Result<(Host, Counts), AllocError>
            requires sync { IsSync R.row }
            requires hosting { IsHosting host (stream + 1) }
            ensures gathered { IfOk result (λ t. IsGathered (shown t.0.seat) (shown host.seat).out) }
            ensures fits { IfOk result (λ t. SharedFits t.0.seat t.0.desk) }
            ensures earlier { IfOk result (λ t. EarlierFit (stream + 1) host.desk t.0.desk) }
        { crew(rt, alloc, host, stream + 1, counts) },
    );
    let (host, counts) = rest?;
    Ok((gather(host, stream, own), counts))
}

/// Eight threads live through 64 rows each and let go of eight rows that all of them leased, while
/// these are closed: the ledger, and how often each payload was finalized.
pub fn crowd<R: Threads + Sync>(rt: &R, alloc: Global) -> Result<(Ledger, Counts), AllocError>
    ensures { IfOk result (λ t. IsEndedLedger t.0) }
{
    let mut counts = Vec::new(alloc);
    let pays = bells(alloc, COMMON, &mut counts)?;
    let (mut seat, mut desk) = SharedSeat::new(alloc, StreamNo::Outer, 520, 9, 2160)?;
    open_common(&mut seat, &mut desk, pays);
    let (host, counts) = crew(rt, alloc, Host { seat, desk }, 1, counts)?;
    let Host { seat, mut desk } = host;
    Ok((seat.finish(&mut desk), counts))
}
