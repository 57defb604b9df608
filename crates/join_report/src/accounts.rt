//! How each stream is reported, and of which a load was left unwritten.
ghost use Rattle.std.specs.Prelude.{◌≡◌, ◌<◌, ◌≤◌, ◌∷◌, true, false, map, length, replicate, slice_index_or, slice_set, take, IfOk};
ghost use Rattle.join_report.specs.Accounts.{names_below};

use chunk_core::{How, List};
use res_ledger::StreamNo;
use run_rules::EndOf;
use std::alloc::{AllocError, Global};
use std::marker::Model;

/// For each stream by its number, how it is reported and whether a load of it was left unwritten. It
/// keeps room for the outer stream's end too.
#[derive(Drop)]
pub struct Accounts {
    ends: Vec<EndOf>,
    unwritten: Vec<bool>,
}

impl Model for Accounts {
    ghost use Rattle.join_report.specs.Accounts.{AccountsSeen, IsListed, seen_accounts};

    ghost Value = { AccountsSeen };

    ghost view = { λ a. seen_accounts a.ends.items a.unwritten.items };

    ghost invariant = { λ a. IsListed a.ends.items a.unwritten.items };
}

impl Accounts {
    /// Of so many streams: each is halted until something else is known, and nothing was left
    /// unwritten.
    pub(crate) fn new(alloc: Global, streams: u32) -> Result<Accounts, AllocError>
        ensures hows { IfOk result (λ a. a.hows ≡ replicate streams How.Halted) }
        ensures unwritten { IfOk result (λ a. a.unwritten ≡ replicate streams false) }
    {
        let unwritten = Vec::from_elem(alloc, false, streams as usize)?;
        let mut ends = Vec::with_capacity(alloc, streams as usize + 1)?;
        ends.push(halted(StreamNo::Outer))?;
        for k in 0..streams {
            ends.push(halted(StreamNo::Inner(k)))?;
        }
        Ok(Accounts { ends, unwritten })
    }

    /// A load of the stream was left unwritten.
    pub(crate) fn lose(&mut self, stream: u32)
        requires { stream < length self.old.unwritten }
        ensures { self.new ≡ record self.old { unwritten = slice_set self.old.unwritten stream true } }
    {
        self.unwritten[stream as usize] = true;
    }

    /// The stream is reported so.
    pub(crate) fn tell(&mut self, stream: u32, how: How)
        requires { stream < length self.old.unwritten }
        ensures { self.new ≡ record self.old { hows = slice_set self.old.hows stream how } }
    {
        let end = &mut self.ends[stream as usize + 1];
        end.how = how;
    }

    /// Whether a load of the stream was left unwritten.
    pub(crate) fn is_unwritten(&self, stream: u32) -> bool
        requires { stream < length self.now.unwritten }
        ensures { result ≡ slice_index_or self.now.unwritten stream false }
    {
        self.unwritten[stream as usize]
    }

    /// The outer stream's end, and those of so many streams in order.
    pub(crate) fn into_ends(self, outer: How, streams: u32) -> List<EndOf>
        requires { streams ≤ length self.unwritten }
        ensures names { map (λ e. e.who) result ≡ StreamNo.Outer ∷ names_below streams }
        ensures hows { map (λ e. e.how) result ≡ outer ∷ take streams self.hows }
    {
        let Accounts { mut ends, .. } = self;
        ends.truncate(streams as usize + 1);
        let end = &mut ends[0];
        end.how = outer;
        List::of_vec(ends)
    }
}

/// The end of a stream of which nothing else is known.
fn halted(who: StreamNo) -> EndOf
    ensures { result ≡ record { who = who; how = How.Halted } }
{
    EndOf {
        who,
        how: How::Halted,
    }
}
