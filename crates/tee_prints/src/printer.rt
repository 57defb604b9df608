//! The end of the channel of a tee, and what is printed of it.
ghost use Rattle.std.specs.Prelude.{◌≡◌, ◌-◌, ◌^◌, ◌<◌, ◌++◌, ◌∷◌, [], ℕ, false, true, length, IfOk, List, None, Some, slice_set};
ghost use Rattle.std.specs.Bool.{OnFalse, OnTrue};
ghost use Rattle.channel_bounded.specs.Ends.{ReceiverSees};
ghost use Rattle.channel_bounded.specs.declared.message.Msg.{Msg as AMsg};
ghost use Rattle.chunk_core.specs.Totals.{IsAt};
ghost use Rattle.chunk_core.specs.declared.code.How.{How as AHow};
ghost use Rattle.device_port.specs.Sink.{SinkTold};
ghost use Rattle.tee_prints.specs.Printed.{AreAllTold, AreBelow, IsStop, MustStop, Prints, hidden as hidden_end, told_end};
ghost use Rattle.tee_texts.specs.Texts.{AreTexts, IsText};

use channel_bounded::{Body, Hub, Msg, Receiver};
use chunk_core::{How, Load};
use device_port::Sink;
use frames::put_frame;
use std::alloc::{AllocError, Global};
use std::sync::Wait;
use tee_texts::Texts;

/// The end that is told of a branch whose frames weren't printed any more: it is halted, unless it found
/// no memory.
fn hidden(how: How) -> How
    ensures { result ≡ hidden_end how }
{
    match how {
        How::Done | How::Fault(_) | How::Halted => How::Halted,
        How::Memory => How::Memory,
    }
}

/// The end of the channel, the end that is told of each branch whose end came, and whether a write failed.
#[derive(Drop)]
pub struct Printer {
    pub(crate) receiver: Receiver,
    pub(crate) ends: Vec<Option<How>>,
    pub(crate) broken: bool,
}

/// What is left of a printer: the end of the channel, the ends that are told, and whether a write failed.
#[derive(Drop)]
pub struct PrinterEnd {
    pub receiver: Receiver,
    pub ends: Vec<Option<How>>,
    pub broken: bool,
}

impl Printer {
    /// Of nothing anything was printed yet. It makes the room for the ends of `branches` branches.
    pub fn new(alloc: Global, receiver: Receiver, branches: u32) -> Result<Printer, AllocError>
        requires receiver { receiver.got ≡ [] }
        ensures parts { IfOk result (λ p. (p.receiver ≡ receiver) × (p.broken ≡ false)) }
        ensures prints { IfOk result (λ p. (sink : SinkTold) → Prints branches sink sink [] p.ends.items false) }
    {
        let mut ends = Vec::with_capacity(alloc, branches as usize)?;
        for i in 0..branches {
            ends.push(None)?;
        }
        Ok(Printer {
            receiver,
            ends,
            broken: false,
        })
    }

    /// Whether a write failed.
    pub fn is_broken(&self) -> bool
        ensures { result ≡ self.now.broken }
    {
        self.broken
    }

    /// Whether the branches are to stop: a write failed, or a fault or want of memory is told of one.
    pub fn must_stop(&self) -> bool
        ensures stop { OnTrue result (MustStop self.now.ends.items self.now.broken) }
        ensures go { OnFalse result (¬ (MustStop self.now.ends.items self.now.broken)) }
    {
        if self.broken {
            return true;
        }
        for i in 0..self.ends.len() {
            if is_stop(&self.ends[i]) {
                return true;
            }
        }
        false
    }

    /// Whether the end of each branch came.
    pub fn is_over(&self) -> bool
        ensures over { OnTrue result (AreAllTold self.now.ends.items) }
        ensures open { OnFalse result ((i : ℕ) × IsAt self.now.ends.items i None) }
    {
        for i in 0..self.ends.len() {
            if self.ends[i].is_none() {
                return false;
            }
        }
        true
    }

    /// Receives the next message and prints its frame, or keeps the end that it tells. The answer says whether a
    /// message came; none comes only where the queue was empty at one moment of the call.
    pub fn take<R: Wait, K: Sink>(&mut self, rt: &R, hub: &Hub<Texts>, out: &mut K) -> bool
        requires hub { self.old.receiver.hub ≡ hub.now.id }
        requires branches { AreBelow (length self.old.ends.items) self.old.receiver.made }
        requires sink { self.old.broken ≡ false → (K.told out.old).faults < 2 ^ 64 - 1 }
        ensures prints { (n : ℕ) (start : SinkTold) → Prints n start (K.told out.old) self.old.receiver.got self.old.ends.items self.old.broken → Prints n start (K.told out.new) self.new.receiver.got self.new.ends.items self.new.broken }
        ensures same { (self.new.receiver.hub ≡ self.old.receiver.hub) × (self.new.receiver.made ≡ self.old.receiver.made) × (self.new.receiver.closed ≡ self.old.receiver.closed) }
        ensures branches { length self.new.ends.items ≡ length self.old.ends.items }
        ensures grows { OnTrue result ((m : AMsg) × (self.new.receiver.got ≡ self.old.receiver.got ++ m ∷ [])) }
        ensures stays { self.old.broken ≡ true → self.new.broken ≡ true }
        ensures empty { OnFalse result ((self.new.receiver ≡ self.old.receiver) × ReceiverSees AreTexts self.old.receiver []) }
    {
        match self.receiver.try_recv(rt, hub) {
            None => false,
            Some(message) => {
                print(&mut self.ends, &mut self.broken, message, out);
                true
            }
        }
    }

    /// Takes it apart.
    pub fn end(self) -> PrinterEnd
        ensures { result ≡ record { receiver = self.receiver; ends = self.ends; broken = self.broken } }
    {
        let Printer {
            receiver,
            ends,
            broken,
        } = self;
        PrinterEnd {
            receiver,
            ends,
            broken,
        }
    }
}

/// Whether this is an end by which the branches are to stop.
fn is_stop(end: &Option<How>) -> bool
    ensures stop { OnTrue result ((h : AHow) × (end.now ≡ Some h) × IsStop h) }
    ensures go { OnFalse result ((h : AHow) → end.now ≡ Some h → ¬ (IsStop h)) }
{
    match end {
        Some(How::Fault(_) | How::Memory) => true,
        Some(How::Done | How::Halted) | None => false,
    }
}

/// Prints the frame of a message, unless a write failed, or keeps the end that it tells.
fn print<K: Sink>(ends: &mut Vec<Option<How>>, broken: &mut bool, message: Msg, out: &mut K)
    requires text { IsText message.body }
    requires branch { message.stream < length ends.old.items }
    requires sink { broken.old ≡ false → (K.told out.old).faults < 2 ^ 64 - 1 }
    ensures prints { (n : ℕ) (start : SinkTold) (got : List AMsg) → Prints n start (K.told out.old) got ends.old.items broken.old → Prints n start (K.told out.new) (got ++ message ∷ []) ends.new.items broken.new }
    ensures branches { length ends.new.items ≡ length ends.old.items }
    ensures stays { broken.old ≡ true → broken.new ≡ true }
{
    let Msg { stream, body } = message;
    match body {
        Body::End(how) => keep(ends, *broken, stream, how),
        Body::Load(Load::Bytes(bytes)) => {
            if !*broken {
                *broken = put_frame(out, stream, bytes.as_slice()).is_err();
            }
        }
        Body::Load(_) => unreachable!(),
    }
}

/// Keeps the end that is told of a branch.
fn keep(ends: &mut Vec<Option<How>>, broken: bool, stream: u32, how: How)
    requires branch { stream < length ends.old.items }
    ensures { ends.new.items ≡ slice_set ends.old.items stream (Some (told_end broken how)) }
{
    ends[stream as usize] = Some(match broken {
        true => hidden(how),
        false => how,
    });
}
