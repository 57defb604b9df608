//! The branches of a tee, to which loads are given.
ghost use Rattle.std.specs.Prelude.{◌≡◌, ◌<◌, ◌≤◌, ◌-◌, ◌^◌, ◌++◌, ℕ, List, [], false, length, vec_capacity, OnErr, OnOk};
ghost use Rattle.std.specs.Bool.{OnFalse, OnTrue};
ghost use Rattle.chunk_core.specs.Elements.{Bytes, Element, elements, kind_of};
ghost use Rattle.chunk_core.specs.Feed.{Meaning};
ghost use Rattle.chunk_core.specs.declared.code.How.{How as AHow};
ghost use Rattle.channel_bounded.specs.Ends.{HubSeen};
ghost use Rattle.device_port.specs.Sink.{SinkTold};
ghost use Rattle.interrupt_ctx.specs.Ends.{BoardSeen};
ghost use Rattle.topic_hub.specs.Topics.{IsOf, KeepsTopic, NothingPending, due};
ghost use Rattle.tee_prints.specs.Printed.{AreAllTold, MustStop};
ghost use Rattle.tee_pump.specs.Branches.{SharedSeen};
ghost use Rattle.tee_pump.specs.Finished.{IsCause, IsFinished};
ghost use Rattle.tee_pump.specs.Making.{IsCrew};
ghost use Rattle.tee_pump.specs.Printing.{GoesOn};
ghost use Rattle.tee_pump.specs.Publishing.{ArePending, Closes};
ghost use Rattle.tee_pump.specs.Pumps.{IsPumping, IsServing};

use crate::crew::Crew;
use crate::ended::TeeEnd;
use crate::ending::tell_all;
use crate::pieces::Pieces;
use crate::serving::{begin_all, print_all, stop, stop_early, turn_all};
use crate::settling::settle_all;
use chunk_core::{Feed, How, Load};
use device_port::{Gate, Sink};
use interrupt_ctx::BoardSeat;
use std::alloc::AllocError;
use std::sync::Wait;
use std::thread::{Scope, Threads};
use stream_workers::Pause;
use tee_prints::{Printer, PrinterEnd};
use tee_texts::Texts;
use tee_workers::{Hired, Site};
use topic_hub::{OfferRefused, Publisher, Pushed};

/// The branches of a tee that have begun, and the ends that the caller keeps.
#[derive(Drop)]
pub struct Pump<F: Feed> {
    pub(crate) publisher: Publisher,
    pub(crate) printer: Printer,
    pub(crate) seat: BoardSeat,
    pub(crate) hired: Vec<Hired<F>>,
    pub(crate) ends: Vec<How>,
}

impl<F: Feed> Pump<F> {
    /// Begins a worker for each branch. Nothing was given yet.
    pub fn begin<'s, E, R: Wait + Sync + 's, G: Gate + Sync + 's>(
        scope: &Scope<'s, E>,
        site: &'s Site<'s, R, G, Pieces, Texts>,
        crew: Crew<F>,
    ) -> Pump<F>
    where
        F: Send + 's,
        requires crew { (ms : List Meaning) × IsCrew F.stands F.comes (record { topic = site.now.topic.now; hub = site.now.hub.now; board = site.now.board.now }) ms crew }
        ensures { (ms : List Meaning) (start : SinkTold) → start.faults < 2 ^ 64 - 1 → IsCrew F.stands F.comes (record { topic = site.now.topic.now; hub = site.now.hub.now; board = site.now.board.now }) ms crew → IsPumping F.stands F.comes (record { topic = site.now.topic.now; hub = site.now.hub.now; board = site.now.board.now }) ms start [] start result }
    {
        let Crew {
            publisher,
            printer,
            seat,
            branches,
            hired,
            ends,
        } = crew;
        let hired = begin_all(scope, site, branches, hired);
        Pump {
            publisher,
            printer,
            seat,
            hired,
            ends,
        }
    }

    /// Whether the run was interrupted, so that no more is to be given: a write failed, or a branch found a fault or no
    /// memory.
    pub fn is_stopped(&self) -> bool
        ensures stop { OnTrue result (MustStop self.now.printer.ends.items self.now.printer.broken) }
        ensures go { OnFalse result (¬ (MustStop self.now.printer.ends.items self.now.printer.broken)) }
    {
        self.printer.must_stop()
    }

    /// Prints what came, interrupts the run where it must stop, and gives the branches that are here their turns. The
    /// answer says whether anything came.
    fn serve<R: Wait, G: Gate, K: Sink>(
        &mut self,
        site: &Site<'_, R, G, Pieces, Texts>,
        out: &mut K,
    ) -> bool
        requires serving { (ms : List Meaning) × (reader : AHow) × (start : SinkTold) × IsServing F.stands F.comes (record { topic = site.now.topic.now; hub = site.now.hub.now; board = site.now.board.now }) ms reader start (K.told out.old) self.old }
        ensures serving { (ms : List Meaning) (reader : AHow) (start : SinkTold) → IsServing F.stands F.comes (record { topic = site.now.topic.now; hub = site.now.hub.now; board = site.now.board.now }) ms reader start (K.told out.old) self.old → IsServing F.stands F.comes (record { topic = site.now.topic.now; hub = site.now.hub.now; board = site.now.board.now }) ms reader start (K.told out.new) self.new }
        ensures goes_on { GoesOn self.old.printer self.new.printer }
        ensures same { self.new.publisher ≡ self.old.publisher }
    {
        let came = print_all(site, &mut self.printer, out);
        stop(site.board, &mut self.seat, &self.printer);
        turn_all(site, &mut self.hired);
        came
    }

    /// Prints what comes and sends what was published, until it is in the queue of each branch, or the run must stop: a
    /// branch that is over takes nothing from its queue any more.
    fn push_all<R: Wait, G: Gate, K: Sink>(
        &mut self,
        site: &Site<'_, R, G, Pieces, Texts>,
        out: &mut K,
    )
        requires serving { (ms : List Meaning) × (reader : AHow) × (start : SinkTold) × IsServing F.stands F.comes (record { topic = site.now.topic.now; hub = site.now.hub.now; board = site.now.board.now }) ms reader start (K.told out.old) self.old }
        requires topic { IsOf site.now.topic.now self.old.publisher }
        requires pending { ArePending self.old.publisher }
        ensures serving { (ms : List Meaning) (reader : AHow) (start : SinkTold) → IsServing F.stands F.comes (record { topic = site.now.topic.now; hub = site.now.hub.now; board = site.now.board.now }) ms reader start (K.told out.old) self.old → IsServing F.stands F.comes (record { topic = site.now.topic.now; hub = site.now.hub.now; board = site.now.board.now }) ms reader start (K.told out.new) self.new }
        ensures goes_on { GoesOn self.old.printer self.new.printer }
        ensures keeps { KeepsTopic self.old.publisher self.new.publisher }
        ensures due { (i : ℕ) → due self.new.publisher i ≡ due self.old.publisher i }
        ensures ended { self.new.publisher.ended ≡ self.old.publisher.ended }
        ensures pending { ArePending self.new.publisher }
        ensures none { ¬ (MustStop self.new.printer.ends.items self.new.printer.broken) → NothingPending self.new.publisher }
    {
        let mut pause = Pause::new();
        'tries: for _ in site.rt.forever() {
            let came = self.serve(site, out);
            match self.publisher.push(site.rt, site.topic) {
                Pushed::All => return,
                Pushed::Waiting(_) => {}
            }
            if self.printer.must_stop() {
                return;
            }
            match came {
                true => pause.reset(),
                false => pause.step(site.rt),
            }
        }
        unreachable!()
    }

    /// Gives one load of bytes to each branch, and prints what comes meanwhile. Where the run must stop the load is
    /// dropped, since no branch takes it any more. Where memory is wanting nothing was given.
    pub fn give<R: Wait, G: Gate, K: Sink>(
        &mut self,
        site: &Site<'_, R, G, Pieces, Texts>,
        load: &Load,
        out: &mut K,
    ) -> Result<(), AllocError>
        requires pumping { (ms : List Meaning) × (start : SinkTold) × (given : List Element) × IsPumping F.stands F.comes (record { topic = site.now.topic.now; hub = site.now.hub.now; board = site.now.board.now }) ms start given (K.told out.old) self.old }
        requires kind { kind_of load.now ≡ Bytes }
        ensures ok { OnOk result ((ms : List Meaning) (start : SinkTold) (given : List Element) → IsPumping F.stands F.comes (record { topic = site.now.topic.now; hub = site.now.hub.now; board = site.now.board.now }) ms start given (K.told out.old) self.old → IsPumping F.stands F.comes (record { topic = site.now.topic.now; hub = site.now.hub.now; board = site.now.board.now }) ms start (given ++ elements load.now) (K.told out.new) self.new) }
        ensures err { OnErr result ((ms : List Meaning) (start : SinkTold) (given : List Element) → IsPumping F.stands F.comes (record { topic = site.now.topic.now; hub = site.now.hub.now; board = site.now.board.now }) ms start given (K.told out.old) self.old → IsPumping F.stands F.comes (record { topic = site.now.topic.now; hub = site.now.hub.now; board = site.now.board.now }) ms start given (K.told out.new) self.new) }
    {
        if self.printer.must_stop() {
            return Ok(());
        }
        match self.publisher.offer(load) {
            Ok(()) => {}
            Err(OfferRefused::Memory) => return Err(AllocError),
            Err(OfferRefused::Closed) => unreachable!(),
        }
        self.push_all(site, out);
        Ok(())
    }

    /// Interrupts the run where the reader wasn't done, and publishes its end, unless the run must stop: then each branch is
    /// halted, and needs no end.
    fn close<R, G>(&mut self, site: &Site<'_, R, G, Pieces, Texts>, how: How)
        requires pumping { (ms : List Meaning) × (start : SinkTold) × (given : List Element) × (now : SinkTold) × IsPumping F.stands F.comes (record { topic = site.now.topic.now; hub = site.now.hub.now; board = site.now.board.now }) ms start given now self.old }
        ensures serving { (ms : List Meaning) (start : SinkTold) (given : List Element) (now : SinkTold) → IsPumping F.stands F.comes (record { topic = site.now.topic.now; hub = site.now.hub.now; board = site.now.board.now }) ms start given now self.old → IsServing F.stands F.comes (record { topic = site.now.topic.now; hub = site.now.hub.now; board = site.now.board.now }) ms how start now self.new }
        ensures closes { Closes (MustStop self.old.printer.ends.items self.old.printer.broken) how self.old.publisher self.new.publisher }
        ensures keeps { KeepsTopic self.old.publisher self.new.publisher }
        ensures same { self.new.printer ≡ self.old.printer }
    {
        stop_early(site.board, &mut self.seat, how);
        if !self.printer.must_stop() {
            self.publisher.end(how);
        }
    }

    /// Prints what comes, and sends what is pending, until the end of each branch came.
    fn wait_all<R: Wait, G: Gate, K: Sink>(
        &mut self,
        site: &Site<'_, R, G, Pieces, Texts>,
        out: &mut K,
    )
        requires serving { (ms : List Meaning) × (reader : AHow) × (start : SinkTold) × IsServing F.stands F.comes (record { topic = site.now.topic.now; hub = site.now.hub.now; board = site.now.board.now }) ms reader start (K.told out.old) self.old }
        requires topic { IsOf site.now.topic.now self.old.publisher }
        requires pending { ArePending self.old.publisher }
        ensures serving { (ms : List Meaning) (reader : AHow) (start : SinkTold) → IsServing F.stands F.comes (record { topic = site.now.topic.now; hub = site.now.hub.now; board = site.now.board.now }) ms reader start (K.told out.old) self.old → IsServing F.stands F.comes (record { topic = site.now.topic.now; hub = site.now.hub.now; board = site.now.board.now }) ms reader start (K.told out.new) self.new }
        ensures goes_on { GoesOn self.old.printer self.new.printer }
        ensures keeps { KeepsTopic self.old.publisher self.new.publisher }
        ensures due { (i : ℕ) → due self.new.publisher i ≡ due self.old.publisher i }
        ensures told { AreAllTold self.new.printer.ends.items }
    {
        let mut pause = Pause::new();
        'tries: for _ in site.rt.forever() {
            if self.printer.is_over() {
                return;
            }
            let came = self.serve(site, out);
            self.publisher.push(site.rt, site.topic);
            match came {
                true => pause.reset(),
                false => pause.step(site.rt),
            }
        }
        unreachable!()
    }

    /// Ends the branches: `how` is how the reader ended. They are over and settled with behind it.
    pub fn finish<R: Threads + Wait, G: Gate, K: Sink>(
        self,
        site: &Site<'_, R, G, Pieces, Texts>,
        how: How,
        out: &mut K,
    ) -> TeeEnd
        requires pumping { (ms : List Meaning) × (start : SinkTold) × (given : List Element) × IsPumping F.stands F.comes (record { topic = site.now.topic.now; hub = site.now.hub.now; board = site.now.board.now }) ms start given (K.told out.old) self }
        ensures finished { (ms : List Meaning) (start : SinkTold) (given : List Element) → IsPumping F.stands F.comes (record { topic = site.now.topic.now; hub = site.now.hub.now; board = site.now.board.now }) ms start given (K.told out.old) self → IsFinished ms given how start (K.told out.new) result }
        ensures stopped { MustStop self.printer.ends.items self.printer.broken → IsCause result }
    {
        let mut pump = self;
        pump.close(site, how);
        pump.wait_all(site, out);
        let Pump {
            mut publisher,
            printer,
            mut seat,
            hired,
            ends,
        } = pump;
        let PrinterEnd {
            mut receiver,
            ends: told,
            broken,
        } = printer.end();
        settle_all(site, &mut publisher, &mut receiver, &mut seat, hired);
        TeeEnd {
            ends: tell_all(&told, ends),
            broken,
        }
    }
}
