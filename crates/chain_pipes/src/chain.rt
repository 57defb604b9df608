//! A chain of steps as one pipe.
ghost use Rattle.std.specs.Prelude.{◌≡◌, ◌++◌, ◌<◌, true, ℕ, List, [], length, Option, Some, IfOk, IfSome, IfNone, IsSome, OnOk};
ghost use Rattle.std.specs.List.{list_all};
ghost use Rattle.chunk_core.specs.Elements.{Element, LoadKind, elements, elements_of, kind_of};
ghost use Rattle.chunk_core.specs.Elements.LoadKind.{Bytes};
ghost use Rattle.chunk_core.specs.Feed.{Continues, Feeds, MayFeed, MayFinish, Meaning};
ghost use Rattle.chunk_core.specs.declared.code.Code.{Code};
ghost use Rattle.any_pipe.specs.AnyState as any;
ghost use Rattle.any_pipe.specs.Pouring.{AreOf};
ghost use Rattle.pull_nodes.specs.PipeKinds.{stream_kind};
ghost use Rattle.step_words.specs.Words.{kind_behind, needs_no_table};
ghost use Rattle.chain_pipes.specs.Over.{IsChainMeaning, fault_of};
ghost use Rattle.chain_pipes.specs.Links.{AreFresh, IsFresh, KindsFit, end_of};
ghost use Rattle.chain_pipes.specs.Chains.{Comes, StandsFor};

use crate::batch::{Batch, Tail};
use crate::joining::{empty_of, joined};
use crate::link::{Link, Links};
use any_pipe::AnyPipe;
use chunk_core::{Code, Fed, Feed, List, Load};
use csv_pipes::Dicts;
use pipeline_desc::Step;
use pull_nodes::{Kind, Pipe, PipeState};
use std::alloc::{AllocError, Global};
use std::collections::VecDeque;

/// How far a chain is.
#[derive(Drop)]
pub(crate) enum Stage {
    /// Its steps, from the first on.
    Running(Links<AnyPipe>),
    /// A `take` was met: nothing more comes, whatever is fed.
    Met,
    /// The input has ended, and these loads and then the fault or none are still to come.
    Ending(VecDeque<Load>, Option<Code>),
}

/// The state of a chain of steps, which takes bytes.
#[derive(Drop)]
pub struct Chain {
    gives: Kind,
    stage: Stage,
}

/// The kind of loads behind steps of which the first gets loads of this kind.
fn kind_behind(steps: &[Step], kind: Kind) -> Kind
    requires { (j k : LoadKind) × KindsFit steps.now kind j k }
    ensures { (j k : LoadKind) → KindsFit steps.now kind j k → result ≡ stream_kind k }
{
    match steps.split_first() {
        Some((Step::Pipe(pipe), others)) => match pipe.kind(kind) {
            Ok(next) => kind_behind(others, next),
            Err(_) => unreachable!(),
        },
        Some((Step::Take(_), others)) => kind_behind(others, kind),
        None => kind,
    }
}

/// The state of a step that was fed nothing, which needs no table.
fn link_of(alloc: Global, tables: &Dicts, step: &Step) -> Result<Link<AnyPipe>, AllocError>
    requires { needs_no_table step.now ≡ true }
    ensures { IfOk result (λ l. IsFresh any.StandsFor l step.now) }
{
    match step {
        Step::Take(n) => Ok(Link::Take(*n)),
        Step::Pipe(pipe) => {
            let pipe = Pipe::copy_of(alloc, pipe)?;
            Ok(Link::Pipe(AnyPipe::of(alloc, tables, pipe)?))
        }
    }
}

/// The states of steps that were fed nothing.
fn links_of(alloc: Global, tables: &Dicts, steps: &[Step]) -> Result<Links<AnyPipe>, AllocError>
    requires { list_all needs_no_table steps.now ≡ true }
    ensures { IfOk result (λ links. AreFresh any.StandsFor links steps.now) }
{
    let Some((step, others)) = steps.split_first() else {
        return Ok(Links::Nil);
    };
    let first = link_of(alloc, tables, step)?;
    let rest = links_of(alloc, tables, others)?;
    Ok(Links::Then(first, Box::new(alloc, rest)?))
}

/// The fault that follows loads, where one does.
fn fault_of(tail: Tail) -> Option<Code>
    ensures { result ≡ fault_of (end_of tail) }
{
    match tail {
        Tail::More | Tail::End => None,
        Tail::Fault(code) => Some(code),
    }
}

/// Takes off the first load that isn't empty, and those before it.
fn next_load(loads: &mut VecDeque<Load>) -> Option<Load>
    ensures some { IfSome result (λ load. 0 < length (elements load)) }
    ensures first { IfSome result (λ load. elements_of loads.old.items ≡ elements load ++ elements_of loads.new.items) }
    ensures kinds { IfSome result (λ load. (k : LoadKind) → AreOf k loads.old.items → (kind_of load ≡ k) × AreOf k loads.new.items) }
    ensures none { IfNone result (elements_of loads.old.items ≡ []) }
{
    while let Some(load) = loads.pop_front() {
        let len = load.len();
        if len > 0 {
            return Some(load);
        }
    }
    None
}

impl Chain {
    /// The state of a chain that was fed nothing.
    pub fn new(alloc: Global, steps: &List<Step>) -> Result<Chain, AllocError>
        requires kinds { IsSome (kind_behind steps.now Bytes) }
        requires tables { list_all needs_no_table steps.now ≡ true }
        ensures { IfOk result (λ chain. (m : Meaning) → IsChainMeaning steps.now m → StandsFor chain m []) }
    {
        let items = steps.as_slice();
        let gives = kind_behind(items, Kind::Bytes);
        let tables = Dicts::new(alloc);
        let links = links_of(alloc, &tables, items)?;
        Ok(Chain {
            gives,
            stage: Stage::Running(links),
        })
    }

    /// Tells the steps that the input has ended.
    fn settle(&mut self, alloc: Global) -> Result<(), AllocError>
        requires { MayFinish (StandsFor self.old) (Comes self.old) }
        ensures first { OnOk result ((m : Meaning) (xs : List Element) → StandsFor self.old m xs → (rest : List Element) × ((m.part xs).list ++ rest ≡ (m.all xs).list) × Comes self.new m.gives rest (m.all xs).fault) }
        ensures next { OnOk result ((kind : LoadKind) (ys : List Element) (c : Option Code) → Comes self.old kind ys c → Comes self.new kind ys c) }
    {
        match &mut self.stage {
            Stage::Running(links) => {
                let batch = Batch {
                    loads: Vec::new(alloc),
                    tail: Tail::End,
                };
                let rest = links.pass(alloc, batch)?;
                let fault = fault_of(rest.tail);
                self.stage = Stage::Ending(VecDeque::from(rest.loads), fault);
            }
            Stage::Met => self.stage = Stage::Ending(VecDeque::new(alloc), None),
            Stage::Ending(_, _) => (),
        }
        Ok(())
    }

    /// The next of what is still to come.
    fn give(&mut self) -> Fed
        ensures { (kind : LoadKind) (ys : List Element) (c : Option Code) → Comes self.old kind ys c → Continues kind ys c result (Comes self.new kind) }
    {
        match &mut self.stage {
            Stage::Ending(loads, fault) => match next_load(loads) {
                Some(load) => Fed::Out(load),
                None => match fault {
                    Some(code) => Fed::Fault(empty_of(self.gives), *code),
                    None => Fed::End,
                },
            },
            _ => Fed::End,
        }
    }

    /// Feeds a load that isn't empty to the steps.
    fn push(&mut self, alloc: Global, load: Load) -> Result<Fed, AllocError>
        requires may { MayFeed (StandsFor self.old) (kind_of load) }
        requires some { 0 < length (elements load) }
        ensures { IfOk result (λ fed. (m : Meaning) (xs : List Element) → StandsFor self.old m xs → m.takes ≡ kind_of load → Feeds m xs (elements load) fed (StandsFor self.new m)) }
    {
        match &mut self.stage {
            Stage::Running(links) => {
                let mut loads = Vec::new(alloc);
                loads.push(load)?;
                let batch = Batch {
                    loads,
                    tail: Tail::More,
                };
                let given = links.pass(alloc, batch)?;
                let load = joined(alloc, self.gives, given.loads)?;
                match given.tail {
                    Tail::More => Ok(Fed::Out(load)),
                    Tail::End => {
                        self.stage = Stage::Met;
                        Ok(Fed::Out(load))
                    }
                    Tail::Fault(code) => Ok(Fed::Fault(load, code)),
                }
            }
            Stage::Met => Ok(Fed::Out(empty_of(self.gives))),
            Stage::Ending(_, _) => unreachable!(),
        }
    }
}

impl Feed for Chain {
    ghost use Rattle.chain_pipes.specs.Chains.{Comes, StandsFor, sound};

    ghost stands = { StandsFor };

    ghost comes = { Comes };

    ghost sound = { sound };

    fn feed(&mut self, alloc: Global, load: Load) -> Result<Fed, AllocError> {
        let len = load.len();
        if len == 0 {
            return Ok(Fed::Out(empty_of(self.gives)));
        }
        self.push(alloc, load)
    }

    fn finish(&mut self, alloc: Global) -> Result<Fed, AllocError> {
        self.settle(alloc)?;
        Ok(self.give())
    }
}
