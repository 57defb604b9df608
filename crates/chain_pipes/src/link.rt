//! One step of a chain.
ghost use Rattle.std.specs.Prelude.{◌≡◌, ◌+◌, List, IfOk, length};
ghost use Rattle.chunk_core.specs.Elements.{Element, LoadKind};
ghost use Rattle.chunk_core.specs.Feed.{Meaning};
ghost use Rattle.any_pipe.specs.Pouring.{AreOf, MayPour};
ghost use Rattle.pull_nodes.specs.Laws.{IsSteady};
ghost use Rattle.pipeline_desc.specs.declared.step.Step.{Step};
ghost use Rattle.pipeline_desc.specs.declared.step.Step.TheVariants as step;
ghost use Rattle.chain_pipes.specs.Links.{LinkStands, LinksStand, MayPass, MayPassLink, PassesPipe, PassesStep, PassesSteps, tail_of};

use crate::batch::{Batch, Tail};
use any_pipe::{feed_all, finish_all};
use chunk_core::{Code, Feed, Load};
use std::alloc::{AllocError, Global};

/// The state of a step, over pipes with states of the type `F`.
#[derive(Drop)]
pub(crate) enum Link<F> {
    /// The state of a pipe.
    Pipe(F),
    /// How many elements are still wanted.
    Take(u64),
}

/// The states of steps, one behind another.
#[derive(Drop)]
pub(crate) enum Links<F> {
    Nil,
    Then(Link<F>, Box<Links<F>>),
}

/// What follows loads that came of a whole input.
fn tail_of(fault: Option<Code>) -> Tail
    ensures { result ≡ tail_of fault }
{
    match fault {
        Some(code) => Tail::Fault(code),
        None => Tail::End,
    }
}

/// Feeds loads to a pipe, and tells it the end where it is the end.
fn pipe<F: Feed>(alloc: Global, state: &mut F, batch: Batch) -> Result<Batch, AllocError>
    requires { MayPour (F.stands state.old) batch.loads.items }
    ensures { IfOk result (λ r. (m : Meaning) (xs : List Element) → IsSteady m → F.stands state.old m xs → AreOf m.takes batch.loads.items → PassesPipe m xs batch r (F.stands state.new m)) }
{
    let fed = feed_all(alloc, state, batch.loads)?;
    if let Some(code) = fed.fault {
        return Ok(Batch {
            loads: fed.loads,
            tail: Tail::Fault(code),
        });
    }
    match batch.tail {
        Tail::End => {
            let whole = finish_all(alloc, state, fed.loads)?;
            Ok(Batch {
                loads: whole.loads,
                tail: tail_of(whole.fault),
            })
        }
        tail => Ok(Batch {
            loads: fed.loads,
            tail,
        }),
    }
}

/// The first elements of the loads, as many as are wanted, and then the end; or all of them where there are fewer.
fn take(alloc: Global, wanted: &mut u64, batch: Batch) -> Result<Batch, AllocError>
    ensures { IfOk result (λ r. (takes : LoadKind) (xs : List Element) → AreOf takes batch.loads.items → PassesStep (step.Take (length xs + wanted.old)) takes xs batch r (λ ys. length xs + wanted.old ≡ length ys + wanted.new)) }
{
    let mut given = Vec::new(alloc);
    if *wanted == 0 {
        return Ok(Batch {
            loads: given,
            tail: Tail::End,
        });
    }
    for mut load in batch.loads {
        let len = load.len() as u64;
        if len >= *wanted {
            given.push(load.split(*wanted as usize)?)?;
            return Ok(Batch {
                loads: given,
                tail: Tail::End,
            });
        }
        *wanted -= len;
        given.push(load)?;
    }
    Ok(Batch {
        loads: given,
        tail: batch.tail,
    })
}

impl<F: Feed> Link<F> {
    /// What the step makes of loads and what follows them.
    fn pass(&mut self, alloc: Global, batch: Batch) -> Result<Batch, AllocError>
        requires { MayPassLink F.stands self.old batch.loads.items }
        ensures { IfOk result (λ r. (s : Step) (takes gives : LoadKind) (xs : List Element) → LinkStands F.stands self.old s takes gives xs → AreOf takes batch.loads.items → PassesStep s gives xs batch r (LinkStands F.stands self.new s takes gives)) }
    {
        match self {
            Link::Pipe(state) => pipe(alloc, state, batch),
            Link::Take(wanted) => take(alloc, wanted, batch),
        }
    }
}

impl<F: Feed> Links<F> {
    /// What the steps make of loads and what follows them, one step behind another.
    pub(crate) fn pass(&mut self, alloc: Global, batch: Batch) -> Result<Batch, AllocError>
        requires { MayPass F.stands self.old batch.loads.items }
        ensures { IfOk result (λ r. (ss : List Step) (takes gives : LoadKind) (xs : List Element) → LinksStand F.stands self.old ss takes gives xs → AreOf takes batch.loads.items → PassesSteps ss gives xs batch r (LinksStand F.stands self.new ss takes gives)) }
    {
        match self {
            Links::Then(first, rest) => {
                let given = first.pass(alloc, batch)?;
                rest.pass(alloc, given)
            }
            Links::Nil => Ok(batch),
        }
    }
}
