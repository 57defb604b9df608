//! A whole input through a pipe.
ghost use Rattle.std.specs.Prelude.{◌≡◌, List, IfOk};
ghost use Rattle.chunk_core.specs.Elements.{Element, LoadKind, elements_of};
ghost use Rattle.chunk_core.specs.Feed.{Meaning};
ghost use Rattle.pull_nodes.specs.PipeKinds.{gives_of};
ghost use Rattle.pull_nodes.specs.Pipes.{all_of};
ghost use Rattle.any_pipe.specs.Pouring.{AreOf, FeedsAll, FinishesAll, MayEnd, MayPour, Pours, TakesLoads};

use chunk_core::{Code, Fed, Feed, Load};
use pull_nodes::{Pipe, PipeState};
use std::alloc::{AllocError, Global};

/// What came of an input, load by load, and then the fault or none.
#[derive(Drop)]
pub struct Poured {
    pub loads: Vec<Load>,
    pub fault: Option<Code>,
}

/// Feeds the loads one after another, up to a fault, which is the last that comes.
pub fn feed_all<F: Feed>(
    alloc: Global,
    pipe: &mut F,
    loads: Vec<Load>,
) -> Result<Poured, AllocError>
    requires { MayPour (F.stands pipe.old) loads.items }
    ensures { IfOk result (λ p. (m : Meaning) (xs : List Element) → F.stands pipe.old m xs → AreOf m.takes loads.items → FeedsAll m xs loads.items p.loads.items p.fault (F.stands pipe.new m)) }
{
    let mut given = Vec::new(alloc);
    for load in loads {
        match pipe.feed(alloc, load)? {
            Fed::Out(out) => given.push(out)?,
            Fed::End => unreachable!(),
            Fed::Fault(out, code) => {
                given.push(out)?;
                return Ok(Poured {
                    loads: given,
                    fault: Some(code),
                });
            }
        }
    }
    Ok(Poured {
        loads: given,
        fault: None,
    })
}

/// Tells that the input has ended, and appends what is still to come.
pub fn finish_all<F: Feed>(
    alloc: Global,
    pipe: &mut F,
    mut given: Vec<Load>,
) -> Result<Poured, AllocError>
    requires { MayEnd (F.stands pipe.old) }
    ensures { IfOk result (λ p. (m : Meaning) (xs : List Element) → F.stands pipe.old m xs → FinishesAll m xs given.items p.loads.items p.fault) }
{
    'answers: loop {
        match pipe.finish(alloc)? {
            Fed::Out(out) => given.push(out)?,
            Fed::End => {
                return Ok(Poured {
                    loads: given,
                    fault: None,
                });
            }
            Fed::Fault(out, code) => {
                given.push(out)?;
                return Ok(Poured {
                    loads: given,
                    fault: Some(code),
                });
            }
        }
    }
}

/// Feeds a pipe the loads one after another and then the end, and gives all that came. A fault is
/// the last that comes.
pub fn pour<F: Feed>(alloc: Global, mut pipe: F, loads: Vec<Load>) -> Result<Poured, AllocError>
    requires { MayPour (F.stands pipe) loads.items }
    ensures { IfOk result (λ p. (m : Meaning) (xs : List Element) → F.stands pipe m xs → AreOf m.takes loads.items → Pours m xs loads.items p.loads.items p.fault) }
{
    let fed = feed_all(alloc, &mut pipe, loads)?;
    if fed.fault.is_some() {
        return Ok(fed);
    }
    finish_all(alloc, &mut pipe, fed.loads)
}

/// Puts a whole input through a pipe over these tables. What comes is the same however the input is cut into loads.
pub fn pour_through<F: PipeState>(
    alloc: Global,
    tables: &F::Tables,
    pipe: Pipe,
    loads: Vec<Load>,
) -> Result<Poured, AllocError>
    requires { TakesLoads pipe loads.items }
    ensures list { IfOk result (λ p. elements_of p.loads.items ≡ (all_of (F.values tables.now) pipe (elements_of loads.items)).list) }
    ensures fault { IfOk result (λ p. p.fault ≡ (all_of (F.values tables.now) pipe (elements_of loads.items)).fault) }
    ensures kind { IfOk result (λ p. (takes gives : LoadKind) → AreOf takes loads.items → gives_of pipe takes ≡ Some gives → AreOf gives p.loads.items) }
{
    let state = F::of(alloc, tables, pipe)?;
    pour(alloc, state, loads)
}
