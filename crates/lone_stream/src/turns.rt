//! One step of a stream, and its halt.
ghost use Rattle.std.specs.Prelude.{◌≡◌, ◌<◌, ◌++◌, List, None, Some, length, IfOk, IfSome, OnErr, true};
ghost use Rattle.chunk_core.specs.Elements.{Element, LoadKind, elements, kind_of};
ghost use Rattle.chunk_core.specs.declared.code.How.TheVariants as how;
ghost use Rattle.pull_stepper.specs.Steppers.{Works, stepping};
ghost use Rattle.pull_stepper.specs.Stepping.{Stepping};
ghost use Rattle.pull_turns.specs.Piping.{standing};
ghost use Rattle.run_rules.specs.Facts.{is_over};
ghost use Rattle.lone_stream.specs.Steps.{IsStepped, elements_by, halted_from};

use chunk_core::Load;
use device_port::Device;
use pull_nodes::PipeState;
use pull_stepper::{Held, Stepper, Turn};
use row_seat::RowSeat;
use std::alloc::AllocError;

/// Makes a turn, which may give a load. Where memory is wanting the stream is halted.
pub fn step<V: Device, S: RowSeat<Pay = Held<V>>, F: PipeState>(
    stepper: &mut Stepper<S, V, F>,
    desk: &mut S::Desk,
) -> Result<Option<Load>, AllocError>
    requires works { Works S.view V.told S.fits stepper.old desk.old }
    requires stepped { (k : LoadKind) × (a : Stepping V F) × (given : List Element) × IsStepped (standing F.stands F.comes) V.told k a (stepping S.view F.values stepper.old) given }
    requires runs { (stepping S.view F.values stepper.old).how ≡ None }
    ensures gave { IfOk result (λ load. (k : LoadKind) (a : Stepping V F) (given : List Element) → IsStepped (standing F.stands F.comes) V.told k a (stepping S.view F.values stepper.old) given → IsStepped (standing F.stands F.comes) V.told k a (stepping S.view F.values stepper.new) (given ++ elements_by load) × IfSome load (λ l. kind_of l ≡ k)) }
    ensures some { IfOk result (λ load. IfSome load (λ l. 0 < length (elements l))) }
    ensures goes_on { IfOk result (λ load. IfSome load (λ l. (stepping S.view F.values stepper.new).how ≡ None)) }
    ensures itself { IfOk result (λ load. IfSome (stepping S.view F.values stepper.new).how (λ h. is_over h ≡ true)) }
    ensures stopped { OnErr result ((k : LoadKind) (a : Stepping V F) (given : List Element) → IsStepped (standing F.stands F.comes) V.told k a (stepping S.view F.values stepper.old) given → IsStepped (standing F.stands F.comes) V.told k a (stepping S.view F.values stepper.new) given) }
    ensures memory { OnErr result ((stepping S.view F.values stepper.new).how ≡ Some how.Memory) }
    ensures works { Works S.view V.told S.fits stepper.new desk.new }
{
    match stepper.turn(desk) {
        Ok(Turn::Chunk(load)) => Ok(Some(load)),
        Ok(Turn::Quiet) => Ok(None),
        Ok(Turn::Done) => Ok(None),
        Ok(Turn::Fault(_)) => Ok(None),
        Err(AllocError) => {
            stepper.halt(desk);
            Err(AllocError)
        }
    }
}

/// Halts a stream, where it hasn't ended.
pub fn stop<V: Device, S: RowSeat<Pay = Held<V>>, F: PipeState>(
    stepper: &mut Stepper<S, V, F>,
    desk: &mut S::Desk,
)
    requires works { Works S.view V.told S.fits stepper.old desk.old }
    requires stepped { (k : LoadKind) × (a : Stepping V F) × (given : List Element) × IsStepped (standing F.stands F.comes) V.told k a (stepping S.view F.values stepper.old) given }
    ensures stepped { (k : LoadKind) (a : Stepping V F) (given : List Element) → IsStepped (standing F.stands F.comes) V.told k a (stepping S.view F.values stepper.old) given → IsStepped (standing F.stands F.comes) V.told k a (stepping S.view F.values stepper.new) given }
    ensures how { (stepping S.view F.values stepper.new).how ≡ halted_from (stepping S.view F.values stepper.old).how }
    ensures works { Works S.view V.told S.fits stepper.new desk.new }
{
    match stepper.how() {
        Some(_) => {}
        None => stepper.halt(desk),
    }
}
