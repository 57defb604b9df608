//! A stepper that gives lines, turn by turn.
ghost use Rattle.std.specs.Prelude.{◌≡◌, ◌++◌, ◌<◌, List, None, IfOk, IfSome, OnErr, true};
ghost use Rattle.chunk_core.specs.Elements.{Element};
ghost use Rattle.chunk_core.specs.declared.code.How.TheVariants as how;
ghost use Rattle.pull_stepper.specs.Steppers.{Works, stepping};
ghost use Rattle.pull_stepper.specs.Stepping.{Stepping};
ghost use Rattle.pull_turns.specs.Piping.{standing};
ghost use Rattle.run_rules.specs.Facts.{is_over};
ghost use Rattle.eval_reader.specs.Reading.{IsReading, lines_by, stopped_from, work_of};

use chunk_core::{Chunk, Line, Load};
use device_port::Device;
use pull_nodes::PipeState;
use pull_stepper::{Held, Stepper, Turn};
use row_seat::RowSeat;
use std::alloc::AllocError;

/// Makes a turn, which may give lines. Where memory is wanting the stepper is halted.
pub(crate) fn read_lines<V: Device, S: RowSeat<Pay = Held<V>>, F: PipeState>(
    stepper: &mut Stepper<S, V, F>,
    desk: &mut S::Desk,
) -> Result<Option<Chunk<Line>>, AllocError>
    requires works { Works S.view V.told S.fits stepper.old desk.old }
    requires reading { (a : Stepping V F) × (given : List Element) × IsReading (standing F.stands F.comes) V.told a (stepping S.view F.values stepper.old) given }
    requires runs { (stepping S.view F.values stepper.old).how ≡ None }
    ensures given { IfOk result (λ lines. (a : Stepping V F) (given : List Element) → IsReading (standing F.stands F.comes) V.told a (stepping S.view F.values stepper.old) given → IsReading (standing F.stands F.comes) V.told a (stepping S.view F.values stepper.new) (given ++ lines_by lines)) }
    ensures itself { IfOk result (λ lines. IfSome (stepping S.view F.values stepper.new).how (λ h. is_over h ≡ true)) }
    ensures running { IfOk result (λ lines. IfSome lines (λ _. (stepping S.view F.values stepper.new).how ≡ None)) }
    ensures falls { IfOk result (λ lines. work_of F.due (stepping S.view F.values stepper.new) < work_of F.due (stepping S.view F.values stepper.old)) }
    ensures stopped { OnErr result ((a : Stepping V F) (given : List Element) → IsReading (standing F.stands F.comes) V.told a (stepping S.view F.values stepper.old) given → IsReading (standing F.stands F.comes) V.told a (stepping S.view F.values stepper.new) given) }
    ensures memory { OnErr result ((stepping S.view F.values stepper.new).how ≡ Some how.Memory) }
    ensures works { Works S.view V.told S.fits stepper.new desk.new }
{
    match stepper.turn(desk) {
        Ok(Turn::Chunk(load)) => match load {
            Load::Lines(lines) => Ok(Some(lines)),
            Load::Bytes(_) | Load::Rows(_) => unreachable!(),
        },
        Ok(Turn::Quiet) => Ok(None),
        Ok(Turn::Done) => Ok(None),
        Ok(Turn::Fault(_)) => Ok(None),
        Err(AllocError) => {
            stepper.halt(desk);
            Err(AllocError)
        }
    }
}

/// Halts a stepper, where it hasn't ended.
pub(crate) fn stop<V: Device, S: RowSeat<Pay = Held<V>>, F: PipeState>(
    stepper: &mut Stepper<S, V, F>,
    desk: &mut S::Desk,
)
    requires works { Works S.view V.told S.fits stepper.old desk.old }
    requires reading { (a : Stepping V F) × (given : List Element) × IsReading (standing F.stands F.comes) V.told a (stepping S.view F.values stepper.old) given }
    ensures reading { (a : Stepping V F) (given : List Element) → IsReading (standing F.stands F.comes) V.told a (stepping S.view F.values stepper.old) given → IsReading (standing F.stands F.comes) V.told a (stepping S.view F.values stepper.new) given }
    ensures how { (stepping S.view F.values stepper.new).how ≡ Some (stopped_from (stepping S.view F.values stepper.old).how) }
    ensures works { Works S.view V.told S.fits stepper.new desk.new }
{
    match stepper.how() {
        Some(_) => {}
        None => stepper.halt(desk),
    }
}
