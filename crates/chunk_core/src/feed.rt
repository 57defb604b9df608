//! Pipes: what takes loads in and gives loads out.
use crate::code::Code;
use crate::load::Load;
use std::alloc::{AllocError, Global};

/// What a pipe answers.
#[derive(Drop)]
pub enum Fed {
    Out(Load),
    End,
    /// The load comes out before the fault.
    Fault(Load, Code),
}

/// A pipe that is fed its input load by load. After `End`, `Fault` or `AllocError` it may only be
/// dropped.
pub trait Feed: Drop {
    ghost use Rattle.std.specs.Prelude.{◌≡◌, List, Option, IfOk};
    ghost use Rattle.chunk_core.specs.Elements.{Element, LoadKind, elements, kind_of};
    ghost use Rattle.chunk_core.specs.Feed.{Meaning, MayFeed, MayFinish, Feeds, Finishes, Continues, IsSound};
    ghost use Rattle.chunk_core.specs.declared.code.Code.{Code};

    /// The state stands for this input of a pipe of this meaning.
    ghost stands: { Self → Meaning → List Element → Type 0 };

    /// The input has ended, and these elements, of this kind, and then this fault or none are
    /// still to come.
    ghost comes: { Self → LoadKind → List Element → Option Code → Type 0 };

    /// Takes the next load, of the kind of the loads before it, and answers `Out`, where the load
    /// may be empty, or `Fault`. It isn't called after `finish`.
    fn feed(&mut self, alloc: Global, load: Load) -> Result<Fed, AllocError>
        requires { MayFeed (stands self.old) (kind_of load) }
        ensures { IfOk result (λ fed. (m : Meaning) (xs : List Element) → stands self.old m xs → m.takes ≡ kind_of load → Feeds m xs (elements load) fed (stands self.new m)) };

    /// Tells that the input has ended. It is called again and again until it answers `End` or
    /// `Fault`; an `Out` before that is never empty.
    fn finish(&mut self, alloc: Global) -> Result<Fed, AllocError>
        requires { MayFinish (stands self.old) (comes self.old) }
        ensures first { IfOk result (λ fed. (m : Meaning) (xs : List Element) → stands self.old m xs → Finishes m xs fed (comes self.new m.gives)) }
        ensures next { IfOk result (λ fed. (kind : LoadKind) (ys : List Element) (c : Option Code) → comes self.old kind ys c → Continues kind ys c fed (comes self.new kind)) };

    /// A state that stands for an input is one without a fault.
    ghost sound: { (q : Self) → IsSound (stands q) };
}
