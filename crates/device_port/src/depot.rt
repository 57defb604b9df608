//! Where devices come from, and where they go back to.
use crate::device::{Device, Mode};
use chunk_core::Word;
use std::alloc::{AllocError, Global};

/// Makes devices and takes each back once.
pub trait Depot {
    ghost use Rattle.std.specs.Prelude.{◌≡◌, ◌++◌, ◌∷◌, [], IfOk, OnErr};
    ghost use Rattle.device_port.specs.Depot.{DepotTold, Makes, MayReturn, KeepsOtherFiles, KeepsWritten};

    type Dev: Device + Drop;

    /// The files by path, where they are told, the places of the devices made, and the records
    /// of those that came back.
    ghost told: { Self → DepotTold };

    /// Makes a device for a path, with the room for its return.
    fn make(&mut self, alloc: Global, path: &Word, mode: Mode) -> Result<Self::Dev, AllocError>
        ensures made { IfOk result (λ dev. Makes (told self.old) (told self.new) path.now mode (Self.Dev.Device.told dev)) }
        ensures unmade { OnErr result (told self.new ≡ told self.old) };

    /// Takes back a device that it made, which isn't open and wasn't taken back before.
    fn retire(&mut self, dev: Self::Dev)
        requires { MayReturn (told self.old) (Self.Dev.Device.told dev) }
        ensures retired { (told self.new).retired ≡ (told self.old).retired ++ Self.Dev.Device.told dev ∷ [] }
        ensures made { (told self.new).made ≡ (told self.old).made }
        ensures files { KeepsOtherFiles (told self.old) (told self.new) (Self.Dev.Device.told dev) }
        ensures written { KeepsWritten (told self.new).files (Self.Dev.Device.told dev) };
}
