//! The devices and scopes that a node is run over.
use chunk_core::Exit;
use device_port::Failed;

/// The devices of a stream by their places, and its scopes by their numbers.
pub trait Outside {
    ghost use Rattle.std.specs.Prelude.{◌≡◌, ℕ, ◌-◌, ◌^◌, ◌<◌, ◌≤◌, length, IfOk, OnOk, OnErr};
    ghost use Rattle.pull_turns.specs.Around.{Around, AcquiresDevice, Refuses, GivesPiece, FailsToRead, TakesPiece, FailsToWrite, IsHeld, IsNested, IsUntried, OpenAreHeld, Enters, LeavesScope};
    ghost use Rattle.device_port.specs.declared.device.Mode.TheVariants as mode;

    /// Where the rows are.
    type Desk;

    // What each device tells, which scopes are open or were closed, which devices wait or are held, and
    // the room.
    ghost seen: { Self → Around };
    // The outside is in order, and this is its desk.
    ghost fits: { Self → Self.Desk → Type 0 };
    // What calls lead to, from one state and its desk to a later one.
    ghost since: { Self → Self.Desk → Self → Self.Desk → Type 0 };

    // In order, no device is open but those that open scopes hold.
    ghost held: { (o : Self) (d : Self.Desk) → fits o d → OpenAreHeld (seen o) };

    // In order, what lies within a scope lies within all that that lies in.
    ghost nested: { (o : Self) (d : Self.Desk) → fits o d → IsNested (seen o) };

    // A device that waits was never asked.
    ghost untried: { (o : Self) (d : Self.Desk) → fits o d → (p : ℕ) → (seen o).waits p → IsUntried ((seen o).told p) };

    // No call leads to where it began.
    ghost begin: { (a : Self) (d : Self.Desk) → since a d a d };

    // Calls and then calls are calls.
    ghost then: { (a b c : Self) (d e f : Self.Desk) → since a d b e → since b e c f → since a d c f };

    /// Opens the device of a place, which was never asked, and gives it to an open scope.
    fn open(&mut self, desk: &mut Self::Desk, scope: u32, place: u32) -> Result<(), Failed>
        requires fits { fits self.old desk.old }
        requires scope { (seen self.old).opened scope }
        requires place { (seen self.old).waits place }
        requires events { 2 ≤ (seen self.old).events }
        requires rows { 1 ≤ (seen self.old).rows }
        ensures ok { OnOk result (AcquiresDevice (seen self.old) scope place (seen self.new)) }
        ensures failed { OnErr result (Refuses (seen self.old) place (seen self.new)) }
        ensures fits { fits self.new desk.new }
        ensures since { since self.old desk.old self.new desk.new };

    /// Reads some of the next bytes of a device that is held to the front of the buffer, and none
    /// only at the end.
    fn read(&mut self, desk: &mut Self::Desk, place: u32, buf: &mut [u8]) -> Result<usize, Failed>
        requires fits { fits self.old desk.old }
        requires held { IsHeld (seen self.old) place }
        requires mode { ((seen self.old).told place).place.mode ≡ mode.Read }
        requires some { 0 < length buf.old }
        requires room { ((seen self.old).told place).read_faults < 2 ^ 64 - 1 }
        ensures ok { IfOk result (λ n. GivesPiece (seen self.old) place n buf.new (seen self.new)) }
        ensures failed { OnErr result (FailsToRead (seen self.old) place (seen self.new)) }
        ensures fits { fits self.new desk.new }
        ensures since { since self.old desk.old self.new desk.new };

    /// Writes a front of the bytes that isn't empty to a device that is held, and tells its length.
    fn write(&mut self, desk: &mut Self::Desk, place: u32, bytes: &[u8]) -> Result<usize, Failed>
        requires fits { fits self.old desk.old }
        requires held { IsHeld (seen self.old) place }
        requires mode { ((seen self.old).told place).place.mode ≡ mode.Write }
        requires some { 0 < length bytes.now }
        requires room { ((seen self.old).told place).write_faults < 2 ^ 64 - 1 }
        ensures ok { IfOk result (λ n. TakesPiece (seen self.old) place n bytes.now (seen self.new)) }
        ensures failed { OnErr result (FailsToWrite (seen self.old) place (seen self.new)) }
        ensures fits { fits self.new desk.new }
        ensures since { since self.old desk.old self.new desk.new };

    /// Opens a child of an open scope, and answers its number.
    fn enter(&mut self, desk: &mut Self::Desk, at: u32) -> u32
        requires fits { fits self.old desk.old }
        requires scope { (seen self.old).opened at }
        requires events { 2 ≤ (seen self.old).events }
        requires scopes { 1 ≤ (seen self.old).scopes }
        ensures enters { Enters (seen self.old) at result (seen self.new) }
        ensures fits { fits self.new desk.new }
        ensures since { since self.old desk.old self.new desk.new };

    /// Closes an open scope, and what is open in it, with the exit of what ran there.
    fn leave(&mut self, desk: &mut Self::Desk, scope: u32, exit: Exit)
        requires fits { fits self.old desk.old }
        requires scope { (seen self.old).opened scope }
        ensures leaves { LeavesScope (seen self.old) scope exit (seen self.new) }
        ensures fits { fits self.new desk.new }
        ensures since { since self.old desk.old self.new desk.new };
}
