//! One file that is read or written, opened once and closed once.
use crate::Failed;
use chunk_core::Exit;

/// What a device is for.
#[derive(Clone, Copy, Debug, PartialEq, Eq)]
pub enum Mode {
    Read,
    Write,
}

/// One file that is read or written. Each act has a count of its faults, which rises by one
/// exactly where a call of that act fails; a call changes nothing that it isn't said to change.
pub trait Device {
    ghost use Rattle.std.specs.Prelude.{◌≡◌, ◌+◌, ◌-◌, ◌^◌, ◌<◌, ◌≤◌, true, false, length, take, drop, Some, None, IfOk, OnOk, OnErr, IsErr, IfSome};
    ghost use Rattle.device_port.specs.Device.{DeviceTold, moved, with_written, closed_with};
    ghost use Rattle.device_port.specs.declared.device.Mode.TheVariants as mode;

    /// The device's number, place, contents, state and counts.
    ghost told: { Self → DeviceTold };

    /// Its place among the devices that its depot made.
    fn number(&self) -> u64
        ensures { result ≡ (told self.now).number };

    /// It was opened and not closed since.
    fn is_open(&self) -> bool
        ensures { result ≡ (told self.now).is_open };

    /// Opens a device that was never opened. For reading, a path that isn't there is a fault.
    fn open(&mut self) -> Result<(), Failed>
        requires never { ((told self.old).opens ≡ 0) × ((told self.old).is_open ≡ false) }
        requires room { (told self.old).open_faults < 2 ^ 64 - 1 }
        ensures ok { OnOk result (told self.new ≡ record (told self.old) { is_open = true; opens = 1 }) }
        ensures failed { OnErr result (told self.new ≡ record (told self.old) { open_faults = (told self.old).open_faults + 1 }) }
        ensures missing { (told self.old).place.mode ≡ mode.Read → (told self.old).present ≡ Some false → IsErr result };

    /// Reads some of the next bytes to the front of the buffer, and none only at the end. The
    /// device has ended where its last read gave none.
    fn read(&mut self, buf: &mut [u8]) -> Result<usize, Failed>
        requires some { 0 < length buf.old }
        requires open { (told self.old).is_open ≡ true }
        requires mode { (told self.old).place.mode ≡ mode.Read }
        requires room { (told self.old).read_faults < 2 ^ 64 - 1 }
        ensures count { IfOk result (λ n. n ≤ length buf.new) }
        ensures ok { IfOk result (λ n. told self.new ≡ moved n (told self.old)) }
        ensures bytes { IfOk result (λ n. IfSome (told self.old).content (λ c. take n buf.new ≡ take n (drop (told self.old).at c))) }
        ensures end { IfOk result (λ n. n ≡ 0 → IfSome (told self.old).content (λ c. length c ≤ (told self.old).at)) }
        ensures failed { OnErr result (told self.new ≡ record (told self.old) { read_faults = (told self.old).read_faults + 1 }) };

    /// Writes a front of the bytes that isn't empty, and tells its length.
    fn write(&mut self, bytes: &[u8]) -> Result<usize, Failed>
        requires some { 0 < length bytes.now }
        requires open { (told self.old).is_open ≡ true }
        requires mode { (told self.old).place.mode ≡ mode.Write }
        requires room { (told self.old).write_faults < 2 ^ 64 - 1 }
        ensures count { IfOk result (λ n. (1 ≤ n) × (n ≤ length bytes.now)) }
        ensures ok { IfOk result (λ n. told self.new ≡ with_written (told self.old) (take n bytes.now)) }
        ensures failed { OnErr result (told self.new ≡ record (told self.old) { write_faults = (told self.old).write_faults + 1 }) };

    /// Closes an open device, and keeps how what used it ended. It is closed afterwards also
    /// where the call fails.
    fn close(&mut self, exit: Exit) -> Result<(), Failed>
        requires open { (told self.old).is_open ≡ true }
        ensures ok { OnOk result (told self.new ≡ closed_with exit (told self.old)) }
        ensures failed { OnErr result (told self.new ≡ record (closed_with exit (told self.old)) { close_faults = 1 }) };

    /// An open device was opened once and never closed.
    ghost open_once: { (d : Self) → (told d).is_open ≡ true → ((told d).opens ≡ 1) × ((told d).closes ≡ 0) × ((told d).close_faults ≡ 0) };

    /// A device that was never closed has no exit.
    ghost no_exit: { (d : Self) → (told d).closes ≡ 0 → (told d).exit ≡ None };

    /// No more was read of a device than there is.
    ghost within: { (d : Self) → IfSome (told d).content (λ c. (told d).at ≤ length c) };

    /// A device to read a path that isn't there was never opened.
    ghost no_open: { (d : Self) → (told d).place.mode ≡ mode.Read → (told d).present ≡ Some false → (told d).opens ≡ 0 };
}
