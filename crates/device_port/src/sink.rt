//! What is written to, such as standard output.
ghost use Rattle.std.specs.Prelude.{◌-◌, ◌^◌, ◌<◌};
ghost use Rattle.device_port.specs.Sink.{Puts};

use crate::Failed;

/// What is written to.
pub trait Sink {
    ghost use Rattle.std.specs.Prelude.{◌≡◌, ◌+◌, ◌-◌, ◌^◌, ◌<◌, ◌≤◌, length, take, IfOk, OnErr};
    ghost use Rattle.device_port.specs.Sink.{SinkTold, with_bytes};

    /// The bytes written, where they are told, and how often a call failed.
    ghost told: { Self → SinkTold };

    /// Writes a front of the bytes that isn't empty, and tells its length.
    fn write(&mut self, bytes: &[u8]) -> Result<usize, Failed>
        requires some { 0 < length bytes.now }
        requires room { (told self.old).faults < 2 ^ 64 - 1 }
        ensures count { IfOk result (λ n. (1 ≤ n) × (n ≤ length bytes.now)) }
        ensures ok { IfOk result (λ n. told self.new ≡ with_bytes (told self.old) (take n bytes.now)) }
        ensures failed { OnErr result (told self.new ≡ record (told self.old) { faults = (told self.old).faults + 1 }) };
}

/// Writes all the bytes. A short write goes on from where it stopped, and nothing is written
/// after a failure. No bytes make no write.
pub fn put<K: Sink>(out: &mut K, bytes: &[u8]) -> Result<(), Failed>
    requires room { (K.told out.old).faults < 2 ^ 64 - 1 }
    ensures { Puts (K.told out.old) (K.told out.new) bytes.now result }
{
    let mut at = 0;
    while at < bytes.len() {
        at += out.write(&bytes[at..])?;
    }
    Ok(())
}
