//! Bytes that are read, such as standard input.
use crate::Failed;

/// Bytes that are read from front to end.
pub trait Source {
    ghost use Rattle.std.specs.Prelude.{◌≡◌, ◌+◌, ◌-◌, ◌^◌, ◌<◌, ◌≤◌, [], length, take, IfOk, OnErr, IfSome};
    ghost use Rattle.device_port.specs.Source.{SourceTold, without_front};

    /// The bytes still to come, where they are told, whether the last read gave none, and how often
    /// a call failed.
    ghost told: { Self → SourceTold };

    /// Reads some of the next bytes to the front of the buffer, and none only at the end. The
    /// source has ended where its last read gave none.
    fn read(&mut self, buf: &mut [u8]) -> Result<usize, Failed>
        requires some { 0 < length buf.old }
        requires room { (told self.old).faults < 2 ^ 64 - 1 }
        ensures count { IfOk result (λ n. n ≤ length buf.new) }
        ensures ok { IfOk result (λ n. told self.new ≡ without_front n (told self.old)) }
        ensures bytes { IfOk result (λ n. IfSome (told self.old).left (λ left. take n buf.new ≡ take n left)) }
        ensures end { IfOk result (λ n. n ≡ 0 → IfSome (told self.old).left (λ left. left ≡ [])) }
        ensures failed { OnErr result (told self.new ≡ record (told self.old) { faults = (told self.old).faults + 1 }) };
}
