//! Why a rotation stops before the end.
use std::alloc::AllocError;

/// Why a rotation stopped before the end of what is read.
#[derive(Drop)]
pub enum Stop<V> {
    /// A read failed.
    Unread,
    /// The device of a file that couldn't be opened.
    Unopened(V),
    /// A write failed.
    Unwritten,
    /// There is a byte for a file more than there may be.
    TooMany,
    /// Memory was wanting.
    Memory,
}

impl<V> From<AllocError> for Stop<V> {
    ghost use Rattle.std.specs.Prelude.{◌≡◌};
    ghost use Rattle.rotate_files.specs.declared.stop.Stop.TheVariants as stop;

    ghost from_gives = { λ _ e. e ≡ stop.Memory };

    fn from(_: AllocError) -> Stop<V> {
        Stop::Memory
    }
}
