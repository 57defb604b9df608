//! A stepper may go to another thread.
use crate::{Held, Resources, Stepper};
use pull_nodes::PipeState;
use row_seat::RowSeat;

fn is_send<T: Send>(_value: &T) {}

/// What a row holds may go to another thread where its device may.
pub fn held_crosses<V: Send>(held: &Held<V>) {
    is_send(held)
}

/// Resources may go to another thread where their seat, its payload and their devices may.
pub fn resources_cross<S: RowSeat + Send, V: Send>(resources: &Resources<S, V>)
where
    S::Pay: Send,
{
    is_send(resources)
}

/// A stepper may go to another thread where its resources, the states of its pipes and what the
/// tables have may.
pub fn steppers_cross<S: RowSeat + Send, V: Send, F: PipeState + Send>(stepper: &Stepper<S, V, F>)
where
    S::Pay: Send,
    F::Tables: Send,
{
    is_send(stepper)
}
