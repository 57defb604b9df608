//! A job may go to another thread.
use crate::{Job, JobEnd};
use pull_nodes::PipeState;
use pull_stepper::Held;
use row_seat::RowSeat;

fn is_send<T: Send>(_value: &T) {}

/// What a job ends with may go to another thread where its seat and its devices may.
pub fn ends_cross<S: Send, V: Send>(end: &JobEnd<S, V>) {
    is_send(end)
}

/// A job may go to another thread where its seat, its devices, the states of its pipes and what the
/// tables have may.
pub fn jobs_cross<S: RowSeat<Pay = Held<V>> + Send, V: Send, F: PipeState + Send>(
    job: &Job<S, V, F>,
)
where
    F::Tables: Send,
{
    is_send(job)
}
