//! The steps of a stream.
use pull_nodes::Pipe;

/// What a stream's elements go through.
#[derive(Drop)]
pub enum Step {
    /// The first so many elements, and then the end.
    Take(u64),
    /// What a pipe gives of them.
    Pipe(Pipe),
}
