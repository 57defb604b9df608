//! What a collector of many streams received, began and learned, and what follows of how they end.
//!
//! All is plain data that only contracts see, and nothing here runs. A collector keeps a `Tale`: the
//! messages that it received, what became of each stream, which contexts were set or found set, what
//! the halted streams obeyed, and why it writes no more. Its invariant is `IsTale`, which reads no more
//! of the work than `Bounds`, so that it stands while it isn't known yet which streams there will be;
//! what it does is one of the steps of `StepsKeepTale`, each of which says what has to be known so that
//! the tale is kept. At the end `Ended` says how each stream ended, and the laws give what a run has to
//! show: that a stream is halted for a cause that came before it closed its root, that nothing begins
//! behind a stop, and which loads were printed.
#![tactic(auto)]

pub mod laws;
