//! The files of a runtime, with two things that a user of the program would miss.
//!
//! `GuardedFiles` is a runtime's files (`Files`), so that whatever opens files goes through it. It refuses to open the
//! file that is the standard output to be written: both would write from their own places, one over the other. And
//! where its `Guard` has a path for that, it appends a line there for each call that failed: which act, the file's
//! path, and the system's reason, as in `open "a.csv": No such file or directory (os error 2)`. What it answers is else
//! what the runtime's own files answer.
//!
//! A pipe, a terminal or another device that is the standard output loses nothing by a second writer, and may be
//! written. That a line can't be appended is no error. A path takes memory only where failed calls are told.
//!
//! Nothing here runs: the program hands these files to its depot.
#![tactic(auto)]

pub mod file;
pub mod files;
pub mod guard;

pub use file::GuardedFile;
pub use files::GuardedFiles;
pub use guard::Guard;
