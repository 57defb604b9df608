//! A plan that is made in code.
ghost use Rattle.std.specs.Prelude.{◌≡◌, true, map, IfOk, IfSome};
ghost use Rattle.std.specs.List.{AllByRecursion};
ghost use Rattle.pipeline_desc.specs.Limits.{is_path};
ghost use Rattle.digest_parts.specs.Plan.{counting_plan, lines_of};

use chunk_core::{List, Word};
use pipeline_desc::{Plan, Step, StreamSpec};
use pull_nodes::Pipe;
use std::alloc::{AllocError, Global};

/// The most streams that a plan may have.
const MOST_STREAMS: usize = 1024;

/// The plan that counts the lines of each file, four files at a time; `None` where there are too many
/// files, or where a path is empty or has more than 1,024 bytes.
pub fn count_lines(alloc: Global, paths: &[Word]) -> Result<Option<Plan>, AllocError>
    ensures { IfOk result (λ plan. IfSome plan (λ p. p ≡ counting_plan paths.now)) }
{
    if paths.len() > MOST_STREAMS {
        return Ok(None);
    }
    if !are_paths(paths) {
        return Ok(None);
    }
    let streams = streams_of(alloc, paths)?;
    Ok(Some(Plan::of(alloc, 4, 16, 4096, None, List::new(alloc), streams)))
}

fn is_fit(path: &Word) -> bool
    ensures { result ≡ is_path path.now }
{
    let count = path.as_bytes().len();
    1 <= count && count <= 1024
}

fn are_paths(paths: &[Word]) -> bool
    ensures { result ≡ true → AllByRecursion (λ p. is_path p ≡ true) paths.now }
{
    for path in paths {
        if !is_fit(path) {
            return false;
        }
    }
    true
}

fn streams_of(alloc: Global, paths: &[Word]) -> Result<List<StreamSpec>, AllocError>
    ensures { IfOk result (λ streams. streams ≡ map lines_of paths.now) }
{
    let mut streams = List::new(alloc);
    for path in paths {
        streams.push(stream_of(alloc, path)?)?;
    }
    Ok(streams)
}

/// The stream that counts a file's lines.
fn stream_of(alloc: Global, path: &Word) -> Result<StreamSpec, AllocError>
    ensures { IfOk result (λ stream. stream ≡ lines_of path.now) }
{
    let mut steps = List::new(alloc);
    steps.push(Step::Pipe(Pipe::Lines))?;
    steps.push(Step::Pipe(Pipe::Count))?;
    Ok(StreamSpec {
        path: Word::of(alloc, path.as_str())?,
        steps,
        second: None,
        on_fault: None,
        to: None,
        until: None,
    })
}
