//! The paths that are written are no other paths of a description.
ghost use Rattle.std.specs.Prelude.{◌≡◌, ◌+◌, ◌≤◌, count_by, length, option_map, IfOk};
ghost use Rattle.std.specs.List.{sum_by};
ghost use Rattle.std.specs.Str.{bytes_eq};
ghost use Rattle.pipeline_desc.specs.Limits.{most_streams, most_tables};
ghost use Rattle.pipeline_desc.specs.Outputs.{is_alone, outputs_alone};
ghost use Rattle.pipeline_desc.specs.Places.{all_places, list_places, stream_places};
ghost use Rattle.pipeline_desc.specs.Reading.{ReadsAs};
ghost use Rattle.pipeline_desc.specs.Sound.{AreAlone};

use crate::listing::ListSpec;
use crate::refusal::{Position, RefusalKind, Refused, refuse};
use crate::stream::{Second, StreamSpec};
use crate::table::TableSpec;
use chunk_core::Word;

/// How many of the tables' paths are this one.
fn count_in_tables(tables: &[TableSpec], path: &str) -> usize
    ensures { result ≡ count_by (λ t. bytes_eq path.now t.path) tables.now }
{
    tables
        .iter()
        .filter(|table| path == table.path.as_str())
        .count()
}

/// How many of the list's paths are this one.
fn count_in_list(list: &Option<ListSpec>, path: &str) -> usize
    ensures { result ≡ count_by (λ p. bytes_eq path.now p.path) (list_places list.now) }
{
    match list {
        Some(list) => usize::from(path == list.path.as_str()),
        None => 0,
    }
}

/// How many of a stream's paths are this one.
fn count_in_stream(stream: &StreamSpec, path: &str) -> usize
    ensures { result ≡ count_by (λ p. bytes_eq path.now p.path) (stream_places stream.now) }
{
    let of_to = match &stream.to {
        Some(to) => usize::from(path == to.as_str()),
        None => 0,
    };
    let of_second = match &stream.second {
        Some(second) => usize::from(path == second.path.as_str()),
        None => 0,
    };
    of_to + usize::from(path == stream.path.as_str()) + of_second
}

/// How many of the streams' paths are this one.
fn count_in_streams(streams: &[StreamSpec], path: &str) -> usize
    requires { length streams.now ≤ most_streams }
    ensures { result ≡ sum_by (λ s. count_by (λ p. bytes_eq path.now p.path) (stream_places s)) streams.now }
{
    streams
        .iter()
        .map(|stream| count_in_stream(stream, path))
        .sum()
}

/// How many paths of the description are this one.
fn count_in_all(
    tables: &[TableSpec],
    list: &Option<ListSpec>,
    streams: &[StreamSpec],
    path: &str,
) -> usize
    requires tables { length tables.now ≤ most_tables }
    requires streams { length streams.now ≤ most_streams }
    ensures { result ≡ count_by (λ p. bytes_eq path.now p.path) (all_places tables.now list.now streams.now) }
{
    count_in_tables(tables, path) + count_in_list(list, path) + count_in_streams(streams, path)
}

/// The path, where there is one, stands once at most among those of the tables, the list and the
/// streams.
fn is_alone(
    tables: &[TableSpec],
    list: &Option<ListSpec>,
    streams: &[StreamSpec],
    to: &Option<Word>,
) -> bool
    requires tables { length tables.now ≤ most_tables }
    requires streams { length streams.now ≤ most_streams }
    ensures { result ≡ is_alone (all_places tables.now list.now streams.now) to.now }
{
    match to {
        Some(to) => count_in_all(tables, list, streams, to.as_str()) <= 1,
        None => true,
    }
}

/// No stream writes to another path of the description.
pub(crate) fn check_outputs(
    tables: &[TableSpec],
    list: &Option<ListSpec>,
    streams: &[StreamSpec],
) -> Result<(), Refused>
    requires tables { length tables.now ≤ most_tables }
    requires streams { length streams.now ≤ most_streams }
    ensures meant { ReadsAs (λ u. u) result (outputs_alone tables.now list.now streams.now) }
    ensures alone { IfOk result (λ u. AreAlone (all_places tables.now list.now streams.now) streams.now) }
{
    for k in 0..streams.len() {
        if !is_alone(tables, list, streams, &streams[k].to) {
            let here = Position::InStream(k as u32);
            return Err(refuse(RefusalKind::OutOfRange, here));
        }
    }
    Ok(())
}
