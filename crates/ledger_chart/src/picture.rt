//! The picture of a ledger, as SVG. Lengths are in tenths of a pixel.
use chart_marks::{Mark, Thing, marks_of};
use chunk_core::Exit;
use res_ledger::{Ledger, StreamNo};
use std::alloc::{AllocError, Global};
use std::collections::BinaryHeap;

/// Where the first event stands, and the height of a track.
const LEFT: u64 = 1100;

const TRACK: u64 = 220;

/// What each picture has: its colours, by how something ended, and what they stand for.
const FRONT: &str =
    "<style>text{fill:#1f2328;font:110px system-ui,sans-serif}.lane{font-weight:600}\
.faint{fill:#57606a}path{stroke:#d8dee4;stroke-width:8}rect{stroke-width:10}\
.succeeded{fill:#b7e3cf;stroke:#0f7a55}.errored{fill:#f9c6b5;stroke:#b23b12}.canceled{fill:#f3e0a1;stroke:#8a6a00}\
.unended{fill:#e4e7eb;stroke:#57606a;stroke-dasharray:40 30}text{stroke:none}</style>
<rect width=\"100%\" height=\"100%\" fill=\"#fff\"/>
<g transform=\"translate(1100 340)\"><rect class=\"succeeded\" width=\"160\" height=\"110\"/><text x=\"210\" y=\"95\">succeeded</text>
<rect class=\"errored\" x=\"1000\" width=\"160\" height=\"110\"/><text x=\"1210\" y=\"95\">errored</text>
<rect class=\"canceled\" x=\"1850\" width=\"160\" height=\"110\"/><text x=\"2060\" y=\"95\">canceled</text>
<rect class=\"unended\" x=\"2750\" width=\"160\" height=\"110\"/><text x=\"2960\" y=\"95\">unended</text>
<text class=\"faint\" x=\"3700\" y=\"95\">bar: a row; thin bar: a lease; tick: a close</text></g>\n";

/// The lanes drawn so far, down to `top`, of a picture of so many events on such a width.
#[derive(Drop)]
struct Page {
    alloc: Global,
    text: String,
    count: u64,
    plot: u64,
    top: u64,
}

/// The picture of a ledger, with a lane for each stream, the outer one first.
pub fn picture_of(alloc: Global, ledger: &Ledger) -> Result<String, AllocError> {
    let mut marks = marks_of(alloc, ledger)?;
    marks.sort_by_key(|mark| lane_of(mark.by))?;
    let (text, count) = (String::new(alloc), ledger.len());
    let plot = count.saturating_mul(480).clamp(7200, 24_000);
    let mut page = Page {
        alloc,
        text,
        count,
        plot,
        top: 860,
    };
    page.number_events()?;
    let mut lanes = Vec::new(alloc);
    for event in ledger.as_slice() {
        lanes.push(lane_of(event.by))?;
    }
    lanes.sort()?;
    lanes.dedup();
    let mut at = 0;
    for lane in &lanes {
        at = page.draw_lane(*lane, marks.as_slice(), at)?;
    }
    page.whole(lanes.len())
}

/// The place of a stream's lane among all that there may be.
fn lane_of(by: StreamNo) -> u64 {
    match by {
        StreamNo::Outer => 0,
        StreamNo::Inner(stream) => u64::from(stream) + 1,
    }
}

/// How a mark ends, which is the name of its colour too.
fn end_of(mark: Mark) -> &'static str {
    match mark.end {
        None => "unended",
        Some(end) => match end.exit {
            Exit::Succeeded => "succeeded",
            Exit::Errored => "errored",
            Exit::Canceled => "canceled",
        },
    }
}

fn label_of(alloc: Global, mark: Mark) -> Result<String, AllocError> {
    let end = end_of(mark);
    let fault = match mark.end {
        Some(end) if !end.ok => ", fault",
        _ => "",
    };
    match mark.thing {
        Thing::Row(row) => format!(in alloc; "row {row} {end}{fault}"),
        Thing::Lease(stream) => format!(in alloc; "lease for {stream} {end}"),
        Thing::Close(scope) => format!(in alloc; "close {scope} {end}"),
    }
}

/// The track that is free longest, if it is by x; each is kept with the distance of that x from the greatest number.
fn free_track(tracks: &mut BinaryHeap<(u64, u64)>, x: u64) -> Option<u64> {
    let &(distance, track) = tracks.peek()?;
    if u64::MAX.saturating_sub(distance) > x {
        return None;
    }
    tracks.pop();
    Some(track)
}

impl Page {
    /// Where an event stands.
    fn x(&self, place: u64) -> u64 {
        let part = place.saturating_mul(self.plot).checked_div(self.count);
        part.unwrap_or(0).saturating_add(LEFT)
    }

    /// Draws at most 24 numbers of events, each with a line down the lanes.
    fn number_events(&mut self) -> Result<(), AllocError> {
        let (count, step) = (self.count, self.count / 24 + 1);
        writeln!(
            self.text,
            "<text class=\"lane\" x=\"100\" y=\"220\">A ledger of {count} events</text>"
        )?;
        for i in 0..24u64 {
            let place = step.saturating_mul(i);
            if place < count {
                let x = self.x(place);
                writeln!(
                    self.text,
                    "<path d=\"M{x} 730V9999999\"/><text class=\"faint\" x=\"{x}\" y=\"690\" text-anchor=\"middle\">{place}</text>"
                )?;
            }
        }
        Ok(())
    }

    /// Draws the lane's marks, which stand from `at` on, and tells where the next lane's stand.
    fn draw_lane(&mut self, lane: u64, marks: &[Mark], at: usize) -> Result<usize, AllocError> {
        let top = self.top;
        write!(
            self.text,
            "<g transform=\"translate(0 {top})\"><path d=\"M0 -60H99999\"/><text class=\"lane\" x=\"100\" y=\"135\">"
        )?;
        match lane.checked_sub(1) {
            None => writeln!(self.text, "outer</text>")?,
            Some(stream) => writeln!(self.text, "stream {stream}</text>")?,
        }
        let (mut at, mut count, mut tracks) = (at, 1, BinaryHeap::new(self.alloc));
        tracks.push((u64::MAX, 0))?;
        while at < marks.len() && lane_of(marks[at].by) == lane {
            count = self.draw_mark(marks[at], &mut tracks, count)?;
            at += 1;
        }
        self.top = count
            .saturating_mul(TRACK)
            .saturating_add(top)
            .saturating_add(120);
        writeln!(self.text, "</g>")?;
        Ok(at)
    }

    /// Draws a mark where it and its label are alone on a track, and tells how many tracks there are.
    fn draw_mark(
        &mut self,
        mark: Mark,
        tracks: &mut BinaryHeap<(u64, u64)>,
        count: u64,
    ) -> Result<u64, AllocError> {
        let (end, label) = (end_of(mark), label_of(self.alloc, mark)?);
        let Mark {
            by,
            scope,
            begin,
            ..
        } = mark;
        let last = mark.end.map_or(self.count, |end| end.place);
        let x = self.x(begin);
        let width = self.x(last).saturating_sub(x).max(30);
        let room = (label.len() as u64).saturating_mul(62).max(width);
        let track = free_track(tracks, x).unwrap_or(count);
        tracks.push((u64::MAX - x.saturating_add(room).saturating_add(180), track))?;
        let y = track.saturating_mul(TRACK);
        let shape = match mark.thing {
            Thing::Lease(_) => "y=\"145\" height=\"45\"",
            _ => "y=\"20\" height=\"170\"",
        };
        writeln!(
            self.text,
            "<g class=\"{end}\" transform=\"translate({x} {y})\"><title>{label}: by {by}, scope {scope}, events {begin} to {last}</title><rect {shape} width=\"{width}\" rx=\"15\"/><text x=\"70\" y=\"130\">{label}</text></g>"
        )?;
        Ok(count.max(track.saturating_add(1)))
    }

    /// The whole picture, shown at most 20,000 pixels high.
    fn whole(self, lanes: usize) -> Result<String, AllocError> {
        let (count, height, alloc) = (self.count, self.top, self.alloc);
        let width = self.plot.saturating_add(LEFT).saturating_add(1300);
        let shown = (height / 10).min(20_000);
        let wide = width.saturating_mul(shown).checked_div(height).unwrap_or(0);
        let mut all = format!(in alloc;
            "<svg xmlns=\"http://www.w3.org/2000/svg\" role=\"img\" aria-labelledby=\"title desc\" width=\"{wide}\" height=\"{shown}\" viewBox=\"0 0 {width} {height}\">
<title id=\"title\">A ledger of {count} events by {lanes} streams</title>
<desc id=\"desc\">A lane for each stream. In it a bar for each row, from its Acquire to its Final, a thin bar for each lease, from its Lease to its Cancel, and a tick for each Close of a scope, each with how it ended.</desc>\n"
        )?;
        all.push_str(FRONT)?;
        all.push_str(self.text.as_str())?;
        all.push_str("</svg>\n")?;
        Ok(all)
    }
}
