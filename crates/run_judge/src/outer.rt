//! What comes of the tables, the groups and the list.
use printed_parts::{End, Fault, What};
use random_files::File;
use random_plans::{Listing, Plan, Stream};
use slow_streams::{Item, Tables, lines_in, read_of, table_of};
use std::alloc::{AllocError, Global};

/// How many bytes of a table's file or of a list are read at a time.
const PIECE: usize = 4_096;

/// The most bytes of a path.
const PATH: usize = 1_024;

/// What the tables say, the lines of the list that may be given streams, and how the outer stream ends for them where nothing else stops it;
/// and what it notes until then, but for Finals and Cancels.
#[derive(Drop)]
pub(crate) struct Outer {
    pub(crate) tables: Tables,
    pub(crate) lines: Vec<Vec<u8>>,
    pub(crate) end: End,
    pub(crate) notes: Vec<What>,
}

/// Reads a table: its rows, or how the outer stream ends for it.
fn read_table(alloc: Global, file: &File) -> Result<Result<Vec<Item>, Fault>, AllocError> {
    let given = read_of(alloc, file, PIECE)?;
    match given.end {
        End::Fault(fault) => Ok(Err(fault)),
        _ => table_of(alloc, &given.bytes),
    }
}

impl Outer {
    /// Reads the tables of these numbers in a scope, until one can't be read.
    fn read_tables(
        &mut self,
        alloc: Global,
        plan: &Plan,
        files: &[File],
        scope: usize,
        (first, behind): (usize, usize),
    ) -> Result<(), AllocError> {
        for number in first..behind {
            let place = plan.tables.get(number);
            let Some(file) = place.and_then(|place| files.get(*place)) else {
                break;
            };
            if file.can_open(false) {
                self.notes.push(What::Acquire(number, scope))?;
            }
            match read_table(alloc, file)? {
                Ok(rows) => self.tables.push(rows)?,
                Err(fault) => {
                    self.end = End::Fault(fault);
                    break;
                }
            }
        }
        Ok(())
    }

    /// Leases a scope for the streams of these numbers, unless a fault came before.
    fn lease(&mut self, scope: usize, first: usize, behind: usize) -> Result<(), AllocError> {
        for k in first..behind {
            self.notes.push(What::Lease(k, scope))?;
        }
        Ok(())
    }

    /// The groups, one after the other, until a table can't be read.
    fn add_groups(&mut self, alloc: Global, plan: &Plan, files: &[File]) -> Result<(), AllocError> {
        for (place, group) in plan.groups.iter().enumerate() {
            if self.end.is_fault() {
                break;
            }
            let scope = place.saturating_add(1);
            self.notes.push(What::OpenScope(scope, 0))?;
            self.read_tables(alloc, plan, files, scope, group.tables)?;
            if !self.end.is_fault() {
                self.lease(scope, group.streams.0, group.streams.1)?;
                self.notes.push(What::Close(scope, "succeeded"))?;
            }
        }
        Ok(())
    }

    /// The list behind the last group.
    fn add_list(
        &mut self,
        alloc: Global,
        plan: &Plan,
        files: &[File],
        list: &Listing,
    ) -> Result<(), AllocError> {
        let (scope, count) = (plan.groups.len().saturating_add(1), plan.streams.len());
        self.notes.push(What::OpenScope(scope, 0))?;
        let Some(file) = files.get(list.path) else {
            return Ok(());
        };
        if file.can_open(false) {
            let row = plan.tables.len();
            self.notes.push(What::Acquire(row, scope))?;
        }
        let given = lines_in(alloc, read_of(alloc, file, PIECE)?)?;
        self.end = given.end;
        self.take_lines(alloc, plan, files, list, &given.items)?;
        let behind = count.saturating_add(self.lines.len());
        self.lease(scope, count, behind)?;
        if !self.end.is_fault() {
            self.notes.push(What::Close(scope, "succeeded"))?;
        }
        Ok(())
    }

    /// Keeps the lines that may be given streams.
    fn take_lines(
        &mut self,
        alloc: Global,
        plan: &Plan,
        files: &[File],
        list: &Listing,
        items: &[Item],
    ) -> Result<(), AllocError> {
        for item in items {
            let line = item.first().map_or(b"".as_slice(), |line| line.as_slice());
            if self.lines.len() >= list.most() {
                self.end = End::Fault(Fault::TooMany);
                break;
            }
            if line.is_empty() || line.len() > PATH || is_output(plan, files, line) {
                self.end = End::Fault(Fault::BadPath);
                break;
            }
            self.lines.push(Vec::from_slice(alloc, line)?)?;
        }
        Ok(())
    }
}

/// Whether a stream of the description writes to this path.
fn is_output(plan: &Plan, files: &[File], path: &[u8]) -> bool {
    let mut outputs = plan.streams.iter().filter_map(|stream| stream.to);
    outputs.any(|to| files
        .get(to)
        .is_some_and(|file| file.path.as_bytes() == path))
}

/// What the outer stream of a description does where nothing stops it but its own faults.
pub(crate) fn outer_of(alloc: Global, plan: &Plan, files: &[File]) -> Result<Outer, AllocError> {
    let mut outer = Outer {
        tables: Vec::new(alloc),
        lines: Vec::new(alloc),
        end: End::Done,
        notes: Vec::new(alloc),
    };
    outer.read_tables(alloc, plan, files, 0, (0, plan.top_tables()))?;
    if outer.end.is_fault() {
        return Ok(outer);
    }
    outer.lease(0, 0, plan.top_streams())?;
    outer.add_groups(alloc, plan, files)?;
    if let (false, Some(list)) = (outer.end.is_fault(), &plan.list) {
        outer.add_list(alloc, plan, files, list)?;
    }
    Ok(outer)
}

/// The streams of the first so many lines of the list.
pub(crate) fn listed_of(
    alloc: Global,
    plan: &Plan,
    files: &[File],
    outer: &Outer,
    count: usize,
) -> Result<Vec<Stream>, AllocError> {
    let mut streams = Vec::new(alloc);
    let Some(list) = &plan.list else {
        return Ok(streams);
    };
    for line in outer.lines.iter().take(count) {
        let place = files
            .iter()
            .position(|file| file.path.as_bytes() == line.as_slice());
        streams.push(list.stream(alloc, place.unwrap_or(usize::MAX))?)?;
    }
    Ok(streams)
}
