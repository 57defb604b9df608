//! Descriptions at random.
use crate::listing::list_of;
use crate::plan::{Group, Join, Plan, StandIn, Stream};
use crate::steps::{Kind, Name, Step, add_steps};
use device_port::Act;
use random_files::{Dice, File, Flavour, add, add_file, trip_of};
use std::alloc::AllocError;

pub(crate) const STAND_INS: [StandIn; 5] = [
    ("'lost'", b"lost"),
    ("''", b""),
    ("\"a,b\"", b"a,b"),
    ("\"q\\\"q\"", b"q\"q"),
    ("\"\\u00e9\\n\"", b"\xc3\xa9\n"),
];

const KEYS: [&str; 11] = ["k", "v", "z", "0", "1", "9", "kv", "01", "\"\"", "a", "b"];

/// The place of a file that is to be read: mostly a new one, else one that is there.
fn source_of(
    dice: &mut Dice,
    files: &mut Vec<File>,
    flavour: Flavour,
) -> Result<usize, AllocError> {
    let place = dice.below(files.len());
    let is_read = files
        .get(place)
        .is_some_and(|file| file.path.as_str().starts_with('f'));
    if is_read && flavour != Flavour::Small && dice.chance(4) {
        return Ok(place);
    }
    add_file(dice, files, flavour)
}

/// The place of a new file that is written, mostly none.
pub fn target_of(dice: &mut Dice, files: &mut Vec<File>) -> Result<Option<usize>, AllocError> {
    if !dice.chance(6) {
        return Ok(None);
    }
    let held = Vec::from_slice(dice.alloc, b"what it held before\n")?;
    let content = dice.chance(4).then_some(held);
    let trip = trip_of(dice, Act::Write, 12);
    Ok(Some(add(dice, files, "to", content, trip)?))
}

/// A join that takes this kind, mostly none.
fn join_of(dice: &mut Dice, kind: Kind) -> Option<Join> {
    let join = match (dice.below(3), kind) {
        (0, _) => Join::Append,
        (1, Kind::Lines) => Join::Zip,
        (2, Kind::Lines | Kind::Rows) => Join::Merge,
        _ => return None,
    };
    dice.chance(2).then_some(join)
}

/// What the contents of a stream are like that has these steps and this join.
pub(crate) fn flavour_of(dice: &mut Dice, steps: &[Step], join: Option<Join>) -> Flavour {
    let has_records = steps.iter().any(|step| step.name == Name::Csv);
    if join == Some(Join::Merge) {
        Flavour::Small
    } else if has_records && !dice.chance(8) {
        Flavour::Records
    } else {
        Flavour::Any
    }
}

/// The stream of this number of so many.
fn stream_of(
    dice: &mut Dice,
    files: &mut Vec<File>,
    k: usize,
    count: usize,
    tables: &[usize],
) -> Result<Stream, AllocError> {
    let (mut steps, mut after) = (Vec::new(dice.alloc), Vec::new(dice.alloc));
    let mut kind = add_steps(dice, &mut steps, &[], Kind::Bytes, 5, tables)?;
    let join = join_of(dice, kind);
    let flavour = flavour_of(dice, &steps, join);
    let path = source_of(dice, files, flavour)?;
    let mut second = None;
    if let Some(join) = join {
        second = Some((join, source_of(dice, files, flavour)?));
        let given = if join == Join::Zip { Kind::Rows } else { kind };
        kind = add_steps(dice, &mut after, &steps, given, 4, tables)?;
    }
    let (stand_in, other) = (dice.pick(&STAND_INS), dice.below(count));
    Ok(Stream {
        path,
        steps,
        second,
        after,
        on_fault: dice.chance(4).then_some(stand_in),
        to: target_of(dice, files)?,
        until: (other != k && dice.chance(6)).then_some(other),
        kind,
    })
}

/// A table's records: the keys and a value of each, seldom something else.
fn table_content(dice: &mut Dice) -> Result<Vec<u8>, AllocError> {
    let mut text = String::new(dice.alloc);
    let width = dice.pick(&[2, 2, 2, 2, 2, 2, 2, 2, 3, 3, 3, 1]);
    for place in 0..dice.few(8) {
        let key = dice.pick(&KEYS);
        text.push_str(key)?;
        if width > 1 {
            write!(text, ",w{key}{place}")?;
        }
        if width > 2 || dice.chance(90) {
            text.push_str(",more")?;
        }
        text.push('\n')?;
    }
    Ok(text.into_bytes())
}

/// Appends the file of a table: its place.
fn add_table(dice: &mut Dice, files: &mut Vec<File>) -> Result<usize, AllocError> {
    let content = table_content(dice)?;
    let is_there = !dice.chance(40);
    let trip = trip_of(dice, Act::Read, 120);
    add(dice, files, "t", is_there.then_some(content), trip)
}

/// One of these, or none.
pub(crate) fn some_of(dice: &mut Dice, one_in: usize, numbers: &[usize; 4]) -> Option<usize> {
    let number = dice.pick(numbers);
    dice.chance(one_in).then_some(number)
}

/// The most bytes of one read, so that a file is read in at most some hundred pieces.
fn chunk_of(dice: &mut Dice, files: &[File]) -> Option<usize> {
    let chunk = dice.pick(&[1, 2, 3, 7, 16, 100, 4_096, 65_536]);
    let longest = files.iter().map(|file| file.length()).max().unwrap_or(0);
    dice.chance(2)
        .then_some(chunk.max((longest >> 8) + 1).min(65_536))
}

/// A random plan as far as it is drawn, and how many streams it is to have in all.
#[derive(Drop)]
struct Drawn {
    tables: Vec<usize>,
    streams: Vec<Stream>,
    groups: Vec<Group>,
    count: usize,
}

impl Drawn {
    /// Appends streams up to this number, which look up in these tables.
    fn add_streams(
        &mut self,
        dice: &mut Dice,
        files: &mut Vec<File>,
        tables: &[usize],
        behind: usize,
    ) -> Result<(), AllocError> {
        for k in self.streams.len()..behind {
            let stream = stream_of(dice, files, k, self.count, tables)?;
            self.streams.push(stream)?;
        }
        Ok(())
    }

    /// Appends the tables of a group, and says which streams it has.
    fn add_group(&mut self, dice: &mut Dice, files: &mut Vec<File>) -> Result<(), AllocError> {
        let (first, behind) = (self.tables.len(), self.count.saturating_add(dice.few(3)));
        for _ in 0..dice.few(2).min(7usize.saturating_sub(first)) {
            self.tables.push(add_table(dice, files)?)?;
        }
        self.groups.push(Group {
            tables: (first, self.tables.len()),
            streams: (self.count, behind),
        })?;
        self.count = behind;
        Ok(())
    }

    /// Appends the streams of each group, which look up in its own tables and those of the top.
    fn add_grouped(
        &mut self,
        dice: &mut Dice,
        files: &mut Vec<File>,
        top: &[usize],
    ) -> Result<(), AllocError> {
        for place in 0..self.groups.len() {
            let Some(group) = self.groups.get(place).copied() else {
                break;
            };
            let mut tables = Vec::from_slice(dice.alloc, top)?;
            for table in group.tables.0..group.tables.1 {
                tables.push(table)?;
            }
            self.add_streams(dice, files, &tables, group.streams.1)?;
        }
        Ok(())
    }
}

/// How many streams the top has, mostly a few.
fn top_count(dice: &mut Dice) -> usize {
    if dice.chance(12) {
        dice.below(41)
    } else {
        dice.few(6)
    }
}

/// The tables, streams and groups of a description.
fn drawn_of(
    dice: &mut Dice,
    files: &mut Vec<File>,
    groups: usize,
) -> Result<(Drawn, Vec<usize>), AllocError> {
    let mut drawn = Drawn {
        tables: Vec::new(dice.alloc),
        streams: Vec::new(dice.alloc),
        groups: Vec::new(dice.alloc),
        count: top_count(dice),
    };
    let (mut top, behind) = (Vec::new(dice.alloc), drawn.count);
    for table in 0..dice.few(3) {
        drawn.tables.push(add_table(dice, files)?)?;
        top.push(table)?;
    }
    for _ in 0..groups {
        drawn.add_group(dice, files)?;
    }
    drawn.add_streams(dice, files, &top, behind)?;
    drawn.add_grouped(dice, files, &top)?;
    Ok((drawn, top))
}

/// A random description, whose files are appended.
pub fn plan_of(dice: &mut Dice, files: &mut Vec<File>) -> Result<Plan, AllocError> {
    let is_second = dice.chance(3);
    let most = if dice.chance(12) { 12 } else { 3 };
    let groups = if is_second { dice.few(most) } else { 0 };
    let (drawn, top) = drawn_of(dice, files, groups)?;
    let list = if is_second && dice.chance(2) {
        Some(list_of(dice, files, &top)?)
    } else {
        None
    };
    let take = dice.few(12);
    Ok(Plan {
        is_second,
        max_open: some_of(dice, 2, &[1, 1, 3, 64]),
        queue: some_of(dice, 2, &[1, 1, 2, 64]),
        chunk: chunk_of(dice, files),
        take: dice.chance(6).then_some(take),
        told_open: some_of(dice, 4, &[1, 2, 7, 64]),
        tables: drawn.tables,
        streams: drawn.streams,
        groups: drawn.groups,
        list,
    })
}
