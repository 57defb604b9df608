//! What a stream may give, of one file or of two.
use crate::given::{Given, Item, line_of};
use crate::steps::{Tables, through};
use crate::text::Text;
use printed_parts::{End, Fault};
use random_plans::{Join, Kind, Stream};
use std::alloc::{AllocError, Global};

/// How many elements a merge has at most.
const MOST: usize = 16;

/// Both, one behind the other.
fn appended(mut left: Given, right: Given) -> Result<Given, AllocError> {
    if left.end == End::Done {
        left.end = right.end;
        left.bytes.extend_from_slice(&right.bytes)?;
        for item in right.items {
            left.items.push(item)?;
        }
    }
    Ok(left)
}

/// A row of a line of each, until one side ends.
fn zipped(alloc: Global, left: Given, right: Given) -> Result<Given, AllocError> {
    let is_left = left.items.len() <= right.items.len();
    let end = if is_left { left.end } else { right.end };
    let mut items = Vec::new(alloc);
    for (mut item, mut other) in left.items.into_iter().zip(right.items) {
        if let Some(field) = other.pop() {
            item.push(field)?;
        }
        items.push(item)?;
    }
    Ok(Given::of_items(alloc, items, end))
}

/// The elements of both sides in the order that bits tell: the right side's next one where it is 1.
fn in_order(
    alloc: Global,
    left: &[Item],
    right: &[Item],
    order: u32,
    end: End,
) -> Result<Given, AllocError> {
    let mut items = Vec::new(alloc);
    let (mut lefts, mut rights) = (left.iter(), right.iter());
    for turn in 0..MOST {
        let is_right = order & (1u32 << turn) != 0;
        let next = if is_right {
            rights.next()
        } else {
            lefts.next()
        };
        if let Some(item) = next {
            items.push(item.clone()?)?;
        }
    }
    Ok(Given::of_items(alloc, items, end))
}

/// What a stream may print behind its files and its first steps.
#[derive(Drop)]
struct Behind<'a> {
    alloc: Global,
    stream: &'a Stream,
    tables: &'a Tables,
    texts: Vec<Text>,
}

impl Behind<'_> {
    /// Keeps what comes of this, with what stands in for a fault.
    fn keep(&mut self, mut given: Given) -> Result<(), AllocError> {
        let (alloc, kind, body) = (self.alloc, self.stream.kind, given.end);
        if let (Some((_, bytes)), End::Fault(_)) = (self.stream.on_fault, body) {
            given.end = End::Done;
            match kind {
                Kind::Bytes => given.bytes.extend_from_slice(bytes)?,
                Kind::Lines | Kind::Rows => given.items.push(line_of(alloc, bytes)?)?,
            }
        }
        self.texts.push(Text::of(alloc, kind, &given, body)?)?;
        Ok(())
    }

    /// Keeps what comes of this through the steps behind the join.
    fn add(&mut self, given: Given) -> Result<(), AllocError> {
        let given = through(self.alloc, &self.stream.after, given, self.tables)?;
        self.keep(given)
    }

    /// Keeps what comes of all orders of these elements.
    fn add_orders(&mut self, left: &[Item], right: &[Item], end: End) -> Result<(), AllocError> {
        let all = left.len().saturating_add(right.len()).min(MOST);
        for order in 0..1u32 << all {
            if order.count_ones() as usize == right.len() {
                self.add(in_order(self.alloc, left, right, order, end)?)?;
            }
        }
        Ok(())
    }

    /// Keeps what comes of all of one side, whose end is this, and each front of the other.
    fn add_fronts(&mut self, whole: &Given, other: &[Item]) -> Result<(), AllocError> {
        for count in 0..=other.len() {
            let front = other.get(..count).unwrap_or(other);
            self.add_orders(&whole.items, front, whole.end)?;
        }
        Ok(())
    }

    /// Keeps what comes of all orders of two sides.
    fn add_merges(&mut self, left: &Given, right: &Given) -> Result<(), AllocError> {
        if left.end == End::Done && right.end == End::Done {
            return self.add_orders(&left.items, &right.items, End::Done);
        }
        if left.end != End::Done {
            self.add_fronts(left, &right.items)?;
        }
        if right.end != End::Done {
            self.add_fronts(right, &left.items)?;
        }
        Ok(())
    }

    /// Keeps what comes of what both files gave.
    fn add_joined(&mut self, join: Join, left: Given, right: Given) -> Result<(), AllocError> {
        match join {
            Join::Append => self.add(appended(left, right)?),
            Join::Zip => self.add(zipped(self.alloc, left, right)?),
            Join::Merge => self.add_merges(&left, &right),
        }
    }
}

fn is_unopened(given: &Given) -> bool {
    given.end == End::Fault(Fault::Open)
}

/// All that a stream may print which reads these.
pub fn texts_of(
    alloc: Global,
    stream: &Stream,
    tables: &Tables,
    left: Given,
    right: Option<Given>,
) -> Result<Vec<Text>, AllocError> {
    let mut behind = Behind {
        alloc,
        stream,
        tables,
        texts: Vec::new(alloc),
    };
    if is_unopened(&left) || right.as_ref().is_some_and(is_unopened) {
        behind.keep(Given::nothing(alloc, End::Fault(Fault::Open)))?;
        return Ok(behind.texts);
    }
    let left = through(alloc, &stream.steps, left, tables)?;
    match (stream.second, right) {
        (Some((join, _)), Some(right)) => {
            let right = through(alloc, &stream.steps, right, tables)?;
            behind.add_joined(join, left, right)?;
        }
        _ => behind.add(left)?,
    }
    Ok(behind.texts)
}
