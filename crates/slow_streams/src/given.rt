//! What a file or a step gives.
use device_port::Act;
use printed_parts::{End, Fault};
use random_files::File;
use std::alloc::{AllocError, Global};

/// A line, which has one field, or a row.
pub type Item = Vec<Vec<u8>>;

/// Elements, of bytes in `bytes` and else in `items`, and how they ended.
#[derive(Drop)]
pub struct Given {
    pub bytes: Vec<u8>,
    pub items: Vec<Item>,
    pub end: End,
}

impl Given {
    pub fn of_bytes(alloc: Global, bytes: &[u8], end: End) -> Result<Given, AllocError> {
        Ok(Given {
            bytes: Vec::from_slice(alloc, bytes)?,
            items: Vec::new(alloc),
            end,
        })
    }

    pub(crate) fn of_items(alloc: Global, items: Vec<Item>, end: End) -> Given {
        Given {
            bytes: Vec::new(alloc),
            items,
            end,
        }
    }

    pub fn nothing(alloc: Global, end: End) -> Given {
        Given::of_items(alloc, Vec::new(alloc), end)
    }

    /// How many elements there are.
    pub(crate) fn count(&self) -> usize {
        self.bytes.len().saturating_add(self.items.len())
    }
}

/// A line of its bytes.
pub(crate) fn line_of(alloc: Global, bytes: &[u8]) -> Result<Item, AllocError> {
    Ok(vec![in alloc; Vec::from_slice(alloc, bytes)?]?)
}

/// How many bytes of a file are read, and how that ends.
fn read_to(file: &File, length: usize, piece: usize) -> (usize, End) {
    if !file.can_open(false) {
        return (0, End::Fault(Fault::Open));
    }
    if let Some((Act::Read, nth)) = file.trip {
        let before = (nth as usize).saturating_sub(1);
        if before <= length.div_ceil(piece.max(1)) {
            return (
                before.saturating_mul(piece).min(length),
                End::Fault(Fault::Read),
            );
        }
    }
    (length, End::Done)
}

/// What a file gives that is read in pieces.
pub fn read_of(alloc: Global, file: &File, piece: usize) -> Result<Given, AllocError> {
    let content = match &file.content {
        Some(content) => content.as_slice(),
        None => b"",
    };
    let (length, end) = read_to(file, content.len(), piece);
    Given::of_bytes(alloc, content.get(..length).unwrap_or(content), end)
}
