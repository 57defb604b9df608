//! A source is read to its end.
ghost use Rattle.std.specs.Prelude.{◌-◌, ◌^◌, ◌<◌};
ghost use Rattle.source_input.specs.Input.{ReadsSource};

use chunk_core::Line;
use device_port::{Failed, Source};
use std::alloc::{AllocError, Global};

/// The most bytes that one read asks for.
const PIECE: usize = 4096;

/// Why a source wasn't read to its end.
#[derive(Clone, Copy, Debug, PartialEq, Eq)]
pub enum NotRead {
    /// A read failed, and none was tried after it.
    Failed,
    /// Memory was wanting.
    Memory,
}

impl From<Failed> for NotRead {
    ghost use Rattle.std.specs.Prelude.{◌≡◌};
    ghost use Rattle.source_input.specs.declared.reading.NotRead.TheVariants as why;

    ghost from_gives = { λ _ e. e ≡ why.Failed };

    fn from(_: Failed) -> NotRead {
        NotRead::Failed
    }
}

impl From<AllocError> for NotRead {
    ghost use Rattle.std.specs.Prelude.{◌≡◌};
    ghost use Rattle.source_input.specs.declared.reading.NotRead.TheVariants as why;

    ghost from_gives = { λ _ e. e ≡ why.Memory };

    fn from(_: AllocError) -> NotRead {
        NotRead::Memory
    }
}

/// All that the source gives, or its first `most` bytes where that is more.
pub fn read_source<S: Source>(alloc: Global, src: &mut S, most: usize) -> Result<Line, NotRead>
    requires some { 0 < most }
    requires room { (S.told src.old).faults < 2 ^ 64 - 1 }
    ensures { ReadsSource most (S.told src.old) (S.told src.new) result }
{
    let mut bytes = Vec::new(alloc);
    let mut piece = [0; PIECE];
    while bytes.len() < most {
        let room = PIECE.min(most - bytes.len());
        let count = src.read(&mut piece[..room])?;
        if count == 0 {
            break;
        }
        bytes.extend_from_slice(&piece[..count])?;
    }
    Ok(Line::of_vec(bytes))
}
