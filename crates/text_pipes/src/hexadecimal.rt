//! Bytes as lines of hexadecimal digits.
ghost use Rattle.std.specs.Prelude.{◌≡◌, ◌++◌, ◌<◌, [], IfOk, OnOk, length, vec_len};
ghost use Rattle.chunk_core.specs.Feed.{Meaning};
ghost use Rattle.pull_nodes.specs.Pipes.{IsMeaningOf};
ghost use Rattle.pull_nodes.specs.Hex.{hex_line, hex_lines};
ghost use Rattle.pull_nodes.specs.Plain.{ungrouped};
ghost use Rattle.pull_nodes.specs.declared.pipe.Pipe.TheVariants as pipe;
ghost use Rattle.text_pipes.specs.HexState.{StandsFor};

use crate::loads::{into_bytes, one_line};
use chunk_core::{Fed, Feed, Line, Load, Spare};
use std::alloc::{AllocError, Global};

/// The bytes of a line.
const GROUP: usize = 16;

/// The digits of a line.
const DIGITS: usize = 32;

/// `Hex`: the bytes behind the last whole group.
#[derive(Drop)]
pub struct HexPipe {
    held: Vec<u8>,
    spare: Spare,
}

fn line_of(alloc: Global, bytes: &[u8]) -> Result<Line, AllocError>
    ensures { IfOk result (λ line. line ≡ hex_line bytes.now) }
{
    Ok(Line::of_vec(hex::encode(alloc, bytes)?.into_bytes()))
}

/// The line of a whole group.
fn group_line(alloc: Global, spare: &mut Spare, group: &[u8]) -> Result<Line, AllocError>
    requires { length group.now ≡ 16 }
    ensures { IfOk result (λ line. line ≡ hex_line group.now) }
{
    let mut digits = [0; DIGITS];
    match hex::encode_to_slice(group, &mut digits) {
        Ok(()) => spare.line(alloc, &digits),
        Err(_) => unreachable!(),
    }
}

/// Appends a line for each whole group, and answers the bytes behind the last one.
fn push_groups<'a>(
    alloc: Global,
    spare: &mut Spare,
    bytes: &'a [u8],
    lines: &mut Vec<Line>,
) -> Result<&'a [u8], AllocError>
    ensures lines { OnOk result (lines.new.items ≡ lines.old.items ++ hex_lines bytes.entry.now) }
    ensures rest { IfOk result (λ rest. rest.now ≡ ungrouped 16 bytes.entry.now) }
{
    let mut left = bytes;
    'groups: while left.len() >= GROUP {
        let (group, more) = left.split_at(GROUP);
        lines.push(group_line(alloc, spare, group)?)?;
        left = more;
    }
    Ok(left)
}

impl HexPipe {
    /// No byte was read.
    pub fn new(alloc: Global) -> Result<HexPipe, AllocError>
        ensures { IfOk result (λ q. (m : Meaning) → IsMeaningOf pipe.Hex m → StandsFor q m []) }
    {
        Ok(HexPipe {
            held: Vec::new(alloc),
            spare: Spare::new(alloc),
        })
    }

    /// The lines of the groups that are now whole.
    fn take(&mut self, alloc: Global, bytes: &[u8]) -> Result<Vec<Line>, AllocError>
        requires { vec_len self.old.held < 16 }
        ensures lines { IfOk result (λ lines. lines.items ≡ hex_lines (self.old.held.items ++ bytes.now)) }
        ensures held { OnOk result (self.new.held.items ≡ ungrouped 16 (self.old.held.items ++ bytes.now)) }
    {
        let wanted = GROUP - self.held.len();
        if bytes.len() < wanted {
            self.held.extend_from_slice(bytes)?;
            return Ok(Vec::new(alloc));
        }
        let (front, more) = bytes.split_at(wanted);
        self.held.extend_from_slice(front)?;
        let mut lines = Vec::with_capacity(alloc, more.len() / GROUP + 1)?;
        lines.push(group_line(alloc, &mut self.spare, self.held.as_slice())?)?;
        let rest = push_groups(alloc, &mut self.spare, more, &mut lines)?;
        self.held.clear();
        self.held.extend_from_slice(rest)?;
        Ok(lines)
    }
}

impl Feed for HexPipe {
    ghost use Rattle.std.specs.Prelude.{refl};
    ghost use Rattle.pull_nodes.specs.declared.pipe.Pipe.TheVariants as pipe;
    ghost use Rattle.pull_nodes.proofs.Meanings.{sound_from};
    ghost use Rattle.text_pipes.specs.HexState.{StandsFor, Comes};

    ghost stands = { StandsFor };

    ghost comes = { Comes };

    ghost sound = { λ q m xs h. sound_from pipe.Hex m h.0 xs refl };

    fn feed(&mut self, alloc: Global, load: Load) -> Result<Fed, AllocError> {
        let bytes = into_bytes(load);
        self.spare.regain();
        let lines = self.take(alloc, bytes.as_slice())?;
        Ok(Fed::Out(Load::Lines(self.spare.give(alloc, lines)?)))
    }

    fn finish(&mut self, alloc: Global) -> Result<Fed, AllocError> {
        if self.held.is_empty() {
            return Ok(Fed::End);
        }
        let line = line_of(alloc, self.held.as_slice())?;
        self.held.clear();
        Ok(Fed::Out(one_line(alloc, line)?))
    }
}
