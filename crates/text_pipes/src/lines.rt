//! Lines of bytes.
ghost use Rattle.std.specs.Prelude.{◌≡◌, ◌++◌, ◌<◌, ◌==◌, ◌&&◌, [], length, option_map, IfOk};
ghost use Rattle.chunk_core.specs.Feed.{Meaning};
ghost use Rattle.pull_nodes.specs.Lines.{IsFree};
ghost use Rattle.pull_nodes.specs.Pipes.{IsMeaningOf};
ghost use Rattle.pull_nodes.specs.declared.pipe.Pipe.TheVariants as pipe;
ghost use Rattle.text_pipes.specs.LinesState.{StandsFor, StopsAtEnd, TakesBytes, Stepped};

use crate::loads::{into_bytes, one_line};
use chunk_core::{Code, Fed, Feed, Line, Load, Spare};
use std::alloc::{AllocError, Global};
use std::mem;

/// The most bytes of a line without its end.
const LONGEST: usize = 1_048_576;

/// `Lines`: what is open of a line, and whether the last byte was a CR.
#[derive(Drop)]
pub struct LinesPipe {
    held: Vec<u8>,
    after_cr: bool,
    spare: Spare,
}

/// The front of the bytes that has no line end, and the rest.
fn split_front(bytes: &[u8]) -> (&[u8], &[u8])
    ensures whole { result.0.now ++ result.1.now ≡ bytes.now }
    ensures free { IsFree result.0.now }
    ensures stops { StopsAtEnd result.1.now }
{
    match memchr::memchr2(b'\r', b'\n', bytes) {
        Some(at) => bytes.split_at(at),
        None => (bytes, &[]),
    }
}

/// Whether a line end is the LF of a CR before it.
fn is_pair(after_cr: bool, front: &[u8], end: u8) -> bool
    ensures { result ≡ ((after_cr && (length front.now == 0)) && (end == 10)) }
{
    after_cr && front.is_empty() && end == b'\n'
}

impl LinesPipe {
    /// No byte was read.
    pub fn new(alloc: Global) -> Result<LinesPipe, AllocError>
        ensures { IfOk result (λ q. (m : Meaning) → IsMeaningOf pipe.Lines m → StandsFor q m []) }
    {
        Ok(LinesPipe {
            held: Vec::new(alloc),
            after_cr: false,
            spare: Spare::new(alloc),
        })
    }

    /// Takes the bytes up to the first line end. None where the line is too long.
    fn step<'a>(
        &mut self,
        alloc: Global,
        bytes: &'a [u8],
        lines: &mut Vec<Line>,
    ) -> Result<Option<&'a [u8]>, AllocError>
        requires { 0 < length bytes.now }
        ensures { IfOk result (λ o. Stepped self.old bytes.entry.now lines.old.items lines.new.items self.new (option_map (λ s. s.now) o)) }
    {
        let (front, more) = split_front(bytes);
        if self.held.len().saturating_add(front.len()) > LONGEST {
            return Ok(None);
        }
        match more.split_first() {
            None => {
                self.held.extend_from_slice(front)?;
                self.after_cr = false;
                Ok(Some(more))
            }
            Some((end, after)) => {
                if is_pair(self.after_cr, front, *end) {
                    self.after_cr = false;
                    return Ok(Some(after));
                }
                self.held.extend_from_slice(front)?;
                let line = mem::replace(&mut self.held, self.spare.empty(alloc));
                lines.push(Line::of_vec(line))?;
                self.after_cr = *end == b'\r';
                Ok(Some(after))
            }
        }
    }

    /// The lines that end in these bytes, and whether a line is too long.
    fn take(&mut self, alloc: Global, bytes: &[u8]) -> Result<(Vec<Line>, bool), AllocError>
        ensures { IfOk result (λ p. TakesBytes self.old bytes.now p.0.items p.1 self.new) }
    {
        let mut lines = Vec::new(alloc);
        let mut left = bytes;
        'steps: while !left.is_empty() {
            match self.step(alloc, left, &mut lines)? {
                Some(more) => left = more,
                None => return Ok((lines, true)),
            }
        }
        Ok((lines, false))
    }
}

impl Feed for LinesPipe {
    ghost use Rattle.std.proofs.Common.{ap};
    ghost use Rattle.pull_nodes.specs.Lines.{long_fault};
    ghost use Rattle.pull_nodes.specs.declared.pipe.Pipe.TheVariants as pipe;
    ghost use Rattle.pull_nodes.proofs.Meanings.{sound_from};
    ghost use Rattle.text_pipes.specs.LinesState.{StandsFor, Comes};

    ghost stands = { StandsFor };

    ghost comes = { Comes };

    ghost sound = { λ q m xs h. sound_from pipe.Lines m h.0 xs (ap long_fault h.1.short) };

    fn feed(&mut self, alloc: Global, load: Load) -> Result<Fed, AllocError> {
        let bytes = into_bytes(load);
        self.spare.regain();
        let (lines, long) = self.take(alloc, bytes.as_slice())?;
        let given = Load::Lines(self.spare.give(alloc, lines)?);
        if long {
            return Ok(Fed::Fault(given, Code::LongLine));
        }
        Ok(Fed::Out(given))
    }

    fn finish(&mut self, alloc: Global) -> Result<Fed, AllocError> {
        if self.held.is_empty() {
            return Ok(Fed::End);
        }
        let line = Line::of_vec(mem::replace(&mut self.held, Vec::new(alloc)));
        Ok(Fed::Out(one_line(alloc, line)?))
    }
}
