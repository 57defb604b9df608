//! The text of lines that are gathered for a group.
ghost use Rattle.std.specs.Prelude.{◌≡◌, ◌+◌, ◌-◌, ◌≤◌, ◌++◌, [], OnOk, IfOk, drop, length, map, take};
ghost use Rattle.chunk_core.specs.Elements.{Byte, Line as ALine, elements, rendering_of};

use chunk_core::{Chunk, Line, Load};
use load_texts::push_text;
use std::alloc::{AllocError, Global};
use std::mem;

/// The text of the lines that were gathered for the next group, how many they are, and the lines that wait behind them.
#[derive(Drop)]
pub(crate) struct Gathering {
    alloc: Global,
    pub(crate) text: Vec<u8>,
    pub(crate) count: usize,
    pub(crate) lines: Chunk<Line>,
}

impl Gathering {
    /// Nothing was gathered, and nothing waits.
    pub(crate) fn new(alloc: Global) -> Gathering
        ensures text { result.text.items ≡ [] }
        ensures count { result.count ≡ 0 }
        ensures lines { result.lines ≡ [] }
    {
        Gathering {
            alloc,
            text: Vec::new(alloc),
            count: 0,
            lines: Chunk::empty(),
        }
    }

    /// Gathers lines that wait, until there are so many. The last of them lets go of their memory.
    pub(crate) fn gather(&mut self, size: usize) -> Result<(), AllocError>
        requires small { self.old.count ≤ size }
        ensures text { OnOk result (self.new.text.items ≡ self.old.text.items ++ rendering_of (map ALine (take (size - self.old.count) self.old.lines))) }
        ensures count { OnOk result (self.new.count ≡ self.old.count + length (take (size - self.old.count) self.old.lines)) }
        ensures lines { OnOk result (self.new.lines ≡ drop (size - self.old.count) self.old.lines) }
    {
        let front = self.lines.split(size - self.count)?;
        self.count += front.len();
        push_text(self.alloc, &mut self.text, &Load::Lines(front))?;
        if self.lines.is_empty() {
            self.lines = Chunk::empty();
        }
        Ok(())
    }

    /// The text of the lines that were gathered. From then on those of the next group are.
    pub(crate) fn cut(&mut self) -> Result<Load, AllocError>
        ensures load { IfOk result (λ load. elements load ≡ map Byte self.old.text.items) }
        ensures text { OnOk result (self.new.text.items ≡ []) }
        ensures count { OnOk result (self.new.count ≡ 0) }
        ensures lines { OnOk result (self.new.lines ≡ self.old.lines) }
    {
        let room = Vec::with_capacity(self.alloc, self.text.len())?;
        let text = mem::replace(&mut self.text, room);
        self.count = 0;
        Ok(Load::Bytes(Chunk::of_vec(self.alloc, text)?))
    }
}
