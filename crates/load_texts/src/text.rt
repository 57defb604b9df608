//! The text of loads, one behind another.
ghost use Rattle.std.specs.Prelude.{◌≡◌, ◌++◌, ◌∷◌, [], OnOk};
ghost use Rattle.std.specs.List.{flat_map};
ghost use Rattle.chunk_core.specs.Elements.{elements, rendering_of};

use chunk_core::{Line, Load, render};
use std::alloc::{AllocError, Global};

/// Appends lines, each with a line feed behind it.
fn push_lines(text: &mut Vec<u8>, lines: &[Line]) -> Result<(), AllocError>
    ensures { OnOk result (text.new.items ≡ text.old.items ++ flat_map (λ line. line ++ 10 ∷ []) lines.now) }
{
    for line in lines {
        text.extend_from_slice(line.as_slice())?;
        text.push(b'\n')?;
    }
    Ok(())
}

/// Appends the text of a load.
pub fn push_text(alloc: Global, text: &mut Vec<u8>, load: &Load) -> Result<(), AllocError>
    ensures { OnOk result (text.new.items ≡ text.old.items ++ rendering_of (elements load.now)) }
{
    match load {
        Load::Bytes(bytes) => text.extend_from_slice(bytes.as_slice())?,
        Load::Lines(lines) => push_lines(text, lines.as_slice())?,
        Load::Rows(_) => text.extend_from_slice(render(alloc, load)?.as_slice())?,
    }
    Ok(())
}
