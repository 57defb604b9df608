//! The word of a chain.
ghost use Rattle.std.specs.Prelude.{◌≡◌, ◌==◌, ◌∷◌, true, option_map, IfOk, IsSome};
ghost use Rattle.std.specs.List.{list_all, position};
ghost use Rattle.chunk_core.specs.Elements.LoadKind.{Bytes};
ghost use Rattle.pipeline_desc.specs.Reading.{ReadsAs};
ghost use Rattle.step_words.specs.Words.{Reads, each_meant, kind_behind, needs_no_table, parts_between, parts_left, steps_of};

use chunk_core::List;
use pipeline_desc::kinds::kind_given;
use pipeline_desc::setting::Setting;
use pipeline_desc::steps::check_steps;
use pipeline_desc::words::step;
use pipeline_desc::{Refused, Step};
use std::alloc::{AllocError, Global};

/// Why there are no steps.
#[derive(Clone, Copy, Debug, PartialEq, Eq)]
pub enum StepsRefused {
    /// Memory was wanting.
    Memory,
    /// A part is no step or looks up in a table, there are more than 16 parts, two of them put a line
    /// between each two, or a step doesn't take the kind that it gets.
    Bad,
}

impl From<AllocError> for StepsRefused {
    ghost use Rattle.std.specs.Prelude.{◌≡◌};
    ghost use Rattle.step_words.specs.declared.word.StepsRefused.TheVariants.{Memory};

    ghost from_gives = { λ _ e. e ≡ Memory };

    fn from(_: AllocError) -> StepsRefused {
        StepsRefused::Memory
    }
}

impl From<Refused> for StepsRefused {
    ghost use Rattle.std.specs.Prelude.{◌≡◌};
    ghost use Rattle.step_words.specs.Words.{refused_as};

    ghost from_gives = { λ r e. e ≡ refused_as r };

    fn from(refused: Refused) -> StepsRefused {
        match refused {
            Refused::Memory => StepsRefused::Memory,
            Refused::Desc(_) => StepsRefused::Bad,
        }
    }
}

/// Where the first bar stands.
fn first_bar(text: &[u8]) -> Option<usize>
    ensures { result ≡ position (λ b. b == 124) text.now }
{
    text.iter().position(|b| *b == b'|')
}

/// A text cut at its first bar: what stands before it, and what stands behind it where there is one.
fn cut(text: &[u8]) -> (&[u8], Option<&[u8]>)
    ensures { parts_between text.now ≡ result.0.now ∷ parts_left (option_map (λ t. t.now) result.1) }
{
    match first_bar(text) {
        Some(at) => (&text[..at], Some(&text[at + 1..])),
        None => (text, None),
    }
}

/// The step of each part of a word that isn't empty.
fn each_step(alloc: Global, word: &[u8]) -> Result<List<Step>, Refused>
    ensures meant { ReadsAs (λ s. s) result (each_meant (parts_between word.now)) }
    ensures tables { IfOk result (λ s. list_all needs_no_table s ≡ true) }
{
    let setting = Setting::of(&[], 0);
    let mut steps = List::new(alloc);
    let mut rest = Some(word);
    'parts: while let Some(text) = rest {
        let (part, behind) = cut(text);
        let step = step(alloc, &setting, part, 0, 0)?;
        steps.push(step)?;
        rest = behind;
    }
    Ok(steps)
}

/// The steps that a word has between its bars, in order, where the first gets bytes; an empty word
/// has none. Each is written as in a description without tables.
pub fn steps(alloc: Global, word: &[u8]) -> Result<List<Step>, StepsRefused>
    ensures meant { Reads result (steps_of word.now) }
    ensures kinds { IfOk result (λ s. IsSome (kind_behind s Bytes)) }
    ensures tables { IfOk result (λ s. list_all needs_no_table s ≡ true) }
{
    if word.is_empty() {
        return Ok(List::new(alloc));
    }
    let steps = each_step(alloc, word)?;
    check_steps(&steps, &None, 0)?;
    kind_given(&steps, &None, 0)?;
    Ok(steps)
}
