//! What is wanted of a pipe over an input in pieces.
use crate::asserts::{holds, same_at};
use crate::feeding::{Made, Recipe, Told, answers, stay};
use std::alloc::AllocError;
use std::fmt::Debug;
use std::process::Abort;

/// What is wanted of a pipe: the text and no fault, and where they matter the lengths of the loads
/// that aren't empty, and how much of the text comes before the end is told.
#[derive(Clone, Copy)]
pub(crate) struct Wanted<'a> {
    text: &'a [u8],
    lens: Option<&'a [usize]>,
    early: Option<usize>,
}

/// This text and no fault.
pub(crate) fn text(text: &[u8]) -> Wanted<'_> {
    Wanted {
        text,
        lens: None,
        early: None,
    }
}

impl<'a> Wanted<'a> {
    /// In loads of these lengths.
    pub(crate) fn in_loads(mut self, lens: &'a [usize]) -> Wanted<'a> {
        self.lens = Some(lens);
        self
    }

    /// So much of it before the end is told.
    pub(crate) fn early(mut self, early: usize) -> Wanted<'a> {
        self.early = Some(early);
        self
    }

    fn compare_told(self, rt: &(impl Abort + AllocGlobal), told: &Told, place: &impl Debug) {
        same_at(rt, told.text.as_slice(), self.text, place);
        same_at(rt, told.fault, None, place);
        if let Some(lens) = self.lens {
            same_at(rt, told.lens.as_slice(), lens, place);
        }
        if let Some(early) = self.early {
            same_at(rt, told.early, early, place);
        }
    }
}

/// Fails the test unless the pipe gives this of the pieces.
pub(crate) fn pieces_give<M: Made, R: Recipe<M>>(
    rt: &(impl Abort + AllocGlobal),
    recipe: &R,
    pieces: &[&[&[u8]]],
    wanted: Wanted,
) -> Result<(), AllocError> {
    let alloc = rt.alloc();
    let told = answers::<M, R::Pipe>(alloc, recipe.pipe(alloc)?, pieces)?;
    wanted.compare_told(rt, &told, &pieces);
    Ok(())
}

/// Fails the test unless each second load that the pipe gives of the pieces stays as it is while it is
/// held and the others go.
pub(crate) fn held_loads_stay<M: Made, R: Recipe<M>>(
    rt: &(impl Abort + AllocGlobal),
    recipe: &R,
    pieces: &[&[&[u8]]],
) -> Result<(), AllocError> {
    let alloc = rt.alloc();
    let stays = stay::<M, R::Pipe>(alloc, recipe.pipe(alloc)?, pieces)?;
    holds(rt, stays);
    Ok(())
}
