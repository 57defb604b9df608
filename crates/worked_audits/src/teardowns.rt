//! What a Close takes down, by writing each scope as what it is made of, until there are rows alone.
use res_ledger::What;
use std::alloc::{AllocError, Global};

/// A scope that is to be taken down, or a row.
#[derive(Clone, Copy)]
enum Part {
    Scope(u32),
    Row(u32),
}

fn has_close(own: &[What], scope: u32) -> bool {
    for what in own {
        if let What::Close { scope: closed, .. } = *what {
            if closed == scope {
                return true;
            }
        }
    }
    false
}

/// Appends the open children of the scope, the latest first.
fn add_children(own: &[What], scope: u32, parts: &mut Vec<Part>) -> Result<(), AllocError> {
    for what in own.iter().rev() {
        if let What::Open {
            scope: child,
            parent,
        } = *what
        {
            if parent == scope && !has_close(own, child) {
                parts.push(Part::Scope(child))?;
            }
        }
    }
    Ok(())
}

/// Appends the rows of the scope, the latest first.
fn add_rows(own: &[What], scope: u32, parts: &mut Vec<Part>) -> Result<(), AllocError> {
    for what in own.iter().rev() {
        if let What::Acquire { row, scope: home } = *what {
            if home == scope {
                parts.push(Part::Row(row))?;
            }
        }
    }
    Ok(())
}

/// The parts, with each scope written as its children and its rows.
fn written_out(alloc: Global, own: &[What], parts: &[Part]) -> Result<Vec<Part>, AllocError> {
    let mut out = Vec::new(alloc);
    for part in parts {
        match *part {
            Part::Scope(scope) => {
                add_children(own, scope, &mut out)?;
                add_rows(own, scope, &mut out)?;
            }
            Part::Row(_) => out.push(*part)?,
        }
    }
    Ok(out)
}

fn has_scope(parts: &[Part]) -> bool {
    for part in parts {
        if let Part::Scope(_) = *part {
            return true;
        }
    }
    false
}

fn rows_among(alloc: Global, parts: &[Part]) -> Result<Vec<u32>, AllocError> {
    let mut rows = Vec::new(alloc);
    for part in parts {
        if let Part::Row(row) = *part {
            rows.push(row)?;
        }
    }
    Ok(rows)
}

/// The rows that a Close of the scope takes down behind what the stream noted. No scope lies deeper
/// than the list is long.
pub(crate) fn teardown(alloc: Global, own: &[What], scope: u32) -> Result<Vec<u32>, AllocError> {
    let mut parts = Vec::new(alloc);
    parts.push(Part::Scope(scope))?;
    for _ in 0..=own.len() {
        if !has_scope(parts.as_slice()) {
            break;
        }
        parts = written_out(alloc, own, parts.as_slice())?;
    }
    rows_among(alloc, parts.as_slice())
}
