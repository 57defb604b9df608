//! What a run shows as text.
use crate::asserts::same;
use crate::narrow::Narrow;
use crate::uses::Alone;
use chunk_core::{How, List, Load, render};
use device_port::Mode;
use pull_stepper::Held;
use res_ledger::{Ledger, text};
use scope_tree::Spent;
use std::alloc::{AllocError, Global};
use std::process::Abort;

/// The path of a device, how often it was opened and closed, the exit that it was closed with, and
/// what was written to it.
fn push_device(alloc: Global, out: &mut Vec<u8>, device: &Narrow) -> Result<(), AllocError> {
    let facts = device.facts();
    let path = facts.path.as_str();
    let (opens, closes) = (facts.opens(), facts.closes());
    out.extend_from_slice(format!(in alloc; "{path} {opens} {closes}")?.as_bytes())?;
    if let Some(exit) = facts.exit() {
        out.extend_from_slice(format!(in alloc; " {exit}")?.as_bytes())?;
    }
    if facts.mode == Mode::Write {
        out.extend_from_slice(b" <")?;
        out.extend_from_slice(&facts.written)?;
        out.extend_from_slice(b">")?;
    }
    out.extend_from_slice(b"\n")
}

/// The loads, each with a bar behind it.
fn push_loads(alloc: Global, out: &mut Vec<u8>, loads: &[Load]) -> Result<(), AllocError> {
    for load in loads {
        out.extend_from_slice(render(alloc, load)?.as_slice())?;
        out.push(b'|')?;
    }
    Ok(())
}

/// How a run ended, and its ledger.
fn push_end(alloc: Global, out: &mut Vec<u8>, how: How, ledger: &Ledger) -> Result<(), AllocError> {
    out.extend_from_slice(format!(in alloc; "{how:?}\n")?.as_bytes())?;
    out.extend_from_slice(text(alloc, ledger)?.as_slice())
}

/// The devices: those that were acquired as they ended, and then the others.
fn push_devices(
    alloc: Global,
    out: &mut Vec<u8>,
    shelf: List<Spent<Held<Narrow>>>,
    unopened: List<Narrow>,
) -> Result<(), AllocError> {
    for spent in shelf.into_vec() {
        push_device(alloc, out, &spent.pay.into_device())?;
    }
    for device in unopened.into_vec() {
        push_device(alloc, out, &device)?;
    }
    Ok(())
}

/// The loads, the end, the ledger and the devices.
fn shown(alloc: Global, run: Alone<Narrow>) -> Result<Vec<u8>, AllocError> {
    let mut out = Vec::new(alloc);
    push_loads(alloc, &mut out, run.loads.as_slice())?;
    push_end(alloc, &mut out, run.how, &run.ledger)?;
    push_devices(alloc, &mut out, run.shelf, run.unopened)?;
    Ok(out)
}

/// Fails the test unless the run is shown so.
pub(crate) fn is_shown(rt: &(impl Abort + AllocGlobal), run: Alone<Narrow>, want: &[u8]) {
    let shown = shown(rt.alloc(), run).expect(rt, "memory");
    same(rt, shown.as_slice(), want);
}
