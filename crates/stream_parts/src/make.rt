//! Devices that are made for the rows of a stream.
ghost use Rattle.std.specs.Prelude.{◌≡◌, ◌+◌, ◌<◌, ◌≤◌, ◌∷◌, [], IfOk, OnErr, IsSome, Some, map, option_map, option_to_list, vec_capacity, vec_len};
ghost use Rattle.device_port.specs.Device.{to_read, to_write};
ghost use Rattle.pipeline_desc.specs.Meant.{stream_limit};
ghost use Rattle.pipeline_desc.specs.Places.{second_path, stream_places};
ghost use Rattle.pipeline_desc.specs.declared.stream.StreamSpec.{StreamSpec as SpecTold};
ghost use Rattle.stream_parts.specs.Made.{MakesEach, MakesFirst, MakesInVain, MakesMore};
ghost use Rattle.stream_parts.specs.Named.{IsNamed, named_stream, path_of};

use crate::retire::retire_all;
use chunk_core::{List, Word};
use device_port::{Depot, Mode};
use pipeline_desc::{Plan, Second, StreamSpec};
use std::alloc::{AllocError, Global};

/// How many rows a stream has at most.
const MOST_ROWS: usize = 3;

/// Makes a device for a path, behind those that were made.
fn make_next<D: Depot>(
    alloc: Global,
    path: &Word,
    mode: Mode,
    depot: &mut D,
    devices: &mut Vec<D::Dev>,
) -> Result<(), AllocError>
    requires { vec_len devices.old < vec_capacity devices.old }
    ensures made { IfOk result (λ u. MakesMore D.Dev.Device.told (D.told depot.old) (D.told depot.new) (record { path = path.now; mode = mode } ∷ []) devices.old.items devices.new.items) }
    ensures depot { OnErr result (D.told depot.new ≡ D.told depot.old) }
    ensures devices { OnErr result (devices.new.items ≡ devices.old.items) }
    ensures len { vec_len devices.new ≤ vec_len devices.old + 1 }
    ensures capacity { vec_capacity devices.new ≡ vec_capacity devices.old }
{
    let device = depot.make(alloc, path, mode)?;
    devices.push_reserved(device);
    Ok(())
}

/// Makes a device to write to, where there is a path for it.
fn make_to<D: Depot>(
    alloc: Global,
    to: &Option<Word>,
    depot: &mut D,
    devices: &mut Vec<D::Dev>,
) -> Result<(), AllocError>
    requires { vec_len devices.old < vec_capacity devices.old }
    ensures made { IfOk result (λ u. MakesMore D.Dev.Device.told (D.told depot.old) (D.told depot.new) (option_to_list (option_map to_write to.now)) devices.old.items devices.new.items) }
    ensures depot { OnErr result (D.told depot.new ≡ D.told depot.old) }
    ensures devices { OnErr result (devices.new.items ≡ devices.old.items) }
    ensures len { vec_len devices.new ≤ vec_len devices.old + 1 }
    ensures capacity { vec_capacity devices.new ≡ vec_capacity devices.old }
{
    match to {
        Some(path) => make_next(alloc, path, Mode::Write, depot, devices),
        None => Ok(()),
    }
}

/// Makes the device of a second side, where there is one.
fn make_second<D: Depot>(
    alloc: Global,
    second: &Option<Second>,
    depot: &mut D,
    devices: &mut Vec<D::Dev>,
) -> Result<(), AllocError>
    requires { vec_len devices.old < vec_capacity devices.old }
    ensures made { IfOk result (λ u. MakesMore D.Dev.Device.told (D.told depot.old) (D.told depot.new) (option_to_list (option_map to_read (second_path second.now))) devices.old.items devices.new.items) }
    ensures depot { OnErr result (D.told depot.new ≡ D.told depot.old) }
    ensures devices { OnErr result (devices.new.items ≡ devices.old.items) }
{
    match second {
        Some(second) => make_next(alloc, &second.path, Mode::Read, depot, devices),
        None => Ok(()),
    }
}

/// Makes a device for each row of a stream that is described, in their order.
fn make_described<D: Depot>(
    alloc: Global,
    stream: &StreamSpec,
    depot: &mut D,
    devices: &mut Vec<D::Dev>,
) -> Result<(), AllocError>
    requires none { devices.old.items ≡ [] }
    requires room { 3 ≤ vec_capacity devices.old }
    ensures made { IfOk result (λ u. MakesMore D.Dev.Device.told (D.told depot.old) (D.told depot.new) (stream_places stream.now) [] devices.new.items) }
    ensures first { OnErr result (MakesFirst D.Dev.Device.told (D.told depot.old) (D.told depot.new) (stream_places stream.now) devices.new.items) }
{
    make_to(alloc, &stream.to, depot, devices)?;
    make_next(alloc, &stream.path, Mode::Read, depot, devices)?;
    make_second(alloc, &stream.second, depot, devices)
}

/// Makes the device of a stream of the list, which reads this file.
fn make_listed<D: Depot>(
    alloc: Global,
    path: &Option<Word>,
    depot: &mut D,
    devices: &mut Vec<D::Dev>,
) -> Result<(), AllocError>
    requires some { IsSome path.now }
    requires none { devices.old.items ≡ [] }
    requires room { 3 ≤ vec_capacity devices.old }
    ensures made { IfOk result (λ u. MakesMore D.Dev.Device.told (D.told depot.old) (D.told depot.new) (to_read (path_of path.now) ∷ []) [] devices.new.items) }
    ensures first { OnErr result (MakesFirst D.Dev.Device.told (D.told depot.old) (D.told depot.new) (to_read (path_of path.now) ∷ []) devices.new.items) }
{
    match path {
        Some(path) => make_next(alloc, path, Mode::Read, depot, devices),
        None => unreachable!(),
    }
}

/// Makes a device for each row of stream k, in their order.
fn make_each<D: Depot>(
    alloc: Global,
    plan: &Plan,
    k: u32,
    path: &Option<Word>,
    depot: &mut D,
    devices: &mut Vec<D::Dev>,
) -> Result<(), AllocError>
    requires within { k < stream_limit plan.now }
    requires named { IsNamed plan.now k path.now }
    requires none { devices.old.items ≡ [] }
    requires room { 3 ≤ vec_capacity devices.old }
    ensures made { (s : SpecTold) → named_stream plan.now k path.now ≡ Some s → IfOk result (λ u. MakesMore D.Dev.Device.told (D.told depot.old) (D.told depot.new) (stream_places s) [] devices.new.items) }
    ensures first { (s : SpecTold) → named_stream plan.now k path.now ≡ Some s → OnErr result (MakesFirst D.Dev.Device.told (D.told depot.old) (D.told depot.new) (stream_places s) devices.new.items) }
{
    if (k as usize) < plan.streams().len() {
        make_described(alloc, plan.stream(k), depot, devices)
    } else {
        make_listed(alloc, path, depot, devices)
    }
}

/// Makes the devices of stream k, one for each of its rows. Where there is no memory for one, those
/// that were made go back.
pub(crate) fn make_devices<D: Depot>(
    alloc: Global,
    plan: &Plan,
    k: u32,
    path: &Option<Word>,
    depot: &mut D,
) -> Result<List<D::Dev>, AllocError>
    requires within { k < stream_limit plan.now }
    requires named { IsNamed plan.now k path.now }
    ensures made { (s : SpecTold) → named_stream plan.now k path.now ≡ Some s → IfOk result (λ devices. MakesEach (D.told depot.old) (D.told depot.new) (stream_places s) (map (λ d. D.Dev.Device.told d) devices)) }
    ensures unmade { (s : SpecTold) → named_stream plan.now k path.now ≡ Some s → OnErr result (MakesInVain (D.told depot.old) (D.told depot.new) (stream_places s)) }
{
    let mut devices = Vec::with_capacity(alloc, MOST_ROWS)?;
    match make_each(alloc, plan, k, path, depot, &mut devices) {
        Ok(()) => Ok(List::of_vec(devices)),
        Err(AllocError) => {
            retire_all(depot, List::of_vec(devices));
            Err(AllocError)
        }
    }
}
