//! Several streams, and streams that others interrupt.
use crate::asserts::same;
use crate::nodes::{stream_is, streams_are};
use pipeline_desc::{Plan, read};
use pull_nodes::Kind;
use std::alloc::Global;
use std::fmt::Write;
use std::test::Fail;

/// So many streams, each of which reads one file and writes one.
fn many(alloc: Global, count: u32) -> Result<String, Fail> {
    let mut text = String::new(alloc);
    for k in 0..count {
        write!(text, "[[stream]]\npath = 'a'\nto = 'b{k}'\n")?;
    }
    Ok(text)
}

/// The stream that the last one of a plan ends with.
fn last_until(plan: &Plan) -> Option<u32> {
    plan.streams().as_slice().last()?.until
}

#[test]
fn as_many_streams_as_may_be(rt: HostRuntime) -> Result<(), Fail> {
    let alloc = rt.alloc();
    let mut text = many(alloc, 1024)?;
    text.push_str("until = 1022\n")?;
    let plan = read(alloc, text.as_bytes())?;
    same(&rt, plan.streams().len(), 1024);
    same(&rt, last_until(&plan), Some(1022));
    let last = ("the last one", 1023, Kind::Any, (2046, 2048), 6);
    stream_is(&rt, alloc, &plan, &last)
}

#[test]
fn rows_of_several_streams(rt: HostRuntime) -> Result<(), Fail> {
    let alloc = rt.alloc();
    const THREE: &str =
        "[[table]]\nname = 't'\npath = 't.csv'\n[[stream]]\npath = 'a'\nto = 'c'\nwith = 'b'\njoin = 'append'\n[[stream]]\npath = 'd'\non_fault = 'lost'\nuntil = 0\n[[stream]]\npath = 'd'\n";
    same(&rt, read(alloc, THREE.as_bytes())?.streams().len(), 3);
    streams_are(
        &rt,
        alloc,
        &[
            (THREE, 0, Kind::Any, (1, 4), 9),
            (THREE, 1, Kind::Bytes, (4, 5), 7),
            (THREE, 2, Kind::Bytes, (5, 6), 5),
        ],
    )
}
