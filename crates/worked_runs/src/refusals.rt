//! Descriptions that are refused: nothing is done, and standard error is told why.
use crate::asserts::same;
use flume_cli::Status;
use pipeline_desc::{Refusal, RefusalKind};

pub(crate) fn refused(kind: RefusalKind, stream: Option<u32>, step: Option<u32>) -> Status {
    Status::Refused(Refusal { kind, stream, step })
}

#[test]
fn longest_line_has_room(rt: HostRuntime) {
    let status = refused(RefusalKind::NotUtf8, Some(u32::MAX), Some(u32::MAX));
    same(
        &rt,
        status.line().as_str(),
        "flume: description refused 10 stream 4294967295 step 4294967295\n",
    );
}
