//! Reads comma-separated values from standard input, as one stream does, and writes each row with
//! the value that a table of 1,000 keys has for its field 0. The table's key of three digits has the
//! last of them as its value.
#![tactic(auto)]

mod stream;
mod table;

use std::io;
use std::process::ExitCode;

fn main(rt: HostRuntime) -> io::Result<ExitCode> {
    let alloc = rt.alloc();
    let dict = table::dict(alloc)?;
    let mut input = rt.stdin();
    let mut output = rt.stdout();
    if stream::copy(alloc, dict, &mut input, &mut output)? {
        return Ok(ExitCode::SUCCESS);
    }
    Ok(ExitCode::FAILURE)
}
