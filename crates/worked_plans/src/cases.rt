//! The case that three numbers make: its files, its plan and its summary.
use crate::asserts::{holds, same};
use gen_case::tally::tally_of;
use gen_case::{Case, files_of, summary_of, text};
use ledger_text::{LedgerRefused, read};
use res_ledger::Ledger;
use std::alloc::Global;
use std::test::Fail;

#[test]
fn three_lines(rt: HostRuntime) -> Result<(), Fail> {
    let case = Case {
        seed: 0,
        streams: 1,
        lines: 3,
    };
    let files = files_of(rt.alloc(), case)?;
    same(&rt, files.len(), 2);
    if let [file, table] = files.as_slice() {
        same(&rt, file.path.as_str(), "g0");
        same(&rt, file.bytes.as_slice(), b"000\n379\n758\n".as_slice());
        same(&rt, table.path.as_str(), "gt");
        let records = table.bytes.as_slice();
        same(&rt, records.len(), 6000);
        holds(&rt, records.starts_with(b"000,0\n001,1\n"));
        holds(&rt, records.ends_with(b"998,8\n999,9\n"));
    }
    Ok(())
}

/// The events of one stream behind a table.
fn events(alloc: Global) -> Result<Ledger, LedgerRefused> {
    read(
        alloc,
        b"ledger 8\nouter acquire 0 0\nouter lease 0 0\nouter close 0 succeeded\n0 acquire 1 0\n0 close 0 succeeded\n0 final 1 succeeded ok\n0 cancel 0 succeeded\n0 final 0 succeeded ok\n",
    )
}

#[test]
fn summary_of_three_lines(rt: HostRuntime) -> Result<(), Fail> {
    let alloc = rt.alloc();
    let case = Case {
        seed: 0,
        streams: 1,
        lines: 3,
    };
    let out = b"0 18\n000,0\n379,9\n758,8\n\n";
    let summary = summary_of(case, out.as_slice(), &events(alloc)?);
    assert_eq!(rt;
        text(alloc, summary)?.as_slice(),
        b"gen 0 1 3\nframes 1\nbytes 18\ndigits 56\nacquire 2\nlease 1\ncancel 1\nclose 2\nfinal 2\n".as_slice()
    );
    Ok(())
}

#[test]
fn frames_of_two_streams(rt: HostRuntime) {
    let tally = tally_of(b"1 3\n1\n2\n0 2\n77\n1 11\n0 2\n9 9\n\n55\n");
    same(&rt, (tally.frames, tally.bytes, tally.digits), (3, 16, 47));
}
