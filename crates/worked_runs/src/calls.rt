//! The calls below the top call: each once with ample memory.
use cat_run::run_cat;
use chunk_core::Word;
use device_port::Failed;
use frames::put_frame;
use std::test::Fail;
use worked_calls::outside::{cat_of, depot_of, filled, sink_of};

/// A payload that is too long for one write is written in parts.
#[test]
fn long_payload_is_one_frame(rt: HostRuntime) -> Result<(), Fail> {
    let payload = filled(rt.alloc(), &[("", 9000)])?;
    let frame = filled(rt.alloc(), &[("7 9000\n", 9000), ("\n", 0)])?;
    let mut out = sink_of(rt.alloc(), &[])?;
    assert_eq!(rt; payload.len(), 9000);
    assert_eq!(rt; put_frame(&mut out, 7, &payload), Ok(()));
    assert_eq!(rt; out.written(), frame.as_slice());
    let mut full = sink_of(rt.alloc(), &[2])?;
    assert_eq!(rt; put_frame(&mut full, 7, &payload), Err(Failed));
    assert_eq!(rt; full.written(), b"7 9000\n".as_slice());
    Ok(())
}

/// Below the top call the pieces may have another size, and no tail is printed.
#[test]
fn file_is_read_in_pieces(rt: HostRuntime) -> Result<(), Fail> {
    let mut depot = depot_of(rt.alloc(), &cat_of(b"hello\n"))?;
    let mut out = sink_of(rt.alloc(), &[])?;
    let path = Word::of(rt.alloc(), "a")?;
    let outcome = run_cat(rt.alloc(), &path, 4, &mut depot, &mut out);
    assert_eq!(rt; out.written(), b"0 4\nhell\n0 2\no\n\n".as_slice());
    assert_eq!(rt; outcome.ends.len(), 1);
    assert_eq!(rt; outcome.ledger.len(), 3);
    assert!(rt; !outcome.sink_failed);
    assert!(rt; !outcome.memory);
    Ok(())
}
