//! The caller on the page of `eval_run`.
use chunk_core::Word;
use device_port::OpenGate;
use eval_run::run_eval;
use std::test::Fail;
use step_words::steps;
use worked_calls::outside::{cat_of, depot_of, sink_of};

#[test]
fn lines_are_evaluated_in_groups(rt: HostRuntime) -> Result<(), Fail> {
    let alloc = rt.alloc();
    let Ok(chain) = steps(alloc, b"lines|filter x|number") else {
        return Ok(());
    };
    let mut depot = depot_of(alloc, &cat_of(b"x1\ny\nx2\n"))?;
    let mut out = sink_of(alloc, &[])?;
    let path = Word::of(alloc, "a")?;
    let outcome = run_eval(
        &rt, alloc, &path, 4, 2, &chain, &mut depot, &mut out, &OpenGate,
    );
    assert_eq!(rt; out.written(), b"0 5\n0 x1\n\n0 5\n0 x2\n\n".as_slice());
    assert_eq!(rt; outcome.ends.len(), 1);
    assert_eq!(rt; outcome.ledger.len(), 3);
    assert!(rt; !outcome.sink_failed);
    assert!(rt; !outcome.memory);
    Ok(())
}
