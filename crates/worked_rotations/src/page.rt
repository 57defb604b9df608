//! The caller on the page of `rotate_run`.
use chunk_core::Word;
use rotate_run::run_rotate;
use std::test::Fail;
use worked_calls::outside::{cat_of, depot_of};

#[test]
fn one_file_is_copied_into_two(rt: HostRuntime) -> Result<(), Fail> {
    let mut depot = depot_of(rt.alloc(), &cat_of(b"abcdef"))?;
    let path = Word::of(rt.alloc(), "a")?;
    let prefix = Word::of(rt.alloc(), "p")?;
    let outcome = run_rotate(rt.alloc(), &path, &prefix, 4, &mut depot);
    assert!(rt; depot.file("p.0") == Some(b"abcd".as_slice()));
    assert!(rt; depot.file("p.1") == Some(b"ef".as_slice()));
    assert_eq!(rt; outcome.ends.len(), 1);
    assert_eq!(rt; outcome.ledger.len(), 10);
    assert!(rt; !outcome.memory);
    Ok(())
}
