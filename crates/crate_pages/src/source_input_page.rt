//! A source is read whole.
use chunk_core::List;
use device_port::MemSource;
use source_input::{NotRead, read_source};
use std::test::Fail;

#[test]
fn sources_are_read_to_their_end_or_a_limit(rt: HostRuntime) -> Result<(), Fail> {
    let alloc = rt.alloc();
    let mut src = MemSource::new(alloc, b"a text", List::new(alloc))?;
    let text = read_source(alloc, &mut src, 100)?;
    assert_eq!(rt; text.as_slice(), b"a text".as_slice());

    let mut long = MemSource::new(alloc, b"a text", List::new(alloc))?;
    let front = read_source(alloc, &mut long, 3)?;
    assert_eq!(rt; front.as_slice(), b"a t".as_slice());

    let mut fails = List::new(alloc);
    fails.push(1)?;
    let mut failing = MemSource::new(alloc, b"a text", fails)?;
    let why = read_source(alloc, &mut failing, 100).err();
    assert_eq!(rt; why, Some(NotRead::Failed));
    Ok(())
}
