//! Pipes over rows, of which each second load is held.
use crate::cuttings::held_loads_stay;
use crate::dictionaries::dict_of;
use crate::feeding::{AsRows, Recipe};
use csv_pipes::{Dict, FieldPipe, LookupPipe};
use std::alloc::{AllocError, Global};
use std::sync::Arc;
use std::test::Fail;

#[derive(Drop)]
struct Field(u32);

impl Recipe<AsRows> for Field {
    type Pipe = FieldPipe;

    fn pipe(&self, alloc: Global) -> Result<FieldPipe, AllocError> {
        Ok(FieldPipe::new(alloc, self.0)?)
    }
}

#[derive(Drop)]
struct Lookup {
    table: Arc<Dict>,
    field: u32,
}

impl Recipe<AsRows> for Lookup {
    type Pipe = LookupPipe;

    fn pipe(&self, alloc: Global) -> Result<LookupPipe, AllocError> {
        let table = Arc::try_clone(&self.table)?;
        Ok(LookupPipe::new(alloc, table, self.field)?)
    }
}

/// The lookup of a field in the table of a text.
fn lookup_in(alloc: Global, table: &[u8], field: u32) -> Result<Lookup, Fail> {
    let table = Arc::new(alloc, dict_of(alloc, table)?)?;
    Ok(Lookup { table, field })
}

#[test]
fn loads_that_are_held_stay_as_they_are(rt: HostRuntime) -> Result<(), Fail> {
    let pieces: [&[&[u8]]; 5] = [&[], &[b"k"], &[b"z"], &[b"k"], &[b"a"]];
    held_loads_stay(&rt, &Field(0), &pieces)?;
    held_loads_stay(&rt, &lookup_in(rt.alloc(), b"k,v\n", 0)?, &pieces)?;
    Ok(())
}
