use crate::asserts::{holds, renders, same};
use chunk_core::{Line, Load, Row, Spare, SpareRows};
use std::alloc::{AllocError, Global};
use std::process::Abort;
use std::test::Fail;

/// The memory that there is for a line, once a load of one line of so many bytes was given and let go.
fn room_after(alloc: Global, bytes: &[u8]) -> Result<usize, AllocError> {
    let mut spare = Spare::new(alloc);
    let mut lines = Vec::new(alloc);
    lines.push(spare.line(alloc, bytes)?)?;
    let given = spare.give(alloc, lines)?;
    drop(given);
    spare.regain();
    Ok(spare.empty(alloc).capacity())
}

#[test]
fn a_line_that_was_let_go_is_filled_again(rt: HostRuntime) -> Result<(), Fail> {
    holds(&rt, room_after(rt.alloc(), &[7; 100])? >= 100);
    Ok(())
}

#[test]
fn memory_of_more_than_1024_bytes_isnt_kept(rt: HostRuntime) -> Result<(), Fail> {
    same(&rt, room_after(rt.alloc(), &[7; 1024])?, 1024);
    same(&rt, room_after(rt.alloc(), &[7; 1025])?, 0);
    Ok(())
}

/// A load of one line, which is given and not let go.
fn load_of_one(alloc: Global, spare: &mut Spare, bytes: &[u8]) -> Result<Load, AllocError> {
    let mut lines = Vec::new(alloc);
    lines.push(spare.line(alloc, bytes)?)?;
    let given = spare.give(alloc, lines)?;
    spare.regain();
    Ok(Load::Lines(given))
}

/// Fails the test unless the next line is this one, and no memory is left for another.
fn next_line_is(
    rt: &impl Abort,
    alloc: Global,
    spare: &mut Spare,
    bytes: &[u8],
) -> Result<(), AllocError> {
    let line = spare.line(alloc, bytes)?;
    same(rt, line.as_slice(), bytes);
    same(rt, spare.empty(alloc).capacity(), 0);
    Ok(())
}

#[test]
fn a_load_that_is_still_out_stays_as_it_is(rt: HostRuntime) -> Result<(), Fail> {
    let mut spare = Spare::new(rt.alloc());
    let given = load_of_one(rt.alloc(), &mut spare, b"ab")?;
    next_line_is(&rt, rt.alloc(), &mut spare, b"c")?;
    renders(&rt, rt.alloc(), &given, b"ab\n")?;
    Ok(())
}

/// A row of two fields of so many bytes, and a third one.
fn row_of(alloc: Global, spare: &mut SpareRows, bytes: &[u8]) -> Result<Row, AllocError> {
    let mut fields = Vec::new(alloc);
    fields.push(Line::copy_of(alloc, bytes)?)?;
    fields.push(Line::copy_of(alloc, bytes)?)?;
    spare.longer(alloc, fields.as_slice(), b"c")
}

/// A load of one such row.
fn row_given(alloc: Global, spare: &mut SpareRows, bytes: &[u8]) -> Result<Load, AllocError> {
    let mut rows = Vec::new(alloc);
    rows.push(row_of(alloc, spare, bytes)?)?;
    Ok(Load::Rows(spare.give(alloc, rows)?))
}

#[test]
fn a_longer_row_has_one_more_field(rt: HostRuntime) -> Result<(), Fail> {
    let mut spare = SpareRows::new(rt.alloc());
    let given = row_given(rt.alloc(), &mut spare, b"a")?;
    renders(&rt, rt.alloc(), &given, b"a,a,c\n")?;
    Ok(())
}

/// What is spare once a row whose fields have so many bytes was given and let go.
fn spare_after(alloc: Global, bytes: &[u8]) -> Result<SpareRows, AllocError> {
    let mut spare = SpareRows::new(alloc);
    drop(row_given(alloc, &mut spare, bytes)?);
    spare.regain();
    Ok(spare)
}

/// The memory for fields that the next row gets, which has none yet.
fn field_room(rt: &impl Abort, alloc: Global, spare: &mut SpareRows) -> Result<usize, AllocError> {
    let fields = spare.empty(alloc)?;
    holds(rt, fields.is_empty());
    Ok(fields.capacity())
}

/// The memory of the next line, which must be this one.
fn line_room(
    rt: &impl Abort,
    alloc: Global,
    spare: &mut SpareRows,
    bytes: &[u8],
) -> Result<usize, AllocError> {
    let line = spare.line(alloc, bytes)?.into_vec();
    same(rt, line.as_slice(), bytes);
    Ok(line.capacity())
}

#[test]
fn a_row_that_was_let_go_is_filled_again(rt: HostRuntime) -> Result<(), Fail> {
    let mut spare = spare_after(rt.alloc(), &[7; 100])?;
    holds(&rt, field_room(&rt, rt.alloc(), &mut spare)? >= 3);
    holds(&rt, line_room(&rt, rt.alloc(), &mut spare, b"c")? >= 1);
    holds(&rt, line_room(&rt, rt.alloc(), &mut spare, b"d")? >= 100);
    same(&rt, field_room(&rt, rt.alloc(), &mut spare)?, 0);
    Ok(())
}

/// The memory of the line that is made behind the last field's, once a row of fields of so many bytes
/// was given and let go.
fn next_room(rt: &impl Abort, alloc: Global, bytes: &[u8]) -> Result<usize, AllocError> {
    let mut spare = spare_after(alloc, bytes)?;
    let _fields = field_room(rt, alloc, &mut spare)?;
    let _last = line_room(rt, alloc, &mut spare, b"c")?;
    line_room(rt, alloc, &mut spare, b"d")
}

#[test]
fn fields_of_more_than_1024_bytes_arent_kept(rt: HostRuntime) -> Result<(), Fail> {
    same(&rt, next_room(&rt, rt.alloc(), &[7; 1024])?, 1024);
    holds(&rt, next_room(&rt, rt.alloc(), &[7; 1025])? < 1024);
    Ok(())
}
