//! Lists of files at random.
use crate::drawing::{STAND_INS, flavour_of, some_of};
use crate::plan::Listing;
use crate::steps::{Kind, add_steps};
use device_port::Act;
use random_files::{Dice, File, Flavour, add_file, trip_of};
use std::alloc::AllocError;

/// Lines that name no file that is there, or none at all.
const LINES: [&[u8]; 5] = [b"nowhere", b"list", b"", b"\xff", b"\xc3"];

/// The path of a file of any sort, and nothing where there is none.
fn path_of(dice: &mut Dice, files: &[File]) -> Result<Vec<u8>, AllocError> {
    let place = dice.below(files.len());
    let path = files.get(place).map_or("", |file| file.path.as_str());
    Vec::from_slice(dice.alloc, path.as_bytes())
}

/// A line of a list: mostly the path of a new file, else of one that is there, or what names none.
fn line_of(
    dice: &mut Dice,
    files: &mut Vec<File>,
    flavour: Flavour,
) -> Result<Vec<u8>, AllocError> {
    let odd = dice.pick(&LINES);
    match dice.below(40) {
        0..=29 => {
            let place = add_file(dice, files, flavour)?;
            Ok(format!(in dice.alloc; "f{place}")?.into_bytes())
        }
        30..=37 => path_of(dice, files),
        38 => {
            let mut line = Vec::new(dice.alloc);
            for _ in 0..dice.between(1_024, 1_025) {
                line.push(b'f')?;
            }
            Ok(line)
        }
        _ => Vec::from_slice(dice.alloc, odd),
    }
}

/// What stands in a list's file.
fn content_of(
    dice: &mut Dice,
    files: &mut Vec<File>,
    flavour: Flavour,
) -> Result<Vec<u8>, AllocError> {
    let mut bytes = Vec::new(dice.alloc);
    let (end, is_open) = (
        dice.pick(&[b"\n".as_slice(), b"\n", b"\r\n"]),
        dice.chance(4),
    );
    let most = if dice.chance(20) { 70 } else { 8 };
    let count = dice.few(most);
    for number in 0..count {
        bytes.extend_from_slice(&line_of(dice, files, flavour)?)?;
        if !is_open || number + 1 < count {
            bytes.extend_from_slice(end)?;
        }
    }
    Ok(bytes)
}

/// A list, whose file is appended with those that it names; its streams look up in these tables.
pub(crate) fn list_of(
    dice: &mut Dice,
    files: &mut Vec<File>,
    tables: &[usize],
) -> Result<Listing, AllocError> {
    let mut steps = Vec::new(dice.alloc);
    let kind = add_steps(dice, &mut steps, &[], Kind::Bytes, 5, tables)?;
    let flavour = flavour_of(dice, &steps, None);
    let content = content_of(dice, files, flavour)?;
    let is_there = !dice.chance(40);
    let path = files.len();
    files.push(File {
        path: String::from_str(dice.alloc, "list")?,
        content: is_there.then_some(content),
        trip: trip_of(dice, Act::Read, 40),
    })?;
    let stand_in = dice.pick(&STAND_INS);
    Ok(Listing {
        path,
        steps,
        on_fault: dice.chance(4).then_some(stand_in),
        max: some_of(dice, 2, &[1, 2, 5, 64]),
        kind,
    })
}
