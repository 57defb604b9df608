//! A call of which something is wrong, to be read.
use crate::call::Call;
use random_files::File;
use run_judge::{Seen, Wrongs};
use std::alloc::AllocError;

/// Appends bytes: what isn't printed ASCII or LF in hexadecimal digits.
fn put_bytes(text: &mut String, name: &str, bytes: &[u8]) -> Result<(), AllocError> {
    writeln!(text, "-- {name}")?;
    for byte in bytes {
        match *byte {
            b'\n' | b' '..=b'~' => text.push(char::from(*byte))?,
            _ => write!(text, "\\x{byte:02x}")?,
        }
    }
    text.push('\n')
}

fn put_files(text: &mut String, files: &[File]) -> Result<(), AllocError> {
    for file in files {
        match &file.content {
            Some(content) => put_bytes(text, file.path.as_str(), content)?,
            None => writeln!(text, "-- {} isn't there", file.path)?,
        }
        if let Some((act, nth)) = file.trip {
            writeln!(text, "-- {act:?} {nth} fails")?;
        }
    }
    Ok(())
}

/// The call, what is wrong, the files, and what was printed and reported.
pub fn page_of(call: &Call, seen: &Seen, wrongs: &Wrongs) -> Result<String, AllocError> {
    let mut text = String::new(wrongs.alloc);
    writeln!(text, "{:?}", call.words)?;
    for line in &wrongs.lines {
        writeln!(text, "wrong: {line}")?;
    }
    put_bytes(&mut text, "standard input", &call.source)?;
    put_files(&mut text, &call.files)?;
    put_bytes(&mut text, "output", seen.out.written())?;
    put_bytes(&mut text, "standard error", seen.err.written())?;
    put_bytes(&mut text, "reported", seen.tail.as_slice())?;
    writeln!(text, "-- status {}", seen.status)?;
    let (source, out, err) = (call.source_fails, call.out_fails, call.err_fails);
    writeln!(text, "-- read {source}, write {out} and told {err} fail")?;
    Ok(text)
}
