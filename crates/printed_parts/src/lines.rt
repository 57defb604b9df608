//! Lines and numbers.
use std::str;

/// The number that this text spells, without a sign or zeros in front.
pub fn number_of(text: &str) -> Option<usize> {
    let is_short = text.len() == 1 || !text.starts_with('0');
    let is_spelled = is_short && text.bytes().all(|byte| byte.is_ascii_digit());
    if is_spelled {
        text.parse::<usize>().ok()
    } else {
        None
    }
}

/// The line that begins here, without its line feed, and the place behind that.
pub fn line_at(text: &[u8], at: usize) -> Option<(&str, usize)> {
    let rest = text.get(at..)?;
    let length = rest.iter().position(|byte| *byte == b'\n')?;
    let line = str::from_utf8(rest.get(..length)?).ok()?;
    Some((line, at.saturating_add(length).saturating_add(1)))
}
