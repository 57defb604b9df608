//! The head of a frame.
ghost use Rattle.std.specs.Prelude.{◌≡◌, ◌≢◌, ◌<◌, ◌^◌, ◌∷◌, [], ◌++◌, All, MatchOption, decimal};
ghost use Rattle.cut_frames.specs.Heads.{IsReadAs, IsReadInFront};
ghost use Rattle.cut_frames.specs.Heads.{HasNoHead, head_text};

use std::str;

/// The text up to the first byte of that value, and the text behind it.
pub fn split_once(text: &[u8], byte: u8) -> Option<(&[u8], &[u8])>
    ensures { MatchOption result (All (λ c. c ≢ byte) text.now)
        (λ parts. All (λ c. c ≢ byte) parts.0.now × (text.now ≡ parts.0.now ++ byte ∷ parts.1.now)) }
{
    let at = text.iter().position(|c| *c == byte)?;
    Some((&text[..at], &text[at + 1..]))
}

/// The number that the digits write, without leading zeros.
pub fn number(digits: &[u8]) -> Option<u64>
    ensures { IsReadAs (λ n. n < 2 ^ 64) decimal digits.now result }
{
    let first = *digits.first()?;
    if first == b'+' {
        return None;
    }
    if first == b'0' && digits.len() > 1 {
        return None;
    }
    let Ok(text) = str::from_utf8(digits) else {
        return None;
    };
    text.parse().ok()
}

/// The number that the text begins with, up to a byte that is no digit.
pub fn number_in_front(text: &[u8], end: u8) -> Option<(u64, &[u8])>
    requires { end < 48 }
    ensures { IsReadInFront (λ n. n < 2 ^ 64) (λ n. decimal n ++ end ∷ []) text.now result }
{
    let (digits, rest) = split_once(text, end)?;
    Some((number(digits)?, rest))
}

/// The stream and the length of the payload that the head says which the text begins with.
pub fn head_in_front(text: &[u8]) -> Option<(u64, u64, &[u8])>
    ensures { MatchOption result (HasNoHead text.now)
        (λ p. (p.0 < 2 ^ 64) × (p.1 < 2 ^ 64) × (text.now ≡ head_text p.0 p.1 ++ p.2.now)) }
{
    let (stream, rest) = number_in_front(text, b' ')?;
    let (length, rest) = number_in_front(rest, b'\n')?;
    Some((stream, length, rest))
}
