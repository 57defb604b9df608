//! What stands in the payloads of frames.
ghost use Rattle.std.specs.Prelude.{◌≡◌, ◌≢◌, ℕ, ◌+◌, ◌*◌, ◌<◌, ◌≤◌, ◌^◌, List, ◌∷◌, ◌++◌, All, Some, decimal, length, IfSome, MatchOption};
ghost use Rattle.std.specs.List.{AllByRecursion};
ghost use Rattle.chunk_core.specs.Texts.{Frame, frame_text, frames_text};
ghost use Rattle.gen_case.specs.Tally.{AreNumbered, digit_sum, digit_value, tally_of};

use std::{fmt, str};

/// How many frames there are, and what their payloads add up to.
#[derive(Clone, Copy, Debug, PartialEq, Eq)]
pub struct Tally {
    pub frames: u64,
    /// The lengths of the payloads.
    pub bytes: u64,
    /// The values of the decimal digits in the payloads.
    pub digits: u128,
}

impl fmt::Display for Tally {
    ghost use Rattle.std.specs.Prelude.{Some};
    ghost use Rattle.gen_case.specs.Summary.{tally_text};

    ghost output = { λ tally. Some (tally_text tally) };

    fn fmt<W: fmt::Write>(&self, f: &mut fmt::Formatter<W>) -> fmt::Result {
        let Tally {
            frames,
            bytes,
            digits,
        } = *self;
        writeln!(f, "frames {frames}\nbytes {bytes}\ndigits {digits}")
    }
}

/// The value of a byte as a decimal digit, and 0 where it is none.
fn digit_value(byte: u8) -> u8
    ensures value { result ≡ digit_value byte }
    ensures small { result ≤ 9 }
{
    if byte.is_ascii_digit() {
        byte - b'0'
    } else {
        0
    }
}

/// The values of the digits among the bytes, added up.
fn digit_sum(bytes: &[u8]) -> u128
    ensures sum { result ≡ digit_sum bytes.now }
    ensures small { result ≤ 9 * length bytes.now }
{
    let mut sum = 0;
    for byte in bytes {
        sum += u128::from(digit_value(*byte));
    }
    sum
}

/// The text up to the first byte of that value, and the text behind it.
fn split_once(text: &[u8], byte: u8) -> Option<(&[u8], &[u8])>
    ensures { MatchOption result (All (λ c. c ≢ byte) text.now)
        (λ parts. All (λ c. c ≢ byte) parts.0.now × (text.now ≡ parts.0.now ++ byte ∷ parts.1.now)) }
{
    let at = text.iter().position(|c| *c == byte)?;
    Some((&text[..at], &text[at + 1..]))
}

/// The number that the digits write.
fn number(digits: &[u8]) -> Option<usize>
    ensures { (n : ℕ) → n < 2 ^ 64 → digits.now ≡ decimal n → result ≡ Some n }
{
    let Ok(text) = str::from_utf8(digits) else {
        return None;
    };
    text.parse().ok()
}

/// The length of the payload of the frame that the text begins with, and what stands behind the
/// frame's first line.
fn head(text: &[u8]) -> Option<(usize, &[u8])>
    ensures parts { (k n : ℕ) (back : List ℕ) → k < 2 ^ 64 → n < 2 ^ 64 → text.now ≡ decimal k ++ 32 ∷ (decimal n ++ 10 ∷ back)
        → MatchOption result ⊥ (λ parts. (parts.0 ≡ n) × (parts.1.now ≡ back)) }
    ensures shorter { IfSome result (λ parts. length parts.1.now < length text.now) }
{
    let (_, sized) = split_once(text, b' ')?;
    let (digits, back) = split_once(sized, b'\n')?;
    Some((number(digits)?, back))
}

/// A payload of this length, and what stands behind its end.
fn payload_of(text: &[u8], size: usize) -> Option<(&[u8], &[u8])>
    ensures parts { (payload back : List ℕ) → size ≡ length payload → text.now ≡ payload ++ 10 ∷ back
        → MatchOption result ⊥ (λ parts. (parts.0.now ≡ payload) × (parts.1.now ≡ back)) }
    ensures shorter { IfSome result (λ parts. length parts.0.now + length parts.1.now < length text.now) }
{
    if size >= text.len() {
        return None;
    }
    Some((&text[..size], &text[size + 1..]))
}

/// The payload of the frame that the text begins with, and what stands behind the frame.
fn first_frame(text: &[u8]) -> Option<(&[u8], &[u8])>
    ensures parts { (f : Frame) (back : List ℕ) → f.stream < 2 ^ 32 → text.now ≡ frame_text f.stream f.payload ++ back
        → MatchOption result ⊥ (λ parts. (parts.0.now ≡ f.payload) × (parts.1.now ≡ back)) }
    ensures shorter { IfSome result (λ parts. length parts.0.now + length parts.1.now < length text.now) }
{
    let (size, rest) = head(text)?;
    payload_of(rest, size)
}

/// The tally of the frames that the bytes are. Behind the last whole frame nothing is counted.
pub fn tally_of(out: &[u8]) -> Tally
    ensures { (frames : List Frame) → AreNumbered frames → out.now ≡ frames_text frames → result ≡ tally_of frames }
{
    let mut tally = Tally {
        frames: 0,
        bytes: 0,
        digits: 0,
    };
    let mut rest = out;
    while let Some((payload, back)) = first_frame(rest) {
        tally.frames += 1;
        tally.bytes += payload.len() as u64;
        tally.digits += digit_sum(payload);
        rest = back;
    }
    tally
}
