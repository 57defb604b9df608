//! What a line of a ledger's text spells.
ghost use Rattle.std.specs.Prelude.{◌≡◌, ◌≢◌, ◌<◌, ◌^◌, ◌∷◌, ◌++◌, All, MatchOption, codes, decimal, if◌then◌else◌};
ghost use Rattle.chunk_core.specs.Texts.{exit_text};
ghost use Rattle.res_ledger.specs.Texts.{name_text, what_text};
ghost use Rattle.ledger_text.specs.Reading.{IsReadAs, IsReadInFront};
ghost use Rattle.res_ledger.specs.Limits.{IsSmallEvent, IsSmallStream, IsSmallWhat};

use chunk_core::Exit;
use res_ledger::{Event, StreamNo, What};
use std::str;

/// The text up to the first byte of that value, and the text behind it.
pub fn split_once(text: &[u8], byte: u8) -> Option<(&[u8], &[u8])>
    ensures { MatchOption result (All (λ c. c ≢ byte) text.now)
        (λ parts. All (λ c. c ≢ byte) parts.0.now × (text.now ≡ parts.0.now ++ byte ∷ parts.1.now)) }
{
    let at = text.iter().position(|c| *c == byte)?;
    Some((&text[..at], &text[at + 1..]))
}

/// The number that the digits write, without leading zeros.
pub fn number(digits: &[u8]) -> Option<u64>
    ensures { IsReadAs (λ n. n < 2 ^ 64) decimal digits.now result }
{
    let first = *digits.first()?;
    if first == b'+' {
        return None;
    }
    if first == b'0' && digits.len() > 1 {
        return None;
    }
    let Ok(text) = str::from_utf8(digits) else {
        return None;
    };
    text.parse().ok()
}

fn short_number(digits: &[u8]) -> Option<u32>
    ensures { IsReadAs (λ n. n < 2 ^ 32) decimal digits.now result }
{
    u32::try_from(number(digits)?).ok()
}

fn number_in_front(text: &[u8]) -> Option<(u32, &[u8])>
    ensures { IsReadInFront (λ n. n < 2 ^ 32) (λ n. decimal n ++ codes " ") text.now result }
{
    let (digits, rest) = split_once(text, b' ')?;
    Some((short_number(digits)?, rest))
}

fn two_numbers(text: &[u8]) -> Option<(u32, u32)>
    ensures { IsReadAs (λ p. (p.0 < 2 ^ 32) × (p.1 < 2 ^ 32))
        (λ p. decimal p.0 ++ codes " " ++ decimal p.1) text.now result }
{
    let (first, rest) = number_in_front(text)?;
    Some((first, short_number(rest)?))
}

fn exit(word: &[u8]) -> Option<Exit>
    ensures { IsReadAs (λ x. Unit {0}) exit_text word.now result }
{
    if word == b"succeeded".as_slice() {
        Some(Exit::Succeeded)
    } else if word == b"errored".as_slice() {
        Some(Exit::Errored)
    } else if word == b"canceled".as_slice() {
        Some(Exit::Canceled)
    } else {
        None
    }
}

/// A stream or a scope, and how it ended.
fn number_and_exit(text: &[u8]) -> Option<(u32, Exit)>
    ensures { IsReadAs (λ p. p.0 < 2 ^ 32) (λ p. decimal p.0 ++ codes " " ++ exit_text p.1) text.now result }
{
    let (number, word) = number_in_front(text)?;
    Some((number, exit(word)?))
}

/// What a finalizer was told, and whether it succeeded.
fn finalizer_end(text: &[u8]) -> Option<(Exit, bool)>
    ensures { IsReadAs (λ p. Unit {0}) (λ p. exit_text p.0 ++ codes " " ++ (if p.1 then codes "ok" else codes "fault")) text.now result }
{
    let (told, word) = split_once(text, b' ')?;
    let exit = exit(told)?;
    if word == b"ok".as_slice() {
        Some((exit, true))
    } else if word == b"fault".as_slice() {
        Some((exit, false))
    } else {
        None
    }
}

/// A row, what its finalizer was told, and whether it succeeded.
fn row_end(text: &[u8]) -> Option<(u32, Exit, bool)>
    ensures { IsReadAs (λ p. p.0 < 2 ^ 32)
        (λ p. decimal p.0 ++ codes " " ++ (exit_text p.1 ++ codes " " ++ (if p.2 then codes "ok" else codes "fault"))) text.now result }
{
    let (row, rest) = number_in_front(text)?;
    let (exit, ok) = finalizer_end(rest)?;
    Some((row, exit, ok))
}

fn stream_in_front(text: &[u8]) -> Option<(StreamNo, &[u8])>
    ensures { IsReadInFront IsSmallStream (λ k. name_text k ++ codes " ") text.now result }
{
    if let Some(rest) = text.strip_prefix(b"outer ") {
        return Some((StreamNo::Outer, rest));
    }
    let (stream, rest) = number_in_front(text)?;
    Some((StreamNo::Inner(stream), rest))
}

fn what(text: &[u8]) -> Option<What>
    ensures { IsReadAs IsSmallWhat what_text text.now result }
{
    if let Some(rest) = text.strip_prefix(b"open ") {
        let (scope, parent) = two_numbers(rest)?;
        Some(What::Open { scope, parent })
    } else if let Some(rest) = text.strip_prefix(b"acquire ") {
        let (row, scope) = two_numbers(rest)?;
        Some(What::Acquire { row, scope })
    } else if let Some(rest) = text.strip_prefix(b"lease ") {
        let (stream, scope) = two_numbers(rest)?;
        Some(What::Lease { stream, scope })
    } else if let Some(rest) = text.strip_prefix(b"cancel ") {
        let (stream, exit) = number_and_exit(rest)?;
        Some(What::Cancel { stream, exit })
    } else if let Some(rest) = text.strip_prefix(b"close ") {
        let (scope, exit) = number_and_exit(rest)?;
        Some(What::Close { scope, exit })
    } else if let Some(rest) = text.strip_prefix(b"final ") {
        let (row, exit, ok) = row_end(rest)?;
        Some(What::Final { row, exit, ok })
    } else {
        None
    }
}

/// The event with this stamp whose line, without its end, the text is.
pub fn event(stamp: u64, text: &[u8]) -> Option<Event>
    ensures { IsReadAs (λ e. IsSmallEvent e × (e.stamp ≡ stamp))
        (λ e. name_text e.by ++ codes " " ++ what_text e.what) text.now result }
{
    let (by, rest) = stream_in_front(text)?;
    let what = what(rest)?;
    Some(Event { stamp, by, what })
}
