//! Numbers among the words.
ghost use Rattle.std.specs.Prelude.{◌≡◌, ◌≤◌, IfSome};
ghost use Rattle.command_words.specs.Numbers.{number_of, number_in_word};

/// The number that a text writes.
pub(crate) fn number(text: &str) -> Option<u64>
    ensures { result ≡ number_of text.now }
{
    match text.parse::<u64>() {
        Ok(number) => Some(number),
        Err(_) => None,
    }
}

/// The number that a text writes, where it is one of these.
pub(crate) fn number_within(low: u32, high: u32, text: &str) -> Option<u32>
    ensures value { result ≡ number_in_word low high text.now }
    ensures limits { IfSome result (λ n. (low ≤ n) × (n ≤ high)) }
{
    let number = number(text)?;
    if low as u64 <= number && number <= high as u64 {
        Some(number as u32)
    } else {
        None
    }
}
