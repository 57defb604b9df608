//! Why a context is interrupted, and the number of it that a board keeps.
ghost use Rattle.std.specs.Prelude.{◌≡◌, ◌%◌, ◌<◌, ◌^◌, Option};
ghost use Rattle.interrupt_ctx.specs.Codes.{IsWord, code_of, why_code, why_word, word_of};
ghost use Rattle.interrupt_ctx.specs.declared.why.Why.{Why};

/// Why a context was interrupted.
#[derive(Clone, Copy, Debug, PartialEq, Eq)]
pub enum Why {
    /// As much was printed as is to be taken.
    Take,
    /// The stream that this one was to run until has ended.
    Until,
    /// The output could not be written.
    Sink,
    /// Memory was wanting.
    Memory,
    /// A stream ended in a fault.
    Fault,
}

impl Why {
    // Its number from 1 to 5, in the order of the variants.
    fn code(self) -> u64
        ensures code { result ≡ why_code self }
        ensures small { result < 8 }
    {
        match self {
            Why::Take => 1,
            Why::Until => 2,
            Why::Sink => 3,
            Why::Memory => 4,
            Why::Fault => 5,
        }
    }
}

/// Why a context was interrupted, and behind how much of the ledger.
#[derive(Clone, Copy, Debug, PartialEq, Eq)]
pub struct Stop {
    pub why: Why,
    /// How many events the ledger had, as who interrupts the context says.
    pub at: u64,
}

impl Stop {
    /// The number of it that a board keeps.
    pub fn code(self) -> u64
        requires { self.at < 2 ^ 60 }
        ensures { result ≡ code_of self }
    {
        self.at * 8 + self.why.code()
    }
}

fn why_of(digit: u64) -> Option<Why>
    requires { (found : Option Why) × (digit ≡ why_word found) }
    ensures { digit ≡ why_word result }
{
    match digit {
        1 => Some(Why::Take),
        2 => Some(Why::Until),
        3 => Some(Why::Sink),
        4 => Some(Why::Memory),
        5 => Some(Why::Fault),
        _ => None,
    }
}

pub(crate) fn stop_of(word: u64) -> Option<Stop>
    requires { IsWord word }
    ensures { word ≡ word_of result }
{
    match why_of(word % 8) {
        Some(why) => Some(Stop { why, at: word / 8 }),
        None => None,
    }
}
