//! The three numbers of a case.
ghost use Rattle.std.specs.Prelude.{◌≡◌, ◌<◌};
ghost use Rattle.gen_case.specs.Case.{number_on};

use std::fmt;

/// Streams that each read a file of as many lines, with numbers that the seed shifts.
#[derive(Clone, Copy, Debug, PartialEq, Eq)]
pub struct Case {
    pub seed: u32,
    pub streams: u32,
    pub lines: u32,
}

impl Case {
    /// The number on line i of the file of stream k.
    pub fn number_on(self, k: u32, i: u32) -> u32
        ensures value { result ≡ number_on self k i }
        ensures small { result < 1000 }
    {
        let number = u64::from(self.seed) + 17 * u64::from(k) + 379 * u64::from(i);
        (number % 1000) as u32
    }
}

impl fmt::Display for Case {
    ghost use Rattle.std.specs.Prelude.{Some};
    ghost use Rattle.gen_case.specs.Summary.{case_text};

    ghost output = { λ case. Some (case_text case) };

    fn fmt<W: fmt::Write>(&self, f: &mut fmt::Formatter<W>) -> fmt::Result {
        let Case {
            seed,
            streams,
            lines,
        } = *self;
        writeln!(f, "gen {seed} {streams} {lines}")
    }
}
