// What the sheet listing's argument asks for.
use std::env::{Env, FillError};
use std::fmt;

#[derive(Clone, Copy, Debug, PartialEq, Eq)]
pub struct BadArgument;

// The greatest allowance that a run takes, 2⁶⁰ − 1.
const GREATEST: u64 = (1 << 60) - 1;

#[derive(Clone, Copy, Debug, PartialEq, Eq)]
pub enum Wanted {
    // A run with so many tests allowed.
    Run(u64),
    // What a run will take.
    Estimate,
}

impl fmt::Display for BadArgument {
    fn fmt<W: fmt::Write>(&self, f: &mut fmt::Formatter<W>) -> fmt::Result {
        f.write_str("the allowance is no number in decimal digits, nor the word estimate")
    }
}

// A number that a u64 does not hold counts as the greatest that it does, which no run takes either.
impl TryFrom<&[u8]> for Wanted {
    type Error = BadArgument;

    fn try_from(text: &[u8]) -> Result<Wanted, BadArgument> {
        if text == b"estimate".as_slice() {
            return Ok(Wanted::Estimate);
        }
        if text.is_empty() {
            return Err(BadArgument);
        }
        let mut tests = 0u64;
        for b in text {
            if !b.is_ascii_digit() {
                return Err(BadArgument);
            }
            tests = tests
                .saturating_mul(10)
                .saturating_add(u64::from(*b - b'0'));
        }
        Ok(Wanted::Run(tests))
    }
}

impl Wanted {
    // The first argument, which is longer than any allowance is written where the room does not hold it; without one the greatest allowance.
    pub fn read(rt: &impl Env) -> Result<Wanted, BadArgument> {
        let mut text = [0u8; 64];
        match rt.arg(1, &mut text) {
            Ok(n) => Wanted::try_from(&text[..n]),
            Err(FillError::NotPresent) => Ok(Wanted::Run(GREATEST)),
            Err(FillError::TooLong) => Err(BadArgument),
        }
    }
}
