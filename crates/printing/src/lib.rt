// A call's answer as a line on the standard output.
#![tactic(auto)]

use answers::Refusal;
use std::fmt::Display;
use std::io;

// The word and the value, or the refusal.
pub fn print_answer<T: Display + Drop>(
    rt: &impl Print,
    word: &str,
    answer: Result<T, Refusal>,
) -> io::Result<()> {
    match answer {
        Ok(value) => println!(rt; "{word} {value}"),
        Err(refusal) => println!(rt; "{refusal}"),
    }
}
