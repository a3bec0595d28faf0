// The sheet listing program: reads a sheet from standard input and prints a line a glyph, of a run or of what it will take. Its argument
// is the allowance of tests, in decimal digits, or the word estimate; without one it is the greatest allowance that a run takes.
#![tactic(auto)]

mod estimate;
mod run;
mod wanted;

use std::io;
use wanted::Wanted;

fn list(rt: &(impl io::Input + Print + Eprint), wanted: Wanted) -> io::Result<()> {
    let mut sheet = [0u8; 65536];
    let n = match reading::read_all(rt, &mut sheet) {
        Ok(n) => n,
        Err(error) => return eprintln!(rt; "standard input: {error}"),
    };
    let printed = match wanted {
        Wanted::Run(tests) => run::print_sheet(rt, &sheet[..n], tests),
        Wanted::Estimate => estimate::print_sheet(rt, &sheet[..n]),
    };
    // Output that cannot be written is passed over.
    printed.or(Ok(()))
}

fn main(rt: HostRuntime) -> io::Result<()> {
    match Wanted::read(&rt) {
        Ok(wanted) => list(&rt, wanted),
        Err(error) => eprintln!(rt; "{error}"),
    }
}
