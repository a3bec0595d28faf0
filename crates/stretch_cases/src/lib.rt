// Stored cases of the widest stretch of a list (tests/README.md): each is given its bytes, and what the call answers and leaves is printed.
#![tactic(auto)]

use std::io;

fn solve(rt: &impl Print, list: &[i16]) -> io::Result<()> {
    match widest_stretch::widest_stretch(list) {
        Ok(stretch) => println!(rt; "stretch {} {} {}", stretch.a, stretch.b, stretch.w)?,
        Err(refusal) => println!(rt; "{refusal}")?,
    }
    println!(rt; "left {}", checksum::of(list))
}

// X: a list of points.
pub fn run_stretch(rt: &impl Print, bytes: &[u8]) -> io::Result<()> {
    let mut room = [0i16; 8200];
    match cases::list_in(bytes, &mut room) {
        Some(list) => solve(rt, list),
        None => Ok(()),
    }
}
