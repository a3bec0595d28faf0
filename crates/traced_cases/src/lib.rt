// Stored cases of lists of traced points (tests/README.md): each is given its bytes, and what the call answers and leaves is printed.
#![tactic(auto)]

use std::io;

fn solve(rt: &impl Print, list: &[i16]) -> io::Result<()> {
    printing::print_answer(rt, "disk", traced_points::smallest_disk_of_traced(list))?;
    println!(rt; "left {}", checksum::of(list))
}

// T: a list of traced points.
pub fn run_traced(rt: &impl Print, bytes: &[u8]) -> io::Result<()> {
    let mut room = [0i16; 3200];
    match cases::list_in(bytes, &mut room) {
        Some(list) => solve(rt, list),
        None => Ok(()),
    }
}
