// The listing program: reads a description from standard input and prints its smallest disk, support set, whole radius and test count.
#![tactic(auto)]

use std::io;

fn main(rt: HostRuntime) -> io::Result<()> {
    let mut text = [0u8; 65536];
    match reading::read_all(&rt, &mut text) {
        // Output that cannot be written is passed over.
        Ok(n) => report::print_description(&rt, &text[..n]).or(Ok(())),
        Err(error) => eprintln!(rt; "standard input: {error}"),
    }
}
