// Stored cases of sheets run under an allowance (tests/README.md): each is given its bytes, and what the call answers and leaves is printed.
#![tactic(auto)]

use std::io;

fn run(
    rt: &impl Print,
    sheet: &[u8],
    allowance: u64,
    buffer: &mut [u8],
    numbers: &mut [u16],
) -> io::Result<()> {
    match sheet_run::run_sheet(sheet, allowance, buffer, numbers) {
        Ok(ran) => println!(rt; "worked {} {}", ran.worked, ran.left)?,
        Err(refusal) => println!(rt; "{refusal}")?,
    }
    println!(rt; "buffer {}", checksum::of(buffer))?;
    println!(rt; "numbers {}", checksum::of(numbers))
}

// G: the allowance in eight bytes, the lengths of the buffer and of the list in two each, then the sheet.
pub fn run_allowed(rt: &impl Print, bytes: &[u8]) -> io::Result<()> {
    let mut bytes_room = [238u8; 65535];
    let mut numbers_room = [12321u16; 1300];
    if let Some((head, sheet)) = bytes.split_at_checked(12)
        && let Some(buffer) = bytes_room.get_mut(..cases::length_at(head, 8))
        && let Some(numbers) = numbers_room.get_mut(..cases::length_at(head, 10))
    {
        run(rt, sheet, cases::word_at(head, 0), buffer, numbers)?;
    }
    Ok(())
}
