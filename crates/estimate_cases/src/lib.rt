// Stored cases of what a sheet will take (tests/README.md): each is given its bytes, and what the call answers and leaves is printed.
#![tactic(auto)]

use std::io;

fn estimate(
    rt: &impl Print,
    sheet: &[u8],
    points: &mut [u16],
    refusals: &mut [u16],
) -> io::Result<()> {
    match sheet_estimate::estimate_sheet(sheet, points, refusals) {
        Ok(estimate) => println!(rt; "takes {} {}", estimate.bytes, estimate.tests)?,
        Err(refusal) => println!(rt; "{refusal}")?,
    }
    println!(rt; "points {}", checksum::of(points))?;
    println!(rt; "refusals {}", checksum::of(refusals))
}

// B: the lengths of the two lists in two bytes each, then the sheet: what it will take, said before the press is booked.
pub fn estimate_listed(rt: &impl Print, bytes: &[u8]) -> io::Result<()> {
    let mut points_room = [12321u16; 1300];
    let mut refusals_room = [12321u16; 1300];
    if let Some((head, sheet)) = bytes.split_at_checked(4)
        && let Some(points) = points_room.get_mut(..cases::length_at(head, 0))
        && let Some(refusals) = refusals_room.get_mut(..cases::length_at(head, 2))
    {
        estimate(rt, sheet, points, refusals)?;
    }
    Ok(())
}
