// Stored cases of lists with chosen points (tests/README.md): each is given its bytes, and what the call answers and leaves is printed.
#![tactic(auto)]

use chosen_points::Chosen;
use std::io;

// How many are chosen, 1 or else two, and two points; of one the first alone.
fn chosen_of(head: &[u8]) -> Chosen {
    let a = cases::point_at(head, 1);
    if head.first() == Some(&1) {
        return Chosen::One(a);
    }
    Chosen::Two(a, cases::point_at(head, 5))
}

fn solve(rt: &impl Print, list: &[i16], chosen: Chosen) -> io::Result<()> {
    printing::print_answer(
        rt,
        "disk",
        chosen_points::smallest_disk_through(list, chosen),
    )?;
    println!(rt; "left {}", checksum::of(list))
}

// C: how many points are chosen, two points, then a list of points.
pub fn run_chosen(rt: &impl Print, bytes: &[u8]) -> io::Result<()> {
    let Some((head, numbers)) = bytes.split_at_checked(9) else {
        return Ok(());
    };
    let mut room = [0i16; 8200];
    match cases::list_in(numbers, &mut room) {
        Some(list) => solve(rt, list, chosen_of(head)),
        None => Ok(()),
    }
}
