// Stored cases of descriptions, point lists, the procedure with two points fixed and a drawing program's points (tests/README.md): each is given its
// bytes, and what the calls answer and leave is printed.
#![tactic(auto)]

ghost use Rattle.std.specs.Prelude.{◌≡◌, ◌%◌, ◌≤◌, length};
ghost use Rattle.relative_disks.specs.Relative.{Small};

use answers::Refusal;
use drawn_points::DrawnPoint;
use geometry::Point;
use relative_disks::RelativeDisk;
use std::io;

// The list as a call leaves it.
fn print_left(rt: &impl Print, list: &[i16]) -> io::Result<()> {
    println!(rt; "left {}", checksum::of(list))
}

// The engine on a list of points alone.
fn solve(rt: &impl Print, list: &mut [i16]) -> io::Result<()> {
    report::print_enclosed(rt, engine::smallest_disk(list))?;
    print_left(rt, list)
}

// How many points a call says are at the front of the list, or its refusal, and the list as it leaves it.
fn print_points(rt: &impl Print, answer: Result<usize, Refusal>, list: &[i16]) -> io::Result<()> {
    printing::print_answer(rt, "points", answer)?;
    println!(rt; "list {}", checksum::of(list))
}

// The same, and the engine on these points.
pub fn print_and_solve(
    rt: &impl Print,
    answer: Result<usize, Refusal>,
    list: &mut [i16],
) -> io::Result<()> {
    print_points(rt, answer, list)?;
    if let Ok(n) = answer
        && let Some(front) = list.get_mut(..n.saturating_mul(2))
    {
        solve(rt, front)?;
    }
    Ok(())
}

// D: a description, as the listing prints it, and the list that the engine leaves.
pub fn run_listing(rt: &impl Print, text: &[u8]) -> io::Result<()> {
    report::print_description(rt, text)?;
    let mut list = [0i16; 8192];
    if let Ok(n) = description::load(text, &mut list)
        && let Some(front) = list.get_mut(..n.saturating_mul(2))
    {
        let _ = engine::smallest_disk(front);
        print_left(rt, front)?;
    }
    Ok(())
}

// E: a list of points, through the engine.
pub fn run_engine(rt: &impl Print, bytes: &[u8]) -> io::Result<()> {
    let mut room = [0i16; 8200];
    match cases::list_in(bytes, &mut room) {
        Some(list) => solve(rt, list),
        None => Ok(()),
    }
}

// The disk that a run ends on; three points in a row have no circle.
fn print_relative(rt: &impl Print, d: RelativeDisk) -> io::Result<()>
    requires { Small d }
{
    if 0 < d.e {
        println!(rt; "disk {}", lowest_disks::written(d))
    } else {
        println!(rt; "no circle")
    }
}

// The procedure on a list of points alone, with a and b fixed; all of them in the em box, or nothing is done.
fn solve_fixed(rt: &impl Print, list: &mut [i16], a: Point, b: Point) -> io::Result<()>
    requires whole { length list.old % 2 ≡ 0 }
    requires few { length list.old ≤ 8192 }
{
    if !engine::all_in_em_box(list) {
        return Ok(());
    }
    if !geometry::in_em_box(a) {
        return Ok(());
    }
    if !geometry::in_em_box(b) {
        return Ok(());
    }
    let n = list.len() / 2;
    let run = inner_level::two_fixed(list, n, a, b);
    print_relative(rt, run.disk)?;
    println!(rt; "tests {}", run.tests)?;
    print_left(rt, list)
}

// F: two points, four bytes each, then a list of points; through the procedure with the two fixed.
pub fn run_fixed(rt: &impl Print, bytes: &[u8]) -> io::Result<()> {
    let Some((fixed, numbers)) = bytes.split_at_checked(8) else {
        return Ok(());
    };
    let whole = numbers.len() / 4 * 4;
    let mut room = [0i16; 8192];
    match cases::list_in(&numbers[..whole], &mut room) {
        Some(list) => solve_fixed(
            rt,
            list,
            cases::point_at(fixed, 0),
            cases::point_at(fixed, 4),
        ),
        None => Ok(()),
    }
}

// L: the length of the lent list in two bytes, then a description, through the loader.
pub fn run_loader(rt: &impl Print, bytes: &[u8]) -> io::Result<()> {
    let mut room = [12321i16; 8200];
    if let Some(text) = bytes.get(2..)
        && let Some(list) = room.get_mut(..cases::length_at(bytes, 0))
    {
        let answer = description::load(text, list);
        print_points(rt, answer, list)?;
    }
    Ok(())
}

// The kind 1 has whole numbers, any other floats; x and y have eight bytes each.
fn drawn_point(bytes: &[u8]) -> DrawnPoint {
    if bytes.first() == Some(&1) {
        return DrawnPoint::Whole(cases::int_at(bytes, 1), cases::int_at(bytes, 9));
    }
    DrawnPoint::Drawn(cases::float_at(bytes, 1), cases::float_at(bytes, 9))
}

// A: a point, how many points are there in eight bytes, the length of the lent list in two; then the numbers at its front.
pub fn run_append(rt: &impl Print, bytes: &[u8]) -> io::Result<()> {
    let Some((head, numbers)) = bytes.split_at_checked(27) else {
        return Ok(());
    };
    let mut room = [12321i16; 8200];
    cases::fill_list(numbers, &mut room);
    if let Some(list) = room.get_mut(..cases::length_at(head, 25)) {
        let answer = drawn_points::append_point(
            drawn_point(head),
            list,
            cases::word_at(head, 17) as usize,
        );
        print_and_solve(rt, answer, list)?;
    }
    Ok(())
}
