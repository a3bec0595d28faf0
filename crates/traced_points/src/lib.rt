// The smallest disk that holds a hand-traced letter, wherever its points may really be within their squares (02, item 7).
//
// A disk holds a square exactly where it holds the square's four corners. So the corners of all squares are laid out as a list of points, and
// Welzl's procedure runs on them.
#![tactic(auto)]

ghost use Rattle.std.specs.Prelude.{◌≡◌, ◌*◌, ◌/◌, ◌%◌, ◌≤◌, pos, ◌+ℤ◌, ◌-ℤ◌, length};
ghost use Rattle.answers.specs.Outcome.{outcome, outcome_by};
ghost use Rattle.integers.specs.Order.{◌≼◌, between, Within};
ghost use Rattle.geometry.specs.EmBox.{all_in_em_box};
ghost use Rattle.disks.specs.Procedure.{disk_of};
ghost use Rattle.tracings.specs.Squares.{traced, corners, all_corners};
ghost use Rattle.geometry.specs.Plane.{numbers};
ghost use Rattle.traced_points.specs.Traced.{tolerated, fault, first_fault, traced_of};
ghost use Rattle.traced_points.specs.Checks.{Checks, Accepted};

use answers::Refusal;
use geometry::Disk;
use tracings::TracedPoint;

// Whether t is from 0 to 50.
fn is_tolerated(s: TracedPoint) -> bool
    ensures { result ≡ tolerated s }
{
    integers::is_between(0, geometry::wide(s.t), 50)
}

// Whether z is from low + t to high - t.
fn has_room(low: i64, z: i16, t: i16, high: i64) -> bool
    requires { Within 32768 low × Within 32768 high }
    ensures { result ≡ between (low +ℤ t) z (high -ℤ t) }
{
    let w = geometry::wide(t);
    integers::is_between(low + w, geometry::wide(z), high - w)
}

// Whether the square of s lies in the em box: so it is exactly where its middle lies in the box that is narrower by t on each side.
fn is_boxed(s: TracedPoint) -> bool
    requires { pos 0 ≼ s.t }
    ensures { result ≡ all_in_em_box (corners s) }
{
    has_room(geometry::LEFT, s.x, s.t, geometry::RIGHT)
        && has_room(geometry::FOOT, s.y, s.t, geometry::TOP)
}

// The rules of one traced point.
#[tactic(auto, unfolding(crate::specs::Traced::fault))]
fn check_point(s: TracedPoint) -> Result<(), Refusal>
    ensures { outcome result ≡ fault s }
{
    if !is_tolerated(s) {
        return Err(Refusal::BadTolerance);
    }
    if !is_boxed(s) {
        return Err(Refusal::OutsideBox);
    }
    Ok(())
}

// The first faulty traced point decides.
#[tactic(auto, unfolding(crate::specs::Traced::first_fault))]
fn check_points(list: &[i16]) -> Result<(), Refusal>
    ensures { outcome result ≡ first_fault (traced list.now) }
{
    for s in square_corners::traced_points(list) {
        check_point(s)?;
    }
    Ok(())
}

// The call's checks, in their order.
#[tactic(auto, unfolding(crate::specs::Traced::traced_of))]
fn check(list: &[i16]) -> Result<(), Refusal>
    ensures { Checks list.now result }
{
    if list.len() % 3 != 0 {
        return Err(Refusal::OddLength);
    }
    if list.is_empty() {
        return Err(Refusal::NoPoint);
    }
    if 1024 < list.len() / 3 {
        return Err(Refusal::TooMany);
    }
    check_points(list)
}

// The disk of the corners of all squares, with room lent for them.
fn solve(list: &[i16], room: &mut [i16]) -> Disk
    requires accepted { Accepted list.now }
    requires room_length { length room.old ≡ 8 * (length list.now / 3) }
    ensures { numbers result ≡ disk_of (all_corners (traced list.now)) }
{
    square_corners::lay_out(list, room);
    welzl::smallest(room).disk
}

// The same, with room for N numbers.
fn solve_in_room<const N: usize>(list: &[i16]) -> Disk
    requires accepted { Accepted list.now }
    requires fits { (8 * (length list.now / 3) ≤ N) × (N ≤ 8192) }
    ensures { numbers result ≡ disk_of (all_corners (traced list.now)) }
{
    let mut room = [0i16; N];
    let m = 8 * (list.len() / 3);
    solve(list, &mut room[..m])
}

// The smallest disk that holds the list's points wherever they may really be. The list is only read. Most lists are short, and clearing
// room for the longest would take a good part of their time.
pub fn smallest_disk_of_traced(list: &[i16]) -> Result<Disk, Refusal>
    ensures answer { outcome_by numbers result ≡ traced_of list.now }
{
    check(list)?;
    if list.len() <= 96 {
        return Ok(solve_in_room::<256>(list));
    }
    Ok(solve_in_room::<8192>(list))
}
