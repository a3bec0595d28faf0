// The level of Welzl's procedure with two points fixed, in the text's own sequence (000, B_MTFDISK; 02, item 5: the inner level).
#![tactic(auto)]

ghost use Rattle.fixed_points.specs.declared.Boundary.TheVariants.{Two};
ghost use Rattle.inner_level.specs.Ran.{Given, Ran};

use fixed_points::Boundary;
use geometry::Point;
use relative_disks::RelativeDisk;

// What a run gives, before its disk is written in lowest terms.
#[derive(Drop)]
pub struct RelativeRun {
    pub disk: RelativeDisk,
    pub tests: u64,
}

// B_MTFDISK(P, R) with R = {a, b}, P the first n points of the list. Each turn is the call for one point more, and 000's words stand at
// its steps; the loop is its recursion on the last point, without the stack.
pub fn two_fixed(list: &mut [i16], n: usize, a: Point, b: Point) -> RelativeRun
    requires { Given (Two a b) n list.old }
    ensures { Ran (Two a b) n list.old list.new result.disk result.tests }
{
    // "if P = ∅ .. then D := b_md(∅, R)"
    let mut disk = fixed_points::boundary_disk(Boundary::Two(a, b));
    // By index: the turns move points of the list.
    for i in 0..n {
        // "choose last p in P"
        let p = geometry::point_at(list, i);
        // "D := B_MTFDISK(P - {p}, R)": the disk of the shorter list, which the turn before has left
        let shorter = disk;
        // "if p ∉ D": the test of p
        if relative_disks::is_outside(shorter, p) {
            // "D := B_MTFDISK(P - {p}, R ∪ {p})": the disk with p added, at once, since R then has three points
            disk = fixed_points::boundary_disk(Boundary::Three(p, a, b));
            // "move p to the first position"
            point_moves::move_to_front(list, i);
        }
    }
    // "return D"; each of the n points was tested once
    RelativeRun {
        disk,
        tests: n as u64,
    }
}
