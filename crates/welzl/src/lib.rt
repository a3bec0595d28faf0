// Welzl's move-to-front procedure on a list of points (000: B_MTFDISK; 01, "Welzl's procedure and the count").
#![tactic(auto)]

ghost use Rattle.std.specs.Prelude.{◌≡◌};
ghost use Rattle.geometry.specs.Points.{points, flat};
ghost use Rattle.disks.specs.Procedure.{disk_of, tests_of, order_of};
ghost use Rattle.inner_level.specs.Ran.{Given, Ran};
ghost use Rattle.geometry.specs.Plane.{numbers};
ghost use Rattle.welzl.specs.WholeList.{AllGiven};

use fixed_points::Boundary;
use geometry::Disk;
use inner_level::RelativeRun;

// The smallest disk, and how many tests of a point it took.
#[derive(Drop)]
pub struct Run {
    pub disk: Disk,
    pub tests: u64,
}

// B_MTFDISK on the first n points of the list, with R fixed on the boundary; with two points fixed by the level of its own.
// Each point is tested once here, so that n and the tests of the calls make the count. In front of the first point there is nothing to
// test, so that a call for it would only give the disk of its R.
pub fn mtf(list: &mut [i16], n: usize, fixed: Boundary) -> RelativeRun
    requires { Given fixed n list.old }
    ensures { Ran fixed n list.old list.new result.disk result.tests }
{
    if let Boundary::Two(a, b) = fixed {
        return inner_level::two_fixed(list, n, a, b);
    }
    let mut disk = fixed_points::boundary_disk(fixed);
    if fixed_points::room(fixed) == 0 {
        return RelativeRun { disk, tests: 0 };
    }
    let mut inner: u64 = 0;
    // By index: the turns move points of the list.
    for i in 0..n {
        let p = geometry::point_at(list, i);
        if relative_disks::is_outside(disk, p) {
            let next = fixed_points::add_point(fixed, p);
            if 0 < i {
                let again = mtf(list, i, next);
                disk = again.disk;
                inner += again.tests;
            } else {
                disk = fixed_points::boundary_disk(next);
            }
            point_moves::move_to_front(list, i);
        }
    }
    let tests = inner + n as u64;
    RelativeRun { disk, tests }
}

// The procedure on the whole list, with no point fixed: the smallest disk, the tests, and the list as the procedure leaves it.
pub fn smallest(list: &mut [i16]) -> Run
    requires { AllGiven list.old }
    ensures disk { numbers result.disk ≡ disk_of (points list.old) }
    ensures tests { result.tests ≡ tests_of (points list.old) }
    ensures order { list.new ≡ flat (order_of (points list.old)) }
{
    let n = list.len() / 2;
    let run = mtf(list, n, Boundary::None);
    Run {
        disk: lowest_disks::written(run.disk),
        tests: run.tests,
    }
}
