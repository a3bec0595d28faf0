// The power of a point in a disk. The points of the boundary all have the same, and no other point has it: so where one of them is known, the others
// are found in 64 bits, without their distance from the centre.
#![tactic(auto)]

ghost use Rattle.std.specs.Prelude.{◌≡◌, ◌≤◌};
ghost use Rattle.geometry.specs.Plane.{numbers};
ghost use Rattle.support_tests.specs.Tests.{on_boundary_test, SmallPair, SmallDisk};
ghost use Rattle.boundary_powers.specs.Power.{power_along, power_of, OfBoundary};

use geometry::{Disk, Point};

// v(v·e − 2c)
fn power_along(v: i16, e: u64, c: i64) -> i64
    requires { SmallPair e c }
    ensures { result ≡ power_along v e c }
{
    let w = geometry::wide(v);
    w * (w * (e as i64) - 2 * c)
}

// The power of p, times E, but for a number that is the same for every point.
pub fn power(disk: Disk, p: Point) -> i64
    requires { SmallDisk (numbers disk) }
    ensures { result ≡ power_of (numbers disk) p }
{
    let a = power_along(p.x, disk.e, disk.x);
    let b = power_along(p.y, disk.e, disk.y);
    a + b
}

// Whether p is on the boundary (01: on the rim), whose points have the power k.
pub fn on_boundary(disk: Disk, k: i64, p: Point) -> bool
    requires { SmallDisk (numbers disk) × (1 ≤ disk.e) × OfBoundary (numbers disk) k }
    ensures { result ≡ on_boundary_test (numbers disk) p }
{
    power(disk, p) == k
}
