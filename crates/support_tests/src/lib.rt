// The tests of one to three points against a disk: on its boundary, the ends of a diameter, a triangle with acute angles.
#![tactic(auto)]

ghost use Rattle.std.specs.Prelude.{◌≡◌, pos, ◌-ℤ◌, ◌*ℤ◌};
ghost use Rattle.geometry.specs.Plane.{numbers};
ghost use Rattle.support_tests.specs.Tests.{on_boundary_test, midway, opposite, acute_at, acute, SmallPair, SmallDisk};

use geometry::{Disk, Point, minus};

// v·e − c
fn offset(v: i16, e: u64, c: i64) -> i64
    requires { SmallPair e c }
    ensures { result ≡ v *ℤ pos e -ℤ c }
{
    geometry::wide(v) * (e as i64) - c
}

// Whether p is on the disk's boundary (01: on the rim), by its distance from the centre.
pub fn on_boundary(disk: Disk, p: Point) -> bool
    requires { SmallDisk (numbers disk) }
    ensures { result ≡ on_boundary_test (numbers disk) p }
{
    let a = offset(p.x, disk.e, disk.x);
    let b = offset(p.y, disk.e, disk.y);
    wide_numbers::is_same(wide_numbers::sum_of_squares(a, b), disk.s)
}

// (a + b)e = 2c
fn is_midway(a: i16, b: i16, e: u64, c: i64) -> bool
    requires { SmallPair e c }
    ensures { result ≡ midway a b e c }
{
    (geometry::wide(a) + geometry::wide(b)) * (e as i64) == 2 * c
}

// Whether p and q are the ends of a diameter of the disk, where both are on its boundary.
pub fn is_opposite(disk: Disk, p: Point, q: Point) -> bool
    requires { SmallDisk (numbers disk) }
    ensures { result ≡ opposite (numbers disk) p q }
{
    is_midway(p.x, q.x, disk.e, disk.x) && is_midway(p.y, q.y, disk.e, disk.y)
}

// Whether the angle at a in the triangle a b c is acute.
fn is_acute_at(a: Point, b: Point, c: Point) -> bool
    ensures { result ≡ acute_at a b c }
{
    0 < minus(b.x, a.x) * minus(c.x, a.x) + minus(b.y, a.y) * minus(c.y, a.y)
}

// Whether the triangle p q r has acute angles only.
#[tactic(auto, unfolding(crate::specs::Tests::acute))]
pub fn is_acute(p: Point, q: Point, r: Point) -> bool
    ensures { result ≡ acute p q r }
{
    is_acute_at(p, q, r) && is_acute_at(q, r, p) && is_acute_at(r, p, q)
}
