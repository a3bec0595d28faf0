// A disk written in lowest terms: centre (x/e, y/e) and squared radius s/e² without a common divisor of x, y and e.
#![tactic(auto)]

ghost use Rattle.std.specs.Prelude.{◌≡◌, pos};
ghost use Rattle.integers.specs.Order.{◌≺◌};
ghost use Rattle.geometry.specs.Plane.{numbers};
ghost use Rattle.relative_disks.specs.Relative.{Small, in_lowest_terms};

use geometry::Disk;
use relative_disks::RelativeDisk;

// The disk with centre q + g/e and q on its boundary. A common divisor of g and e is one of the centre's numbers and e, and the other way round. So g
// and e are divided by it, q is added, and S is the square of what is left of g: no number above 64 bits is divided.
pub fn written(d: RelativeDisk) -> Disk
    requires proper { pos 0 ≺ d.e }
    requires small { Small d }
    ensures { numbers result ≡ in_lowest_terms d }
{
    let t = divisors::lowest_terms(d.gx, d.gy, d.e.unsigned_abs());
    let e = t.e as i64;
    Disk {
        x: d.qx * e + t.x,
        y: d.qy * e + t.y,
        e: t.e,
        s: wide_numbers::sum_of_squares(t.x, t.y),
    }
}
