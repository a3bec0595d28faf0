// A disk relative to a point q on its boundary: the test of a point, and the disks of two and three points on the boundary.
#![tactic(auto)]

ghost use Rattle.std.specs.Prelude.{◌≡◌, ◌-ℤ◌};
ghost use Rattle.relative_disks.specs.Relative.{Coordinates, Differences, Near, Small, beyond, is_outside, diameter_about, circle_about};

use geometry::Point;

// Its centre is q + g/e. The empty disk has e = 0, and a q outside the em box. Three points in a row have e = 0 and g = 0.
#[derive(Clone, Copy)]
pub struct RelativeDisk {
    pub e: i64,
    pub qx: i64,
    pub qy: i64,
    pub gx: i64,
    pub gy: i64,
}

// |p - q|² e > 2 (p - q)·g, for p = (x, y)
fn is_beyond(d: RelativeDisk, x: i64, y: i64) -> bool
    requires small { Small d }
    requires near { Coordinates x y }
    ensures { result ≡ beyond d.e d.qx d.qy d.gx d.gy x y }
{
    let RelativeDisk { e, qx, qy, gx, gy } = d;
    let dx = x - qx;
    let dy = y - qy;
    0 < dx * (dx * e - 2 * gx) + dy * (dy * e - 2 * gy)
}

// Whether p is outside d.
pub fn is_outside(d: RelativeDisk, p: Point) -> bool
    requires small { Small d }
    requires near { Near p }
    ensures { result ≡ is_outside d p }
{
    is_beyond(d, geometry::wide(p.x), geometry::wide(p.y))
}

// The disk whose diameter is from a to b.
pub fn diameter(a: Point, b: Point) -> RelativeDisk
    requires near_a { Near a }
    requires near_b { Near b }
    ensures { result ≡ diameter_about a.x a.y b.x b.y }
{
    RelativeDisk {
        e: 2,
        qx: geometry::wide(a.x),
        qy: geometry::wide(a.y),
        gx: geometry::minus(b.x, a.x),
        gy: geometry::minus(b.y, a.y),
    }
}

// The circle through q, q + u and q + v. Three points in a row have none: then every point is held, as by the text's disk.
fn circle_about(qx: i64, qy: i64, ux: i64, uy: i64, vx: i64, vy: i64) -> RelativeDisk
    requires near { Coordinates qx qy }
    requires u_small { Differences ux uy }
    requires v_small { Differences vx vy }
    ensures { result ≡ circle_about qx qy ux uy vx vy }
{
    let e = 2 * (ux * vy - uy * vx);
    let u = ux * ux + uy * uy;
    let v = vx * vx + vy * vy;
    let gx = u * vy - v * uy;
    let gy = v * ux - u * vx;
    if e == 0 {
        return RelativeDisk {
            e,
            qx,
            qy,
            gx: 0,
            gy: 0,
        };
    }
    if e < 0 {
        return RelativeDisk {
            e: -e,
            qx,
            qy,
            gx: -gx,
            gy: -gy,
        };
    }
    RelativeDisk { e, qx, qy, gx, gy }
}

// The circle through a, b and c.
pub fn circle(a: Point, b: Point, c: Point) -> RelativeDisk
    requires near_a { Near a }
    requires near_b { Near b }
    requires near_c { Near c }
    ensures { result ≡ circle_about a.x a.y (b.x -ℤ a.x) (b.y -ℤ a.y) (c.x -ℤ a.x) (c.y -ℤ a.y) }
{
    circle_about(
        geometry::wide(a.x),
        geometry::wide(a.y),
        geometry::minus(b.x, a.x),
        geometry::minus(b.y, a.y),
        geometry::minus(c.x, a.x),
        geometry::minus(c.y, a.y),
    )
}
