// The set R of points fixed on the boundary, and the smallest disk that has them there (000: R and md(∅, R)).
#![tactic(auto)]

ghost use Rattle.std.specs.Prelude.{◌≡◌};
ghost use Rattle.disks.specs.Procedure.{boundary_disk};
ghost use Rattle.relative_disks.specs.Relative.{Keeps};
ghost use Rattle.fixed_points.specs.Boundary.{members, room_in, added, Boxed};

use geometry::Point;
use relative_disks::RelativeDisk;

// The one added last comes first.
#[derive(Clone, Copy)]
pub enum Boundary {
    None,
    One(Point),
    Two(Point, Point),
    Three(Point, Point, Point),
}

// How many more points may be fixed: 3 - |R|.
pub fn room(fixed: Boundary) -> usize
    ensures { result ≡ room_in fixed }
{
    match fixed {
        Boundary::None => 3,
        Boundary::One(_) => 2,
        Boundary::Two(_, _) => 1,
        Boundary::Three(_, _, _) => 0,
    }
}

// R with p added.
pub fn add_point(fixed: Boundary, p: Point) -> Boundary
    ensures { result ≡ added fixed p }
{
    match fixed {
        Boundary::None => Boundary::One(p),
        Boundary::One(a) => Boundary::Two(p, a),
        Boundary::Two(a, b) => Boundary::Three(p, a, b),
        Boundary::Three(a, b, c) => Boundary::Three(a, b, c),
    }
}

// The smallest disk with R on its boundary.
pub fn boundary_disk(fixed: Boundary) -> RelativeDisk
    requires { Boxed (members fixed) }
    ensures { Keeps result (boundary_disk (members fixed)) }
{
    match fixed {
        Boundary::None => RelativeDisk {
            e: 0,
            qx: geometry::LEFT_OF_BOX,
            qy: 0,
            gx: -1,
            gy: 0,
        },
        Boundary::One(a) => RelativeDisk {
            e: 1,
            qx: geometry::wide(a.x),
            qy: geometry::wide(a.y),
            gx: 0,
            gy: 0,
        },
        Boundary::Two(a, b) => relative_disks::diameter(a, b),
        Boundary::Three(a, b, c) => relative_disks::circle(a, b, c),
    }
}
