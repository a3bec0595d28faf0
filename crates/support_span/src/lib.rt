// Points that the search for the first support set can leave out: those between two opposite points of the boundary.
#![tactic(auto)]

ghost use Rattle.std.specs.Prelude.{◌≡◌};
ghost use Rattle.geometry.specs.Points.{points};
ghost use Rattle.point_lists.specs.Sets.{In};
ghost use Rattle.support_tests.specs.Tests.{SmallDisk};
ghost use Rattle.geometry.specs.Plane.{numbers};
ghost use Rattle.support_span.specs.Span.{strictly_within, Spans};

use geometry::{Disk, Point};

// The x of two opposite points of the boundary. No point with an x strictly between them is in the first support set.
#[derive(Clone, Copy)]
pub struct Span {
    pub lo: i16,
    pub hi: i16,
}

// Whether x is strictly within the span.
pub fn is_spanned(span: Span, x: i16) -> bool
    ensures { result ≡ strictly_within span x }
{
    span.lo < x && x < span.hi
}

// The span of p and its opposite, where that is one of the list's points; else the span given.
pub fn span_with(list: &[i16], disk: Disk, p: Point, span: Span) -> Span
    requires small { SmallDisk (numbers disk) }
    requires among { In p (points list.now) }
    requires spans { Spans (numbers disk) (points list.now) span }
    ensures { Spans (numbers disk) (points list.now) result }
{
    for q in geometry::points(list) {
        if support_tests::is_opposite(disk, p, q) {
            if p.x < q.x {
                return Span { lo: p.x, hi: q.x };
            }
            return Span { lo: q.x, hi: p.x };
        }
    }
    span
}
