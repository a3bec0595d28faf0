// Traced points in a list of numbers, x, y and t by turns, and the corners of their squares laid out as a list of points.
#![tactic(auto)]

ghost use Rattle.std.specs.Prelude.{◌≡◌, ◌++◌, ◌+◌, ◌*◌, ◌/◌, ◌%◌, ◌≤◌, length};
ghost use Rattle.std.specs.Iterator.{YieldsFirst, item_count};
ghost use Rattle.geometry.specs.Points.{points, first_points};
ghost use Rattle.tracings.specs.Squares.{traced, corners, all_corners};
ghost use Rattle.square_corners.specs.Laying.{Boxed, AllBoxed};

use geometry::Point;
use tracings::TracedPoint;

// The traced points of a list of numbers, first to last.
#[derive(Drop)]
pub struct TracedIter<'a>(&'a [i16]);

impl<'a> Iterator for TracedIter<'a> {
    type Item = TracedPoint;

    ghost next_gives = { YieldsFirst (λ s. traced s.0.now) };

    ghost remaining = { item_count (λ s. traced s.0.now) };

    #[tactic(auto, using(crate::proofs::Threes::traced_none, crate::proofs::Threes::traced_next))]
    fn next(&mut self) -> Option<TracedPoint> {
        let ([x, y, t], rest) = self.0.split_first_chunk::<3>()?;
        self.0 = rest;
        Some(TracedPoint {
            x: *x,
            y: *y,
            t: *t,
        })
    }
}

pub fn traced_points(list: &[i16]) -> TracedIter<'_>
    ensures { traced result.0.now ≡ traced list.now }
{
    TracedIter(list)
}

// Writes the corners of the square of s as points 4i to 4i + 3.
fn put_corners(room: &mut [i16], i: usize, s: TracedPoint)
    requires room { 8 * i + 8 ≤ length room.old }
    requires boxed { Boxed s }
    ensures { first_points (4 * (i + 1)) room.new ≡ first_points (4 * i) room.old ++ corners s }
{
    let TracedPoint { x, y, t } = s;
    let left = x - t;
    let right = x + t;
    let low = y - t;
    let high = y + t;
    let j = 4 * i;
    point_lists::put_point(room, j, Point { x: left, y: low });
    point_lists::put_point(room, j + 1, Point { x: left, y: high });
    point_lists::put_point(room, j + 2, Point { x: right, y: low });
    point_lists::put_point(room, j + 3, Point { x: right, y: high });
}

// Writes the corners of all squares.
pub fn lay_out(list: &[i16], room: &mut [i16])
    requires threes { length list.now % 3 ≡ 0 }
    requires boxed { AllBoxed (traced list.now) }
    requires room_length { length room.old ≡ 8 * (length list.now / 3) }
    ensures { points room.new ≡ all_corners (traced list.now) }
{
    for (i, s) in traced_points(list).enumerate() {
        put_corners(room, i, s);
    }
}
