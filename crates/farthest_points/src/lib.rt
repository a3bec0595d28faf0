// The two points of a list that are farthest apart, found pair by pair.
#![tactic(auto)]

ghost use Rattle.std.specs.Prelude.{true, ◌≡◌, ◌+◌, ◌*◌, ◌≤◌, max, length};
ghost use Rattle.geometry.specs.EmBox.{em, Inside, all_in_em_box};
ghost use Rattle.geometry.specs.Points.{points, point_at};
ghost use Rattle.stretches.specs.Widest.{apart, ordered, ahead, better_of, best_from, widest_of};
ghost use Rattle.farthest_points.specs.Reach.{reach_from};

use geometry::Point;
use stretches::Stretch;

// |q − p|². In the em box differences fit 16 bits and squares 32, so that a loop takes several points at a time.
fn squared_distance(p: Point, q: Point) -> u32
    requires { Inside em p × Inside em q }
    ensures { result ≡ apart p q }
{
    let x = (q.x - p.x) as i32;
    let y = (q.y - p.y) as i32;
    (x * x + y * y) as u32
}

// The greatest squared distance of p from the points of the list.
fn reach(p: Point, list: &[i16]) -> u32
    requires { Inside em p × (all_in_em_box (points list.now) ≡ true) }
    ensures { result ≡ reach_from 0 p (points list.now) }
{
    let mut most: u32 = 0;
    // By index: with this loop and that of `best_from` over `points` the widest stretch of 48 points took a fifth longer.
    for j in 0..list.len() / 2 {
        most = most.max(squared_distance(p, geometry::point_at(list, j)));
    }
    most
}

// The stretch between p and q, whose squared distance is w.
#[tactic(auto, unfolding(stretches::specs::Widest::ordered, geometry::specs::Order::before))]
fn stretch_between(p: Point, q: Point, w: u64) -> Stretch
    requires { w ≡ apart p q }
    ensures { result ≡ ordered p q }
{
    if q < p {
        return Stretch { a: q, b: p, w };
    }
    Stretch { a: p, b: q, w }
}

// Whether s comes before t, compared point by point.
fn is_ahead(s: Stretch, t: Stretch) -> bool
    ensures { result ≡ ahead s t }
{
    (s.a, s.b) < (t.a, t.b)
}

// The better of s and the stretch between p and q.
fn better_of(s: Stretch, p: Point, q: Point) -> Stretch
    requires { Inside em p × Inside em q }
    ensures { result ≡ better_of s (ordered p q) }
{
    let w = u64::from(squared_distance(p, q));
    if w < s.w {
        return s;
    }
    let t = stretch_between(p, q, w);
    if s.w < w || is_ahead(t, s) { t } else { s }
}

// The best of s and the stretches between p and each point of the list.
fn best_from(s: Stretch, p: Point, list: &[i16]) -> Stretch
    requires { Inside em p × (all_in_em_box (points list.now) ≡ true) }
    ensures { result ≡ best_from s p (points list.now) }
{
    let mut found = s;
    // By index, as in `reach`.
    for j in 0..list.len() / 2 {
        found = better_of(found, p, geometry::point_at(list, j));
    }
    found
}

// The same. Most points do not reach as far as s is wide, and how far they do is known sooner.
fn best_if_far(s: Stretch, p: Point, list: &[i16]) -> Stretch
    requires { Inside em p × (all_in_em_box (points list.now) ≡ true) }
    ensures { result ≡ best_from s p (points list.now) }
{
    if u64::from(reach(p, list)) < s.w {
        return s;
    }
    best_from(s, p, list)
}

// The widest stretch of the list.
pub fn widest(list: &[i16]) -> Stretch
    requires { (2 ≤ length list.now) × (all_in_em_box (points list.now) ≡ true) }
    ensures { result ≡ widest_of (points list.now) }
{
    let first = geometry::point_at(list, 0);
    let mut found = stretch_between(first, first, 0);
    // By index: each point is held against the rest of the list from it on.
    for i in 0..list.len() / 2 {
        let p = geometry::point_at(list, i);
        found = best_if_far(found, p, &list[2 * i..]);
    }
    found
}
