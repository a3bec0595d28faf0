// Points put in their places in a rising list, each once.
// The first n points of a list stand for a list of n: memory is fixed, so the list has room behind them.
#![tactic(auto)]

ghost use Rattle.std.specs.Prelude.{◌≡◌, ◌+◌, ◌*◌, ◌≤◌, length};
ghost use Rattle.geometry.specs.Points.{first_points};
ghost use Rattle.point_lists.specs.Rising.{insert};
ghost use Rattle.rising_lists.specs.Place.{place_of, inserted_at};

use geometry::Point;

// The place of p among the first n points of the list, where it is not one of them.
fn find_place(list: &[i16], n: usize, p: Point) -> Option<usize>
    requires { 2 * n ≤ length list.now }
    ensures { result ≡ place_of p (first_points n list.now) 0 }
{
    // By index and test by test: with an iterator, the derived order and `then_some` lists with many points on one circle, or many equal ones,
    // took 1.3 to 1.5 times as long.
    for k in 0..n {
        let q = geometry::point_at(list, k);
        if !geometry::is_before(q, p) {
            if geometry::is_before(p, q) {
                return Some(k);
            }
            return None;
        }
    }
    Some(n)
}

// Puts p in front of point k of the first n; those from k on go back by one place.
fn insert_at(list: &mut [i16], n: usize, k: usize, p: Point)
    requires { (k ≤ n) × (2 * n + 2 ≤ length list.old) }
    ensures { first_points (n + 1) list.new ≡ inserted_at k p (first_points n list.old) }
{
    let mut held = p;
    // By index: rotate_right takes ten times as long for a few points.
    for i in k..n {
        let q = geometry::point_at(list, i);
        point_lists::put_point(list, i, held);
        held = q;
    }
    point_lists::put_point(list, n, held);
}

// Puts p in its place among the first n points of the list, and returns how many there are then.
pub fn insert_point(list: &mut [i16], n: usize, p: Point) -> usize
    requires { 2 * n + 2 ≤ length list.old }
    ensures size { result ≡ length (insert p (first_points n list.old)) }
    ensures left { first_points result list.new ≡ insert p (first_points n list.old) }
{
    match find_place(list, n, p) {
        None => n,
        Some(k) => {
            insert_at(list, n, k, p);
            n + 1
        }
    }
}
