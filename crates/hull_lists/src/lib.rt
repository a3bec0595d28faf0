// The convex hull of a list of points, put in the list's place.
#![tactic(auto)]

ghost use Rattle.std.specs.Prelude.{◌≡◌, ℕ, ◌+◌, ◌-◌, ◌*◌, ◌%◌, ◌≤◌, ◌<◌, length};
ghost use Rattle.geometry.specs.Points.{points};
ghost use Rattle.hull.specs.Chains as Chains;
ghost use Rattle.hull.specs.Skimmed.{skim_chain};
ghost use Rattle.hull_chains.specs.Spans.{span};
ghost use Rattle.columns.specs.Columns.{Columns, Seen, column_count, side_length};
ghost use Rattle.joined_chains.specs.Laid.{laid};
ghost use Rattle.hull_lists.specs.Enclosed.{closed, enclosed_by, Boxed};

use geometry::Point;

// Writes p behind the first n points of the list, unless the last of them is as high, and returns how many there are then.
fn close(list: &mut [i16], n: usize, p: Point) -> usize
    requires { (2 * n + 2 ≤ length list.old) × (1 ≤ n) × (n ≤ 4095) }
    ensures size { (n ≤ result) × (result ≤ n + 1) }
    ensures left { (j : ℕ) → j < n → span j result list.new ≡ closed (span j n list.old) p }
{
    let e = geometry::point_at(list, n - 1);
    if e.y == p.y {
        return n;
    }
    point_lists::put_point(list, n, p);
    n + 1
}

// Makes the points of the list their chain and returns it.
fn chain_of(list: &mut [i16]) -> &[i16]
    requires { 2 ≤ length list.old }
    ensures points { points result.now ≡ skim_chain (points list.old) }
    ensures parity { length result.now % 2 ≡ length list.old % 2 }
{
    let k = hull_chains::chain(list);
    &list[2 * k..]
}

// The hull of a list, from its m lowest points and its m highest ones, put in front of the list, and zeros behind; returns how many corners it has.
fn lay(lows: &mut [i16], highs: &mut [i16], m: usize, list: &mut [i16]) -> usize
    requires le_m { (1 ≤ m) × (m ≤ column_count) × (length lows.old ≡ side_length) × (length highs.old ≡ side_length) }
    requires highs_in_bounds { 2 * length (enclosed_by m lows.old highs.old) ≤ length list.old }
    ensures size { result ≡ length (enclosed_by m lows.old highs.old) }
    ensures left { list.new ≡ laid (enclosed_by m lows.old highs.old) (length list.old) }
{
    let first = columns::COLUMNS - m;
    let a = geometry::point_at(lows, 0);
    let z = geometry::point_at(highs, first);
    let n = close(lows, m, z);
    let v = close(highs, columns::COLUMNS, a);
    let lower = chain_of(&mut lows[..2 * n]);
    let upper = chain_of(&mut highs[2 * first..2 * v]);
    joined_chains::join(lower, upper, list)
}

// Reduces the list to the corners of its convex hull, given its columns.
fn reduce_columns(low: &[i16], high: &[i16], seen: &[bool], list: &mut [i16]) -> usize
    requires { Boxed list.old × Columns (points list.old) low.now high.now × Seen (points list.old) seen.now }
    ensures size { result ≡ length (Chains.hull_of (points list.old)) }
    ensures left { list.new ≡ laid (Chains.hull_of (points list.old)) (length list.old) }
{
    let mut lows = [0i16; columns::SIDE_LENGTH];
    let mut highs = [0i16; columns::SIDE_LENGTH];
    let m = columns::put_columns(low, high, seen, &mut lows, &mut highs);
    lay(&mut lows, &mut highs, m, list)
}

// Reduces the list to the corners of its convex hull, counterclockwise from the least, with zeros behind, and returns how many they are.
pub fn reduce(list: &mut [i16]) -> usize
    requires { Boxed list.old }
    ensures size { result ≡ length (Chains.hull_of (points list.old)) }
    ensures left { list.new ≡ laid (Chains.hull_of (points list.old)) (length list.old) }
{
    let mut low = [32767i16; columns::COLUMNS];
    let mut high = [-32768i16; columns::COLUMNS];
    let mut seen = [false; columns::GROUPS];
    columns::columns(list, &mut low, &mut high, &mut seen);
    reduce_columns(&low, &high, &seen, list)
}
