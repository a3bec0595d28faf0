// Chains of points, each next turning strictly left, made in place in a list of numbers.
#![tactic(auto)]

ghost use Rattle.std.specs.Prelude.{◌≡◌, ◌∷◌, ℕ, ◌+◌, ◌*◌, ◌≤◌, ◌<◌, pos, length, drop};
ghost use Rattle.std.specs.Int.Signed.{lt_z};
ghost use Rattle.geometry.specs.Points.{points, point_at};
ghost use Rattle.hull.specs.Hull.{cross};
ghost use Rattle.hull.specs.Chains as Chains;
ghost use Rattle.hull.specs.Skimmed.{is_needed, skim_chain};

use geometry::{Point, minus};

// Whether a, b, c turn strictly left.
fn turns_left(a: Point, b: Point, c: Point) -> bool
    ensures { result ≡ lt_z (pos 0) (cross a b c) }
{
    0 < minus(b.x, a.x) * minus(c.y, a.y) - minus(b.y, a.y) * minus(c.x, a.x)
}

// Where the chain goes on with p in front: its points that make no strict left turn behind p are passed by.
fn kept_from(chain: &[i16], p: Point) -> usize
    ensures { (2 * result ≤ length chain.now) × (Chains.push p (points chain.now) ≡ p ∷ drop result (points chain.now)) }
{
    let n = chain.len() / 2;
    // By index, which is the answer; each step looks at two neighbours.
    for k in 1..n {
        let b = geometry::point_at(chain, k - 1);
        let c = geometry::point_at(chain, k);
        if turns_left(p, b, c) {
            return k - 1;
        }
    }
    n.saturating_sub(1)
}

// Puts p in front of the chain that the points from m on are, and returns from where on they are the chain with p. The points before m − 1 stay.
fn push(list: &mut [i16], m: usize, p: Point) -> usize
    requires { (1 ≤ m) × (2 * m ≤ length list.old) }
    ensures room { (m ≤ result + 1) × (2 * (result + 1) ≤ length list.old) }
    ensures left { drop result (points list.new) ≡ Chains.push p (drop m (points list.old)) }
    ensures before { (j : ℕ) → j + 1 < m → point_at list.new j ≡ point_at list.old j }
{
    let k = m + kept_from(&list[2 * m..], p) - 1;
    point_lists::put_point(list, k, p);
    k
}

// Whether p has to be pushed onto the chain: not where it lies on the way from a to the chain's first point, or on the left of it. Most points do not,
// and this test of one is sooner done than the push.
fn is_needed(chain: &[i16], a: Point, p: Point) -> bool
    ensures { result ≡ is_needed a p (points chain.now) }
{
    if chain.len() < 2 {
        return true;
    }
    turns_left(a, p, geometry::point_at(chain, 0))
}

// Makes the points of the list their chain, which ends where they end; returns from where on they are it.
pub fn chain(list: &mut [i16]) -> usize
    requires { 2 ≤ length list.old }
    ensures room { 2 * (result + 1) ≤ length list.old }
    ensures left { drop result (points list.new) ≡ skim_chain (points list.old) }
{
    let n = list.len() / 2;
    let a = geometry::point_at(list, 0);
    let mut m = n;
    // By index from the end: push writes the list that the loop goes over.
    for i in (1..n).rev() {
        let p = geometry::point_at(list, i);
        if is_needed(&list[2 * m..], a, p) {
            m = push(list, m, p);
        }
    }
    push(list, m, a)
}
