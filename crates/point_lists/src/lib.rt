// Lists of points: as sets and in rising order (specs), a point written into a list of numbers, and a list copied to the front of another.
#![tactic(auto)]

ghost use Rattle.std.specs.Prelude.{◌≡◌, ◌+◌, ◌*◌, ◌≤◌, length};
ghost use Rattle.std.proofs.Math.Seq.{paste};
ghost use Rattle.point_lists.specs.Sets.{same};
ghost use Rattle.point_lists.specs.Put.{put_at};

use geometry::Point;

// Writes p as point i of a list of numbers, x and y by turns.
pub fn put_point(list: &mut [i16], i: usize, p: Point)
    requires { 2 * i + 2 ≤ length list.old }
    ensures { list.new ≡ put_at list.old i p }
{
    list[2 * i] = p.x;
    list[2 * i + 1] = p.y;
}

#[tactic(auto, unfolding(crate::specs::Sets::same))]
pub fn is_same(p: Point, q: Point) -> bool
    ensures { result ≡ same p q }
{
    p == q
}

// Copies the first n numbers of one list over those of another.
pub fn copy_front(source: &[i16], n: usize, list: &mut [i16])
    requires { (n ≤ length source.now) × (n ≤ length list.old) }
    ensures { list.new ≡ paste list.old 0 source.now n }
{
    list[..n].copy_from_slice(&source[..n]);
}
