// The widest stretch of a letter: the two points of a list that are farthest apart (02, item 11).
//
// The ends of a widest stretch are corners of the convex hull. So a long list is reduced to its hull first, in a copy; for a short one this
// would take longer than all its pairs.
#![tactic(auto)]

ghost use Rattle.std.specs.Prelude.{◌≡◌, ◌≤◌, length};
ghost use Rattle.answers.specs.Outcome.{outcome};
ghost use Rattle.geometry.specs.Points.{points};
ghost use Rattle.stretches.specs.Widest.{widest_of};
ghost use Rattle.hull_lists.specs.Enclosed.{Boxed};
ghost use Rattle.widest_stretch.specs.Stretching.{stretch_of};

use answers::Refusal;
use stretches::Stretch;

// The widest stretch of the hull, with the list as room for its corners.
fn widest_of_hull(list: &mut [i16]) -> Stretch
    requires { Boxed list.old }
    ensures { result ≡ widest_of (points list.old) }
{
    let n = hull_lists::reduce(list);
    farthest_points::widest(&list[..2 * n])
}

// The same of a list that is only read, with room lent for a copy of it.
fn widest_in(list: &[i16], room: &mut [i16]) -> Stretch
    requires boxed { Boxed list.now }
    requires room { length list.now ≤ length room.old }
    ensures { result ≡ widest_of (points list.now) }
{
    let copy = &mut room[..list.len()];
    copy.copy_from_slice(list);
    widest_of_hull(copy)
}

// Room for as many numbers as the engine's points have.
const ROOM: usize = 8192;

fn widest_by_hull(list: &[i16]) -> Stretch
    requires { (Boxed list.now) × (length list.now ≤ 8192) }
    ensures { result ≡ widest_of (points list.now) }
{
    let mut room = [0i16; ROOM];
    widest_in(list, &mut room)
}

// The two points of the list that are farthest apart, and the square of their distance. The list is only read.
pub fn widest_stretch(list: &[i16]) -> Result<Stretch, Refusal>
    ensures { outcome result ≡ stretch_of list.now }
{
    engine::check(list)?;
    if list.len() <= 96 {
        return Ok(farthest_points::widest(list));
    }
    Ok(widest_by_hull(list))
}
