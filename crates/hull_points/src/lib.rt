// Outlines stripped to what sticks out: a list of points reduced to the corners of its convex hull (02, item 8).
#![tactic(auto)]

ghost use Rattle.std.specs.Prelude.{◌≡◌};
ghost use Rattle.answers.specs.Outcome.{outcome};
ghost use Rattle.hull_points.specs.Reducing.{reduce_of, list_after};

use answers::Refusal;

// Leaves the corners of the list's convex hull in front, counterclockwise from the least by x then y, and zeros behind, and returns how many they are;
// a refused list is unchanged.
pub fn reduce_to_hull(list: &mut [i16]) -> Result<usize, Refusal>
    ensures answer { outcome result ≡ reduce_of list.old }
    ensures list { list.new ≡ list_after list.old }
{
    engine::check(list)?;
    Ok(hull_lists::reduce(list))
}
