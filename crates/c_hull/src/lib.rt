// A list of points reduced to the corners of its convex hull, as C has the call.
#![tactic(auto)]

ghost use Rattle.std.specs.Prelude.{◌≡◌};
ghost use Rattle.hull_points.specs.Reducing.{reduce_of, list_after};
ghost use Rattle.c_load.specs.Answer.{load_answer};

use c_load::LoadAnswer;

// The answer is the loader's: a refusal and a count.
pub fn reduce_to_hull(list: &mut [i16]) -> LoadAnswer
    ensures value { result ≡ load_answer (reduce_of list.old) }
    ensures list_after { list.new ≡ list_after list.old }
{
    LoadAnswer::from(hull_points::reduce_to_hull(list))
}
