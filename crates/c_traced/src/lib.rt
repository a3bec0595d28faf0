// The smallest disk of a list of traced points, as C has the call.
#![tactic(auto)]

ghost use Rattle.std.specs.Prelude.{◌≡◌};
ghost use Rattle.traced_points.specs.Traced.{traced_of};
ghost use Rattle.c_through.specs.Answer.{through_answer};

use c_through::ThroughAnswer;

// The answer is that of the call with chosen points: a refusal and a disk.
pub fn smallest_disk_of_traced(list: &[i16]) -> ThroughAnswer
    ensures { result ≡ through_answer (traced_of list.now) }
{
    ThroughAnswer::from(traced_points::smallest_disk_of_traced(list))
}
