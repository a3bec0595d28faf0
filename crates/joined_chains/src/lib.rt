// Two chains joined in front of a list, with zeros behind.
#![tactic(auto)]

ghost use Rattle.std.specs.Prelude.{◌≡◌, ◌+◌, ◌*◌, ◌%◌, ◌≤◌, length};
ghost use Rattle.geometry.specs.Points.{points};
ghost use Rattle.hull.specs.Chains as Chains;
ghost use Rattle.joined_chains.specs.Laid.{laid, joined};

// The points of the list without the first and the last.
fn inner(list: &[i16]) -> &[i16]
    requires { length list.now % 2 ≡ 0 }
    ensures { (points result.now ≡ Chains.inner (points list.now)) × (length result.now % 2 ≡ 0) }
{
    if list.len() < 4 {
        return &[];
    }
    &list[2..list.len() - 2]
}

// The points of `lower`, and those of `upper` without its ends, in front of the list, and zeros behind; returns how many.
pub fn join(lower: &[i16], upper: &[i16], list: &mut [i16]) -> usize
    requires even { (length lower.now % 2 ≡ 0) × (length upper.now % 2 ≡ 0) }
    requires room { 2 * length (joined lower.now upper.now) ≤ length list.old }
    ensures size { result ≡ length (joined lower.now upper.now) }
    ensures left { list.new ≡ laid (joined lower.now upper.now) (length list.old) }
{
    let inside = inner(upper);
    let (front, behind) = list.split_at_mut(lower.len());
    let (middle, rest) = behind.split_at_mut(inside.len());
    front.copy_from_slice(lower);
    middle.copy_from_slice(inside);
    rest.fill(0);
    (lower.len() + inside.len()) / 2
}
