// A point of a list moved to the front (000: "move to front").
#![tactic(auto)]

ghost use Rattle.std.specs.Prelude.{◌≡◌, ◌+◌, ◌*◌, ◌≤◌, length};
ghost use Rattle.geometry.specs.Points.{to_front};

// Point i to the front; those before it go back by one place.
#[tactic(auto, using(crate::proofs::Shift::shift_none, crate::proofs::Shift::shift_done))]
pub fn move_to_front(list: &mut [i16], i: usize)
    requires { 2 * i + 2 ≤ length list.old }
    ensures { list.new ≡ to_front list.old i }
{
    let x = list[2 * i];
    let y = list[2 * i + 1];
    // `rotate_right(2)` was tried: for a call it takes 2 to 10 times as long, and this is the engine's inner move.
    for k in (0..2 * i).rev() {
        list[k + 2] = list[k];
    }
    list[0] = x;
    list[1] = y;
}
