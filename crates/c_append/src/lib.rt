// A drawing program's point put behind the points of a list, as C has the call: the point as a kind and values, since no enum crosses the border.
#![tactic(auto)]

ghost use Rattle.std.specs.Prelude.{◌≡◌};
ghost use Rattle.drawn_points.specs.Appending.{append_of, list_after};
ghost use Rattle.c_load.specs.Answer.{load_answer};
ghost use Rattle.c_append.specs.Kind.{point_of};

use c_load::LoadAnswer;
use drawn_points::DrawnPoint;

// The whole numbers count where the kind is 1, the floats where it is 2. No enum crosses to C: include/volkhidar.h has `kind` (volkhidar_append_point).
#[repr(C)]
#[derive(Drop)]
pub struct KindAndValues {
    pub kind: u64,
    pub whole_x: i32,
    pub whole_y: i32,
    pub drawn_x: f64,
    pub drawn_y: f64,
}

// A kind that is neither stands for no number: two NaNs.
impl From<KindAndValues> for DrawnPoint {
    ghost from_gives = { λ p q. q ≡ point_of p };

    fn from(p: KindAndValues) -> DrawnPoint {
        match p.kind {
            1 => DrawnPoint::Whole(p.whole_x, p.whole_y),
            2 => DrawnPoint::Drawn(p.drawn_x, p.drawn_y),
            _ => DrawnPoint::Drawn(f64::NAN, f64::NAN),
        }
    }
}

// The answer is the loader's: a refusal and a count.
pub fn append_point(p: KindAndValues, list: &mut [i16], n: usize) -> LoadAnswer
    ensures value { result ≡ load_answer (append_of (point_of p) list.old n) }
    ensures list_after { list.new ≡ list_after (point_of p) list.old n }
{
    LoadAnswer::from(drawn_points::append_point(DrawnPoint::from(p), list, n))
}
