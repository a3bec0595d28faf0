// The widest stretch of a list, as C has the call.
#![tactic(auto)]

ghost use Rattle.std.specs.Prelude.{◌≡◌};
ghost use Rattle.answers.specs.Outcome.{outcome};
ghost use Rattle.widest_stretch.specs.Stretching.{stretch_of};
ghost use Rattle.c_stretch.specs.Answer.{stretch_answer};

use answers::Refusal;
use c_types::NO_POINT;
use geometry::Point;
use stretches::Stretch;

// `refusal` is 0, or a refusal's number and all else 0: C has no Result (volkhidar_widest_stretch).
#[repr(C)]
#[derive(Drop)]
pub struct StretchAnswer {
    pub refusal: u64,
    pub a: Point,
    pub b: Point,
    pub w: u64,
}

impl From<Result<Stretch, Refusal>> for StretchAnswer {
    ghost from_gives = { λ r a. a ≡ stretch_answer (outcome r) };

    fn from(found: Result<Stretch, Refusal>) -> StretchAnswer {
        match found {
            Ok(s) => StretchAnswer {
                refusal: 0,
                a: s.a,
                b: s.b,
                w: s.w,
            },
            Err(r) => StretchAnswer {
                refusal: c_types::code(r),
                a: NO_POINT,
                b: NO_POINT,
                w: 0,
            },
        }
    }
}

pub fn widest_stretch(list: &[i16]) -> StretchAnswer
    ensures { result ≡ stretch_answer (stretch_of list.now) }
{
    StretchAnswer::from(widest_stretch::widest_stretch(list))
}
