// The preview of a disk, as C has the call.
#![tactic(auto)]

ghost use Rattle.std.specs.Prelude.{◌≡◌};
ghost use Rattle.answers.specs.Outcome.{outcome};
ghost use Rattle.geometry.specs.Plane.{numbers};
ghost use Rattle.preview.specs.Preview.{preview_of};
ghost use Rattle.c_types.specs.Support.{points_of};
ghost use Rattle.c_preview.specs.Answer.{preview_answer};

use answers::Refusal;
use c_types::Support;
use geometry::Disk;
use preview::Preview;

// `refusal` is 0, or a refusal's number and all else 0: C has no Result (volkhidar_preview).
#[repr(C)]
#[derive(Drop)]
pub struct PreviewAnswer {
    pub refusal: u64,
    pub x: f64,
    pub y: f64,
    pub radius: f64,
}

impl From<Result<Preview, Refusal>> for PreviewAnswer {
    ghost from_gives = { λ r a. a ≡ preview_answer (outcome r) };

    fn from(preview: Result<Preview, Refusal>) -> PreviewAnswer {
        match preview {
            Ok(p) => PreviewAnswer {
                refusal: 0,
                x: p.x,
                y: p.y,
                radius: p.radius,
            },
            Err(r) => PreviewAnswer {
                refusal: c_types::code(r),
                x: 0.0,
                y: 0.0,
                radius: 0.0,
            },
        }
    }
}

#[tactic(auto, using(c_types::proofs::NoSet::no_points))]
pub fn preview_of(d: Disk, t: Support) -> PreviewAnswer
    ensures { result ≡ preview_answer (preview_of (numbers d) (points_of t)) }
{
    PreviewAnswer::from(c_types::supported(d, t).and_then(preview::preview_of))
}
