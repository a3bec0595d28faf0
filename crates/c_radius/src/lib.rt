// The whole radius of a disk, as C has the call.
#![tactic(auto)]

ghost use Rattle.std.specs.Prelude.{◌≡◌};
ghost use Rattle.answers.specs.Outcome.{outcome};
ghost use Rattle.geometry.specs.Plane.{numbers};
ghost use Rattle.radius.specs.Radius.{radius_of};
ghost use Rattle.c_types.specs.Support.{points_of};
ghost use Rattle.c_radius.specs.Answer.{radius_answer};

use answers::Refusal;
use c_types::Support;
use geometry::Disk;

// `refusal` is 0, or a refusal's number and all else 0: C has no Result (volkhidar_whole_radius).
#[repr(C)]
#[derive(Drop)]
pub struct RadiusAnswer {
    pub refusal: u64,
    pub radius: u64,
}

impl From<Result<u64, Refusal>> for RadiusAnswer {
    ghost from_gives = { λ r a. a ≡ radius_answer (outcome r) };

    fn from(found: Result<u64, Refusal>) -> RadiusAnswer {
        match found {
            Ok(radius) => RadiusAnswer { refusal: 0, radius },
            Err(r) => RadiusAnswer {
                refusal: c_types::code(r),
                radius: 0,
            },
        }
    }
}

#[tactic(auto, using(c_types::proofs::NoSet::no_points))]
pub fn whole_radius(d: Disk, t: Support) -> RadiusAnswer
    ensures { result ≡ radius_answer (radius_of (numbers d) (points_of t)) }
{
    RadiusAnswer::from(c_types::supported(d, t).and_then(radius::whole_radius))
}
