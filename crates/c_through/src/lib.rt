// The smallest disk with chosen points on its boundary, as C has the call: two points, and one that is chosen alone stands there twice, since no
// enum crosses the border.
#![tactic(auto)]

ghost use Rattle.std.specs.Prelude.{◌≡◌};
ghost use Rattle.answers.specs.Outcome.{outcome_by};
ghost use Rattle.geometry.specs.Plane.{numbers};
ghost use Rattle.chosen_points.specs.declared.Chosen.TheVariants.{Two};
ghost use Rattle.chosen_points.specs.Chosen.{through_of};
ghost use Rattle.c_through.specs.Answer.{through_answer};

use answers::Refusal;
use c_types::NO_DISK;
use chosen_points::Chosen;
use geometry::{Disk, Point};

// A disk, or a refusal: the answer of the other call too that gives a disk alone.
// `refusal` is 0, or a refusal's number and all else 0: C has no Result (volkhidar_smallest_disk_through).
#[repr(C)]
#[derive(Drop)]
pub struct ThroughAnswer {
    pub refusal: u64,
    pub disk: Disk,
}

impl From<Result<Disk, Refusal>> for ThroughAnswer {
    ghost from_gives = { λ r a. a ≡ through_answer (outcome_by numbers r) };

    fn from(found: Result<Disk, Refusal>) -> ThroughAnswer {
        match found {
            Ok(disk) => ThroughAnswer { refusal: 0, disk },
            Err(r) => ThroughAnswer {
                refusal: c_types::code(r),
                disk: NO_DISK,
            },
        }
    }
}

pub fn smallest_disk_through(list: &[i16], first: Point, second: Point) -> ThroughAnswer
    ensures { result ≡ through_answer (through_of list.now (Two first second)) }
{
    ThroughAnswer::from(chosen_points::smallest_disk_through(list, Chosen::Two(first, second)))
}
