// The smallest disk of a point list, as C has the call.
#![tactic(auto)]

ghost use Rattle.std.specs.Prelude.{◌≡◌};
ghost use Rattle.answers.specs.Outcome.{outcome_by};
ghost use Rattle.engine.specs.Engine.{enclosure_told, enclose_of, list_after};
ghost use Rattle.c_disk.specs.Answer.{disk_answer};

use answers::Refusal;
use c_types::{NO_DISK, NO_SUPPORT, Support};
use engine::Enclosed;
use geometry::Disk;

// `refusal` is 0, or a refusal's number and all else 0: C has no Result (volkhidar_smallest_disk).
#[repr(C)]
#[derive(Drop)]
pub struct DiskAnswer {
    pub refusal: u64,
    pub disk: Disk,
    pub support: Support,
    pub tests: u64,
}

impl From<Result<Enclosed, Refusal>> for DiskAnswer {
    ghost from_gives = { λ r a. a ≡ disk_answer (outcome_by enclosure_told r) };

    fn from(enclosed: Result<Enclosed, Refusal>) -> DiskAnswer {
        match enclosed {
            Ok(e) => DiskAnswer {
                refusal: 0,
                disk: e.found.disk,
                support: Support::from(e.found.support),
                tests: e.tests,
            },
            Err(r) => DiskAnswer {
                refusal: c_types::code(r),
                disk: NO_DISK,
                support: NO_SUPPORT,
                tests: 0,
            },
        }
    }
}

pub fn smallest_disk(list: &mut [i16]) -> DiskAnswer
    ensures value { result ≡ disk_answer (enclose_of list.old) }
    ensures list_after { list.new ≡ list_after list.old }
{
    DiskAnswer::from(engine::smallest_disk(list))
}
