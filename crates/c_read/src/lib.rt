// A record read, as C has the call.
#![tactic(auto)]

ghost use Rattle.std.specs.Prelude.{◌≡◌};
ghost use Rattle.answers.specs.Outcome.{outcome_by};
ghost use Rattle.record_reader.specs.Reading.{held, read_of};
ghost use Rattle.c_read.specs.Answer.{record_answer};

use answers::Refusal;
use c_types::{NO_DISK, NO_SUPPORT, Support};
use geometry::{Disk, SupportedDisk};

// `refusal` is 0, or a refusal's number and all else 0: C has no Result (volkhidar_read_record).
#[repr(C)]
#[derive(Drop)]
pub struct RecordAnswer {
    pub refusal: u64,
    pub disk: Disk,
    pub support: Support,
}

impl From<Result<SupportedDisk, Refusal>> for RecordAnswer {
    ghost from_gives = { λ r a. a ≡ record_answer (outcome_by held r) };

    fn from(read: Result<SupportedDisk, Refusal>) -> RecordAnswer {
        match read {
            Ok(f) => RecordAnswer {
                refusal: 0,
                disk: f.disk,
                support: Support::from(f.support),
            },
            Err(r) => RecordAnswer {
                refusal: c_types::code(r),
                disk: NO_DISK,
                support: NO_SUPPORT,
            },
        }
    }
}

pub fn read_record(bytes: &[u8]) -> RecordAnswer
    ensures { result ≡ record_answer (read_of bytes.now) }
{
    RecordAnswer::from(record_reader::read_record(bytes))
}
