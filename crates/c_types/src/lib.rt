// What the calls have in common as C has them: a support set as a struct of numbers, a refusal as its number, and what stands beside one.
#![tactic(auto)]

ghost use Rattle.std.specs.Prelude.{◌≡◌};
ghost use Rattle.answers.specs.Outcome.{outcome, number_of};
ghost use Rattle.geometry.specs.Plane.{members};
ghost use Rattle.c_types.specs.Code.{code_of};
ghost use Rattle.c_types.specs.Support.{support_of, IsSetOf, IsSupported};

use answers::Refusal;
use geometry::{Disk, Point, SupportSet, SupportedDisk};
use wide_numbers::Wide;

// The points a, b and c, of which the first `size` count. No enum crosses to C: include/volkhidar.h has `size` (volkhidar_smallest_disk).
#[repr(C)]
#[derive(Clone, Copy)]
pub struct Support {
    pub size: u64,
    pub a: Point,
    pub b: Point,
    pub c: Point,
}

// What stands beside a refusal in place of a point, a disk and a support set.
pub const NO_POINT: Point = Point { x: 0, y: 0 };

pub const NO_DISK: Disk = Disk {
    x: 0,
    y: 0,
    e: 0,
    s: Wide { hi: 0, lo: 0 },
};

pub const NO_SUPPORT: Support = Support {
    size: 0,
    a: NO_POINT,
    b: NO_POINT,
    c: NO_POINT,
};

// As C has a refusal: document 01's number.
pub fn code(r: Refusal) -> u64
    ensures { result ≡ number_of r }
{
    u64::from(u8::from(r))
}

// As C has an answer that is a refusal or nothing more: 0, or the refusal's number.
pub fn code_of<T: Drop>(r: Result<T, Refusal>) -> u64
    ensures { result ≡ code_of (outcome r) }
{
    match r {
        Ok(_) => 0,
        Err(r) => code(r),
    }
}

// The last point is repeated to make three.
impl From<SupportSet> for Support {
    ghost from_gives = { λ t s. s ≡ support_of (members t) };

    fn from(t: SupportSet) -> Support {
        match t {
            SupportSet::One(a) => Support {
                size: 1,
                a,
                b: a,
                c: a,
            },
            SupportSet::Two(a, b) => Support {
                size: 2,
                a,
                b,
                c: b,
            },
            SupportSet::Three(a, b, c) => Support { size: 3, a, b, c },
        }
    }
}

// The support set that a caller lends, if the size is one that a set can have.
impl TryFrom<Support> for SupportSet {
    type Error = Refusal;

    ghost try_from_gives = { IsSetOf };

    #[tactic(auto, using(crate::proofs::NoSet::other_size), unfolding(crate::specs::Support::counted))]
    fn try_from(t: Support) -> Result<SupportSet, Refusal> {
        match t.size {
            1 => Ok(SupportSet::One(t.a)),
            2 => Ok(SupportSet::Two(t.a, t.b)),
            3 => Ok(SupportSet::Three(t.a, t.b, t.c)),
            _ => Err(Refusal::BadRecord),
        }
    }
}

// A disk with the support set beside it, which C lends apart (volkhidar_whole_radius, volkhidar_preview, volkhidar_write_record).
pub fn supported(disk: Disk, t: Support) -> Result<SupportedDisk, Refusal>
    ensures { IsSupported disk t result }
{
    let support = SupportSet::try_from(t)?;
    Ok(SupportedDisk { disk, support })
}
