// The checks of a disk and its points (01: refusal 7; 02, item 9: 15).
#![tactic(auto)]

ghost use Rattle.std.specs.Prelude.{◌≡◌};
ghost use Rattle.answers.specs.Outcome.{outcome};
ghost use Rattle.geometry.specs.Plane.{numbers, members};
ghost use Rattle.geometry.specs.EmBox.{em};
ghost use Rattle.validity.specs.Narrow.{Narrow, Narrower};
ghost use Rattle.disk_checks.specs.Checks.{check_in, check_of};

use answers::Refusal;
use geometry::{Limits, SupportedDisk};

// Whether a record by the limits l can hold f, and then whether its points belong to its disk.
pub fn check_in(l: Limits, f: SupportedDisk) -> Result<(), Refusal>
    requires { Narrow l × Narrower l em }
    ensures { outcome result ≡ check_in l (numbers f.disk) (members f.support) }
{
    if !validity::is_valid_in(l, f) {
        return Err(Refusal::BadRecord);
    }
    if !belonging::belongs(f) {
        return Err(Refusal::PointsDoNotFit);
    }
    Ok(())
}

// The same by the limits of the em.
pub fn check(f: SupportedDisk) -> Result<(), Refusal>
    ensures { outcome result ≡ check_of (numbers f.disk) (members f.support) }
{
    check_in(geometry::em_limits(), f)
}
