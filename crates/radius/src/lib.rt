// The whole radius of a disk (01: the cutting radius; its rule: 02, item 3).
#![tactic(auto)]

ghost use Rattle.std.specs.Prelude.{◌≡◌, ◌≤◌};
ghost use Rattle.answers.specs.Outcome.{outcome};
ghost use Rattle.geometry.specs.Plane.{members, numbers};
ghost use Rattle.radius.specs.Radius.{clears, whole_radius, max_radius, radius_of};

use answers::Refusal;
use geometry::{Disk, SupportedDisk};
use validity::ValidDisk;

// No radius is larger: its square is above the largest S/E².
const MAX_RADIUS: u64 = 1449;

// Whether the circle of radius r about d's centre keeps clear of d.
fn is_clear(d: ValidDisk, r: u64) -> bool
    requires { r ≤ max_radius }
    ensures { result ≡ clears (numbers d.disk) r }
{
    let Disk { e, s, .. } = d.disk;
    wide_numbers::is_below(s, wide_numbers::product(r * r, e * e))
}

// By bisection: no circle of a radius below `low` keeps clear, and that of `high` does. A `while`, since each step halves what is left.
fn least_clear(d: ValidDisk) -> u64
    ensures { result ≡ whole_radius (numbers d.disk) }
{
    let mut low: u64 = 0;
    let mut high: u64 = MAX_RADIUS;
    while low < high {
        let middle = (low + high) / 2;
        if is_clear(d, middle) {
            high = middle;
        } else {
            low = middle + 1;
        }
    }
    high
}

// The least whole number r with r²E² greater than S.
pub fn whole_radius(f: SupportedDisk) -> Result<u64, Refusal>
    ensures { outcome result ≡ radius_of (numbers f.disk) (members f.support) }
{
    disk_checks::check(f)?;
    Ok(least_clear(ValidDisk { disk: f.disk }))
}
