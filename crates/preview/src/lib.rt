// The preview of a disk (01: three f64 values): its centre, and its whole radius.
#![tactic(auto)]

ghost use Rattle.std.specs.Prelude.{◌≡◌, ◌≤◌};
ghost use Rattle.answers.specs.Outcome.{outcome};
ghost use Rattle.geometry.specs.Plane.{members, numbers};
ghost use Rattle.radius.specs.Radius.{max_radius};
ghost use Rattle.preview.specs.Preview.{floats, preview_of};

use answers::Refusal;
use geometry::{Disk, SupportedDisk};
use validity::ValidDisk;

#[derive(Clone, Copy)]
pub struct Preview {
    pub x: f64,
    pub y: f64,
    pub radius: f64,
}

// Each number is converted without loss; each centre value is one division, rounded once.
fn floats_of(d: ValidDisk, r: u64) -> Preview
    requires { r ≤ max_radius }
    ensures { result ≡ floats (numbers d.disk) r }
{
    let Disk { x, y, e, .. } = d.disk;
    let scale = e as f64;
    Preview {
        x: (x as f64) / scale,
        y: (y as f64) / scale,
        radius: r as f64,
    }
}

// The preview of f's disk.
pub fn preview_of(f: SupportedDisk) -> Result<Preview, Refusal>
    ensures { outcome result ≡ preview_of (numbers f.disk) (members f.support) }
{
    let r = radius::whole_radius(f)?;
    Ok(floats_of(ValidDisk { disk: f.disk }, r))
}
