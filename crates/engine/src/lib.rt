// The disk engine: the smallest enclosing disk of a list of points, its first support set and the test count.
#![tactic(auto)]

ghost use Rattle.std.specs.Prelude.{◌≡◌, ◌%◌, length};
ghost use Rattle.geometry.specs.EmBox.{all_in_em_box};
ghost use Rattle.geometry.specs.Points.{points};
ghost use Rattle.answers.specs.Outcome.{outcome_by};
ghost use Rattle.engine.specs.Engine.{enclosure_told, enclose_of, list_after};
ghost use Rattle.engine.specs.Checks.{Checks};

use answers::Refusal;
use geometry::SupportedDisk;

// The smallest disk with its first support set, and how many tests the procedure made.
#[derive(Drop)]
pub struct Enclosed {
    pub found: SupportedDisk,
    pub tests: u64,
}

// Whether every point of the list lies in the em box. A list is seldom refused, and without a way out of the loop it takes several
// points at a time.
pub fn all_in_em_box(list: &[i16]) -> bool
    requires { length list.now % 2 ≡ 0 }
    ensures { result ≡ all_in_em_box (points list.now) }
{
    let mut all = true;
    for p in geometry::points(list) {
        all &= geometry::in_em_box(p);
    }
    all
}

// The engine's own checks of a list, in their order.
#[tactic(auto, unfolding(crate::specs::Engine::enclose_of))]
pub fn check(list: &[i16]) -> Result<(), Refusal>
    ensures { Checks list.now result }
{
    if list.len() % 2 == 1 {
        return Err(Refusal::OddLength);
    }
    if list.is_empty() {
        return Err(Refusal::NoPoint);
    }
    if 4096 < list.len() / 2 {
        return Err(Refusal::TooMany);
    }
    if !all_in_em_box(list) {
        return Err(Refusal::OutsideBox);
    }
    Ok(())
}

// The smallest disk that holds the list's points, by Welzl's move-to-front procedure (01: the disk engine). The list is left as the
// procedure leaves it; a refused list is unchanged.
pub fn smallest_disk(list: &mut [i16]) -> Result<Enclosed, Refusal>
    ensures answer { outcome_by enclosure_told result ≡ enclose_of list.old }
    ensures order { list.new ≡ list_after list.old }
{
    check(list)?;
    let run = welzl::smallest(list);
    let support = support::first_support(list, run.disk);
    let found = SupportedDisk {
        disk: run.disk,
        support,
    };
    Ok(Enclosed {
        found,
        tests: run.tests,
    })
}
