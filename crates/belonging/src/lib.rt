// Whether points belong to a disk (02, item 9): by tests of their coordinates, which say the same as the smallest disks of the definition.
#![tactic(auto)]

ghost use Rattle.std.specs.Prelude.{◌≡◌, true, ◌&&◌};
ghost use Rattle.geometry.specs.Plane.{members, numbers};
ghost use Rattle.support_tests.specs.Tests.{on_boundary_test, opposite, acute, SmallDisk};
ghost use Rattle.validity.specs.Valid.{valid};
ghost use Rattle.belonging.specs.Belonging.{belongs};

use geometry::{Disk, Point, SupportSet, SupportedDisk};

// Two points: the ends of a diameter. Where one is on the boundary, so is the other.
fn is_diameter(d: Disk, a: Point, b: Point) -> bool
    requires { SmallDisk (numbers d) }
    ensures { result ≡ (on_boundary_test (numbers d) a && opposite (numbers d) a b) }
{
    support_tests::on_boundary(d, a) && support_tests::is_opposite(d, a, b)
}

// Three points: all on the boundary, with acute angles.
fn is_acute_on(d: Disk, a: Point, b: Point, c: Point) -> bool
    requires { SmallDisk (numbers d) }
    ensures { result ≡ (on_boundary_test (numbers d) a && (on_boundary_test (numbers d) b && (on_boundary_test (numbers d) c && acute a b c))) }
{
    support_tests::on_boundary(d, a)
        && support_tests::on_boundary(d, b)
        && support_tests::on_boundary(d, c)
        && support_tests::is_acute(a, b, c)
}

// Whether the points of f belong to its disk, where a record can hold them.
#[tactic(auto, using(crate::proofs::Known::small, crate::proofs::Known::tested_one, crate::proofs::Known::tested_two, crate::proofs::Known::tested_three))]
pub fn belongs(f: SupportedDisk) -> bool
    requires { valid (numbers f.disk) (members f.support) ≡ true }
    ensures { result ≡ belongs (numbers f.disk) (members f.support) }
{
    let d = f.disk;
    match f.support {
        SupportSet::One(a) => support_tests::on_boundary(d, a) && wide_numbers::is_zero(d.s),
        SupportSet::Two(a, b) => is_diameter(d, a, b),
        SupportSet::Three(a, b, c) => is_acute_on(d, a, b, c),
    }
}
