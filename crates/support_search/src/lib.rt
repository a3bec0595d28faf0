// The search for the first set of points that passes its test (01: the first rim set): through single points, pairs and triples.
#![tactic(auto)]

ghost use Rattle.std.specs.Prelude.{◌≡◌, ◌*◌, ◌≤◌, length};
ghost use Rattle.geometry.specs.Plane.{members, numbers};
ghost use Rattle.geometry.specs.Points.{first_points};
ghost use Rattle.support_tests.specs.Tests.{SmallDisk};
ghost use Rattle.support_search.specs.Search.{first_fit};

use geometry::{Disk, SupportSet};

// The first set of the first n points of the list that passes its test: a single one, then pairs, then triples.
// Document 01 has this form by name: a nested search through pairs, then triples, left by label at the first set found.
pub fn search(list: &[i16], n: usize, disk: Disk) -> SupportSet
    requires { (2 * n ≤ length list.now) × SmallDisk (numbers disk) × (1 ≤ length (first_fit (numbers disk) (first_points n list.now))) }
    ensures { members result ≡ first_fit (numbers disk) (first_points n list.now) }
{
    let mut found = SupportSet::One(geometry::point_at(list, 0));
    if wide_numbers::is_zero(disk.s) {
        return found;
    }
    'search: loop {
        for i in 0..n {
            let p = geometry::point_at(list, i);
            for j in i + 1..n {
                let q = geometry::point_at(list, j);
                if support_tests::is_opposite(disk, p, q) {
                    found = SupportSet::Two(p, q);
                    break 'search;
                }
            }
        }
        for i in 0..n {
            let p = geometry::point_at(list, i);
            for j in i + 1..n {
                let q = geometry::point_at(list, j);
                for k in j + 1..n {
                    let r = geometry::point_at(list, k);
                    if support_tests::is_acute(p, q, r) {
                        found = SupportSet::Three(p, q, r);
                        break 'search;
                    }
                }
            }
        }
        break;
    }
    found
}
