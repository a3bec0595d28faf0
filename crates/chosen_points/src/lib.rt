// The smallest disk that holds a list and has one or two chosen points of it on its boundary (02, item 6: a registration corner on the rim).
#![tactic(auto)]

ghost use Rattle.std.specs.Prelude.{◌≡◌};
ghost use Rattle.answers.specs.Outcome.{outcome_by};
ghost use Rattle.geometry.specs.Plane.{numbers};
ghost use Rattle.geometry.specs.Points.{points};
ghost use Rattle.point_lists.specs.Sets.{has, all_of};
ghost use Rattle.fixed_points.specs.Boundary.{members};
ghost use Rattle.chosen_points.specs.Chosen.{chosen, fixed, through_of};

use answers::Refusal;
use fixed_points::Boundary;
use geometry::{Disk, Point};

// 02: the chosen corners.
#[derive(Clone, Copy)]
pub enum Chosen {
    One(Point),
    Two(Point, Point),
}

// Whether p is one of the list's points.
#[tactic(auto, unfolding(point_lists::specs::Sets::same, point_lists::specs::Sets::has))]
fn has_point(list: &[i16], p: Point) -> bool
    ensures { result ≡ has (points list.now) p }
{
    for q in geometry::points(list) {
        if p == q {
            return true;
        }
    }
    false
}

// Whether the chosen points are all in the list.
#[tactic(auto, unfolding(point_lists::specs::Sets::all_of))]
fn has_chosen(list: &[i16], choice: Chosen) -> bool
    ensures { result ≡ all_of (has (points list.now)) (chosen choice) }
{
    match choice {
        Chosen::One(p) => has_point(list, p),
        Chosen::Two(p, q) => has_point(list, p) && has_point(list, q),
    }
}

// The set to fix on the boundary: a point that is chosen twice is chosen once.
#[tactic(auto, unfolding(point_lists::specs::Sets::same))]
fn boundary_of(choice: Chosen) -> Boundary
    ensures { members result ≡ fixed choice }
{
    match choice {
        Chosen::One(p) => Boundary::One(p),
        Chosen::Two(p, q) => {
            if p == q {
                return Boundary::One(p);
            }
            Boundary::Two(p, q)
        }
    }
}

// The smallest disk that holds the list's points and has the chosen ones on its boundary. The list is only read.
pub fn smallest_disk_through(list: &[i16], choice: Chosen) -> Result<Disk, Refusal>
    ensures answer { outcome_by numbers result ≡ through_of list.now choice }
{
    engine::check(list)?;
    if !has_chosen(list, choice) {
        return Err(Refusal::NotInList);
    }
    let fixed = boundary_of(choice);
    let Some(d) = fitting::smallest_fit(list, fixed) else {
        return Err(Refusal::NoDisk);
    };
    Ok(lowest_disks::written(d))
}
