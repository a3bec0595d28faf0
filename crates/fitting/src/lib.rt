// The smallest disk that holds a list and has one or two points on its boundary, if there is one (02, item 6; 000: b_md).
//
// A disk that is the smallest for some of the points and holds all is the smallest for all; and where no disk fits some of them, none fits all.
// So Welzl's procedure is run on few points, those that were found outside, which stand at the front of the list.
#![tactic(auto)]

ghost use Rattle.std.specs.Prelude.{◌*◌, ◌/◌, ◌≤◌, length};
ghost use Rattle.geometry.specs.Points.{points, first_points};
ghost use Rattle.relative_disks.specs.Relative.{Small};
ghost use Rattle.fixed_points.specs.Boundary.{members, Boxed};
ghost use Rattle.inner_level.specs.Ran.{Given};
ghost use Rattle.welzl.specs.WholeList.{AllGiven};
ghost use Rattle.fitting.specs.Decides.{Fixes, Decides, Permuted, FirstFrom, OutsideAt};

use fixed_points::Boundary;
use relative_disks::RelativeDisk;

// The first place from `from` on, before `to`, at which the list's point is outside d. By place, since the place is the answer.
fn first_outside(list: &[i16], from: usize, to: usize, d: RelativeDisk) -> Option<usize>
    requires places { (from ≤ to) × (2 * to ≤ length list.now) }
    requires small { Small d }
    requires boxed { Boxed (points list.now) }
    ensures { FirstFrom list.now d from to result }
{
    for i in from..to {
        if relative_disks::is_outside(d, geometry::point_at(list, i)) {
            return Some(i);
        }
    }
    None
}

// A place at which the list's point is outside d, looked for from `from` on and then from the front.
fn next_outside(list: &[i16], from: usize, d: RelativeDisk) -> Option<usize>
    requires place { from ≤ length list.now / 2 }
    requires small { Small d }
    requires boxed { Boxed (points list.now) }
    ensures { OutsideAt list.now d (length list.now / 2) result }
{
    if let Some(i) = first_outside(list, from, list.len() / 2, d) {
        return Some(i);
    }
    first_outside(list, 0, from, d)
}

// The smallest disk that holds the list's first k points with R on its boundary. If any disk does, the procedure's does; and R is on the
// boundary of every disk that the procedure ends on.
fn front_disk(list: &mut [i16], k: usize, fixed: Boundary) -> Option<RelativeDisk>
    requires fixes { Fixes fixed }
    requires given { Given fixed k list.old }
    requires boxed { Boxed (points list.old) }
    ensures fit { Decides (members fixed) (first_points k list.old) result }
    ensures order { Permuted list.old list.new }
{
    let run = welzl::mtf(list, k, fixed);
    let d = run.disk;
    if d.e < 1 {
        return None;
    }
    match first_outside(list, 0, k, d) {
        Some(_) => None,
        None => Some(d),
    }
}

// The smallest disk that holds the list with R on its boundary. At each turn a point that is outside the disk of the first k comes to the
// front; with all points in front none is outside, so that one of the turns answers.
fn search(list: &mut [i16], fixed: Boundary) -> Option<RelativeDisk>
    requires fixes { Fixes fixed }
    requires given { AllGiven list.old }
    ensures { Decides (members fixed) (points list.old) result }
{
    let n = list.len() / 2;
    let mut from: usize = 0;
    // By index: each turn moves a point of the list.
    for k in 0..=n {
        let d = front_disk(list, k, fixed)?;
        let Some(i) = next_outside(list, from, d) else {
            return Some(d);
        };
        point_moves::move_to_front(list, i);
        from = i + 1;
    }
    None
}

// The search on a copy of the list in room for N numbers.
fn search_in_room<const N: usize>(list: &[i16], fixed: Boundary) -> Option<RelativeDisk>
    requires fixes { Fixes fixed }
    requires given { AllGiven list.now }
    requires fits { (length list.now ≤ N) × (N ≤ 8192) }
    ensures { Decides (members fixed) (points list.now) result }
{
    let mut room = [0i16; N];
    let copy = &mut room[..list.len()];
    copy.copy_from_slice(list);
    search(copy, fixed)
}

// The smallest disk that holds the list with R on its boundary; none if no disk does. It is not yet written in lowest terms, and the list is
// only read. Most lists are short, and clearing room for the longest would take as long as their search.
pub fn smallest_fit(list: &[i16], fixed: Boundary) -> Option<RelativeDisk>
    requires { (Fixes fixed) × (AllGiven list.now) }
    ensures { Decides (members fixed) (points list.now) result }
{
    if list.len() <= 256 {
        return search_in_room::<256>(list, fixed);
    }
    search_in_room::<8192>(list, fixed)
}
