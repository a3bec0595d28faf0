// The first support set of a list (01: the first rim set): a search through the points on the boundary of the smallest disk.
#![tactic(auto)]

ghost use Rattle.std.specs.Prelude.{◌≡◌, ◌*◌, ◌/◌, ◌≤◌, length};
ghost use Rattle.geometry.specs.Plane.{members, numbers};
ghost use Rattle.geometry.specs.Points.{points, first_points};
ghost use Rattle.disks.specs.Support.{first_support};
ghost use Rattle.support_search.specs.Search.{first_fit};
ghost use Rattle.support_tests.specs.Tests.{SmallDisk};
ghost use Rattle.boundary_powers.specs.Power.{OfBoundary};
ghost use Rattle.support.specs.Asked.{Asked};
ghost use Rattle.support.specs.Needed.{NextNeeded};

use geometry::{Disk, SupportSet};
use support_span::Span;

// The first place from i on whose point the search needs, or the end of the list where there is none. Most points are passed by, so that the loop
// over them has nothing else in it; by index, since its shape was chosen by the instructions of some twenty-five (docs/DECISIONS.md, 105).
fn next_needed(list: &[i16], i: usize, disk: Disk, power: i64, span: Span) -> usize
    requires { (i ≤ length list.now / 2) × SmallDisk (numbers disk) × (1 ≤ disk.e) × OfBoundary (numbers disk) power }
    ensures { NextNeeded (numbers disk) span list.now i result }
{
    let n = list.len() / 2;
    for k in i..n {
        let p = geometry::point_at(list, k);
        if !support_span::is_spanned(span, p.x) && boundary_powers::on_boundary(disk, power, p) {
            return k;
        }
    }
    n
}

// Writes points of the list on the disk's boundary to `out`, rising and each once, and returns how many there are: those among which the
// search finds the first support set. The procedure leaves the points that fix the disk in front, so that two that do span much early.
fn collect(list: &[i16], disk: Disk, power: i64, out: &mut [i16]) -> usize
    requires { Asked list.now (numbers disk) × (length list.now ≤ length out.old) × OfBoundary (numbers disk) power }
    ensures room { 2 * result ≤ length out.new }
    ensures left { first_fit (numbers disk) (first_points result out.new) ≡ first_support (points list.now) }
{
    let mut m: usize = 0;
    let mut span = Span { lo: 0, hi: 0 };
    let n = list.len() / 2;
    let mut i = next_needed(list, 0, disk, power, span);
    // A while: the next place is the one that next_needed finds.
    while i < n {
        let p = geometry::point_at(list, i);
        let size = rising_lists::insert_point(out, m, p);
        if m < size {
            span = support_span::span_with(&out[..2 * size], disk, p, span);
        }
        m = size;
        i = next_needed(list, i + 1, disk, power, span);
    }
    m
}

// The search, with room lent for the boundary points. The procedure leaves one of them in front, and its power is that of all.
fn search_in(list: &[i16], disk: Disk, room: &mut [i16]) -> SupportSet
    requires { Asked list.now (numbers disk) × (length list.now ≤ length room.old) }
    ensures { members result ≡ first_support (points list.now) }
{
    let power = boundary_powers::power(disk, geometry::point_at(list, 0));
    let n = collect(list, disk, power, room);
    support_search::search(room, n, disk)
}

// The same in room for N numbers of its own.
fn search_in_room<const N: usize>(list: &[i16], disk: Disk) -> SupportSet
    requires { Asked list.now (numbers disk) × (length list.now ≤ N) × (N ≤ 8192) }
    ensures { members result ≡ first_support (points list.now) }
{
    let mut room = [0i16; N];
    search_in(list, disk, &mut room)
}

// The first support set of the list (01: the first rim set), whose smallest disk is given.
pub fn first_support(list: &[i16], disk: Disk) -> SupportSet
    requires { Asked list.now (numbers disk) }
    ensures { members result ≡ first_support (points list.now) }
{
    // Most lists are short, and clearing room for the longest would take as long as the search.
    if list.len() <= 256 {
        return search_in_room::<256>(list, disk);
    }
    search_in_room::<8192>(list, disk)
}
