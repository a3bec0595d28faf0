// Whether a record can hold a disk and a support set (01, "A valid record has .."): one function a rule, by limits that each is given.
#![tactic(auto)]

ghost use Rattle.std.specs.Prelude.{◌≡◌, ◌≤◌, true};
ghost use Rattle.geometry.specs.EmBox.{all_in_box};
ghost use Rattle.geometry.specs.Plane.{members, numbers};
ghost use Rattle.validity.specs.Narrow.{Narrow};
ghost use Rattle.validity.specs.Valid.{scale_in_limit, centre_in_box, square_in_limit, valid_points_in, is_lowest, valid_disk_in, valid_disk, valid_in};
ghost use Rattle.point_lists.specs.Rising.{rising};

use geometry::{Disk, Limits, SupportSet, SupportedDisk};

// Limits with which no step of the tests overflows.
#[derive(Clone, Copy)]
pub struct NarrowLimits {
    pub limits: Limits,
    pub ghost narrow: { Narrow limits },
}

// A disk that a record by the limits of the em can hold.
#[derive(Clone, Copy)]
pub struct ValidDisk {
    pub disk: Disk,
    pub ghost valid: { valid_disk (numbers disk) ≡ true },
}

fn scale_in_limit(l: Limits, d: Disk) -> bool
    ensures { result ≡ scale_in_limit l (numbers d) }
{
    1 <= d.e && d.e <= l.scale
}

fn centre_in_box(l: NarrowLimits, d: Disk) -> bool
    requires { d.e ≤ l.limits.scale }
    ensures { result ≡ centre_in_box l.limits (numbers d) }
{
    let e = d.e as i64;
    let l = l.limits;
    integers::is_between(l.left * e, d.x, l.right * e)
        && integers::is_between(l.foot * e, d.y, l.top * e)
}

fn square_in_limit(l: NarrowLimits, d: Disk) -> bool
    requires { d.e ≤ l.limits.scale }
    ensures { result ≡ square_in_limit l.limits (numbers d) }
{
    wide_numbers::is_at_most(d.s, wide_numbers::product(l.limits.square, d.e * d.e))
}

#[tactic(auto, unfolding(point_lists::specs::Rising::rising, geometry::specs::Order::before))]
fn is_rising(t: SupportSet) -> bool
    ensures { result ≡ rising (members t) }
{
    match t {
        SupportSet::One(_) => true,
        SupportSet::Two(a, b) => a < b,
        SupportSet::Three(a, b, c) => a < b && b < c,
    }
}

#[tactic(auto, unfolding(geometry::specs::EmBox::all_in_box))]
fn all_in_box(l: Limits, t: SupportSet) -> bool
    ensures { result ≡ all_in_box l (members t) }
{
    match t {
        SupportSet::One(a) => geometry::in_box(l, a),
        SupportSet::Two(a, b) => geometry::in_box(l, a) && geometry::in_box(l, b),
        SupportSet::Three(a, b, c) => {
            geometry::in_box(l, a) && geometry::in_box(l, b) && geometry::in_box(l, c)
        }
    }
}

#[tactic(auto, using(crate::proofs::ValidLaws::members_counted), unfolding(crate::specs::Valid::valid_points_in))]
fn points_are_valid(l: Limits, t: SupportSet) -> bool
    ensures { result ≡ valid_points_in l (members t) }
{
    is_rising(t) && all_in_box(l, t)
}

fn is_lowest(d: Disk) -> bool
    ensures { result ≡ is_lowest (numbers d) }
{
    divisors::common_divisor(d.x, d.y, d.e) == 1
}

// E first: the tests behind it multiply by it.
#[tactic(auto, using(crate::proofs::ValidLaws::scale_limits), unfolding(crate::specs::Valid::valid_disk_in))]
fn disk_is_valid(l: NarrowLimits, d: Disk) -> bool
    ensures { result ≡ valid_disk_in l.limits (numbers d) }
{
    scale_in_limit(l.limits, d) && is_lowest(d) && centre_in_box(l, d) && square_in_limit(l, d)
}

// Whether a record with these limits can hold f.
#[tactic(auto, unfolding(crate::specs::Valid::valid_in))]
pub fn is_valid_in(l: Limits, f: SupportedDisk) -> bool
    requires { Narrow l }
    ensures { result ≡ valid_in l (numbers f.disk) (members f.support) }
{
    disk_is_valid(NarrowLimits { limits: l }, f.disk) && points_are_valid(l, f.support)
}
