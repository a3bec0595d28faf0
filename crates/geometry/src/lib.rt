// Points, disks and support sets; the em box; points in a list of numbers.
#![tactic(auto)]

ghost use Rattle.std.specs.Prelude.{◌≡◌, ◌+◌, ◌*◌, ◌≤◌, ◌-ℤ◌, length};
ghost use Rattle.std.specs.Iterator.{YieldsFirst, item_count};
ghost use Rattle.geometry.specs.EmBox.{em, old_em, in_box, in_em_box};
ghost use Rattle.geometry.specs.Points.{point_at, points};
ghost use Rattle.geometry.specs.Order.{before};

use std::fmt;
use wide_numbers::Wide;

// 01: a corner. Their order is the rising one: x, then y.
#[repr(C)]
#[derive(Clone, Copy, Debug, PartialEq, Eq, PartialOrd, Ord)]
pub struct Point {
    pub x: i16,
    pub y: i16,
}

// Centre (x/e, y/e), squared radius s/e² (01: X, Y, E, S).
#[repr(C)]
#[derive(Clone, Copy, Debug)]
pub struct Disk {
    pub x: i64,
    pub y: i64,
    pub e: u64,
    pub s: Wide,
}

// The box that points lie in, x from left to right and y from foot to top, the largest E and the largest S/E².
#[derive(Clone, Copy, Debug)]
pub struct Limits {
    pub left: i64,
    pub right: i64,
    pub foot: i64,
    pub top: i64,
    pub scale: u64,
    pub square: u64,
}

// Points whose own smallest disk is that of the whole list (01: a rim set).
#[derive(Clone, Copy, Debug)]
pub enum SupportSet {
    One(Point),
    Two(Point, Point),
    Three(Point, Point, Point),
}

// A disk with its support set (01: with its rim set).
#[derive(Clone, Copy, Debug)]
pub struct SupportedDisk {
    pub disk: Disk,
    pub support: SupportSet,
}

impl fmt::Display for Point {
    fn fmt<W: fmt::Write>(&self, f: &mut fmt::Formatter<W>) -> fmt::Result {
        write!(f, "{} {}", self.x, self.y)
    }
}

impl fmt::Display for Disk {
    fn fmt<W: fmt::Write>(&self, f: &mut fmt::Formatter<W>) -> fmt::Result {
        write!(f, "{} {} {} {}", self.x, self.y, self.e, self.s)
    }
}

impl fmt::Display for SupportSet {
    fn fmt<W: fmt::Write>(&self, f: &mut fmt::Formatter<W>) -> fmt::Result {
        match self {
            SupportSet::One(a) => write!(f, "{a}"),
            SupportSet::Two(a, b) => write!(f, "{a} {b}"),
            SupportSet::Three(a, b, c) => write!(f, "{a} {b} {c}"),
        }
    }
}

// The one place where a coordinate is widened.
pub fn wide(v: i16) -> i64
    ensures { result ≡ v }
{
    i64::from(v)
}

// b − a
pub fn minus(b: i16, a: i16) -> i64
    ensures { result ≡ b -ℤ a }
{
    wide(b) - wide(a)
}

// The em box, and a number to the left of it.
pub const LEFT: i64 = 0;

pub const RIGHT: i64 = 2048;

pub const FOOT: i64 = -512;

pub const TOP: i64 = 1536;

pub const LEFT_OF_BOX: i64 = -1;

// The limits of the em box (02, item 10).
pub fn em_limits() -> Limits
    ensures { result ≡ em }
{
    Limits {
        left: LEFT,
        right: RIGHT,
        foot: FOOT,
        top: TOP,
        scale: 8_388_608,
        square: 2_097_152,
    }
}

// The limits of records of 45 bytes (01; 02, item 10: the old limits).
pub fn old_em_limits() -> Limits
    ensures { result ≡ old_em }
{
    Limits {
        left: 0,
        right: 1000,
        foot: -250,
        top: 750,
        scale: 2_000_000,
        square: 500_000,
    }
}

// Whether p lies in the box of the limits.
#[tactic(auto, unfolding(crate::specs::EmBox::in_box))]
pub fn in_box(l: Limits, p: Point) -> bool
    ensures { result ≡ in_box l p }
{
    integers::is_between(l.left, wide(p.x), l.right)
        && integers::is_between(l.foot, wide(p.y), l.top)
}

// Whether p lies in the em box. The engine asks it of every point, so it stands by itself: with the limits as a value the test takes longer.
#[tactic(auto, unfolding(crate::specs::EmBox::in_box))]
pub fn in_em_box(p: Point) -> bool
    ensures { result ≡ in_em_box p }
{
    integers::is_between(LEFT, wide(p.x), RIGHT) && integers::is_between(FOOT, wide(p.y), TOP)
}

// Whether p comes before q in rising order. One test after the other: with the derived `<`, which says the same, or with these tests in one expression,
// the compiler makes no branch of the first, and lists with many points on one circle took 1.4 to 1.6 times as long.
#[tactic(auto, unfolding(crate::specs::Order::before))]
pub fn is_before(p: Point, q: Point) -> bool
    ensures { result ≡ before p q }
{
    if p.x < q.x {
        return true;
    }
    if q.x < p.x {
        return false;
    }
    p.y < q.y
}

// Point i of a list of numbers, x and y by turns.
pub fn point_at(list: &[i16], i: usize) -> Point
    requires { 2 * i + 2 ≤ length list.now }
    ensures { result ≡ point_at list.now i }
{
    let x = list[2 * i];
    let y = list[2 * i + 1];
    Point { x, y }
}

// The points of a list of numbers, first to last.
#[derive(Drop)]
pub struct PointIter<'a>(&'a [i16]);

impl<'a> Iterator for PointIter<'a> {
    type Item = Point;

    ghost next_gives = { YieldsFirst (λ s. points s.0.now) };

    ghost remaining = { item_count (λ s. points s.0.now) };

    #[tactic(auto, using(crate::proofs::PointLists::points_none, crate::proofs::PointLists::points_next))]
    fn next(&mut self) -> Option<Point> {
        let ([x, y], rest) = self.0.split_first_chunk::<2>()?;
        self.0 = rest;
        Some(Point { x: *x, y: *y })
    }
}

pub fn points(list: &[i16]) -> PointIter<'_>
    ensures { points result.0.now ≡ points list.now }
{
    PointIter(list)
}
