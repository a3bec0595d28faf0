// The widest stretch of a list of points (02, item 11). The definitions are in specs, the theory in proofs.
#![tactic(auto)]

use geometry::Point;

// A pair of points, a no later than b in rising order, and the square of their distance (02: W).
#[derive(Clone, Copy)]
pub struct Stretch {
    pub a: Point,
    pub b: Point,
    pub w: u64,
}
