// Traced points: what is known of a point that was traced by hand (02, item 7). The definitions are in specs, the theory in proofs.
#![tactic(auto)]

// A point that was read at (x, y) and is known only to within t units, in x and in y (02: a traced corner).
#[derive(Clone, Copy)]
pub struct TracedPoint {
    pub x: i16,
    pub y: i16,
    pub t: i16,
}
