// Stored cases of lists reduced to their convex hull (tests/README.md): each is given its bytes, and what the calls answer and leave is printed.
#![tactic(auto)]

use std::io;

// H: a list of points; then the engine on those that were kept.
pub fn run_hull(rt: &impl Print, bytes: &[u8]) -> io::Result<()> {
    let mut room = [0i16; 8200];
    match cases::list_in(bytes, &mut room) {
        Some(list) => {
            let answer = hull_points::reduce_to_hull(list);
            list_cases::print_and_solve(rt, answer, list)
        }
        None => Ok(()),
    }
}
