// The convex hull of a list of points: definitions and theory alone.
#![tactic(auto)]
