// Whole numbers of the machine: the size of one, and a test of range.
#![tactic(auto)]

ghost use Rattle.std.specs.Prelude.{◌≡◌, nat_abs};
ghost use Rattle.integers.specs.Order.{between};

// |x|
pub fn magnitude(x: i64) -> u64
    ensures { result ≡ nat_abs x }
{
    x.unsigned_abs()
}

// lo <= z <= hi
pub fn is_between(lo: i64, z: i64, hi: i64) -> bool
    ensures { result ≡ between lo z hi }
{
    lo <= z && z <= hi
}
