// The greatest common divisor, and three numbers in lowest terms (01: the divisor rule).
#![tactic(auto)]

ghost use Rattle.std.specs.Prelude.{◌≡◌, ◌<◌, ◌^◌, pos};
ghost use Rattle.std.specs.Int.Signed.{quot_z};
ghost use Rattle.divisors.specs.Divisor.{gcd, common, lowest};

#[derive(Drop)]
pub struct Triple {
    pub x: i64,
    pub y: i64,
    pub e: u64,
}

// The greatest common divisor of a and b, by Euclid. A `while`: each step gives the next pair, and there is no row of pairs to go through.
pub fn gcd_of(a: u64, b: u64) -> u64
    ensures { result ≡ gcd a b }
{
    let mut m = a;
    let mut n = b;
    while n != 0 {
        let rest = m % n;
        m = n;
        n = rest;
    }
    m
}

// x / g, toward 0.
fn divided(x: i64, g: u64) -> i64
    requires g_nonzero { 0 < g }
    requires g_bound { g < 2 ^ 63 }
    ensures { result ≡ quot_z x (pos g) }
{
    x / (g as i64)
}

// The greatest common divisor of x, y and e. Where e is the smallest by far, as in a disk, the first remainder makes the numbers short.
pub fn common_divisor(x: i64, y: i64, e: u64) -> u64
    ensures { result ≡ common x y e }
{
    let of_x_and_e = gcd_of(integers::magnitude(x), e);
    gcd_of(integers::magnitude(y), of_x_and_e)
}

// x, y and e divided by their greatest common divisor: nothing above 1 divides all three numbers of the answer.
pub fn lowest_terms(x: i64, y: i64, e: u64) -> Triple
    requires e_nonzero { 0 < e }
    requires e_bound { e < 2 ^ 63 }
    ensures { result ≡ lowest x y e }
{
    let g = common_divisor(x, y, e);
    let lowest_e = e / g;
    Triple {
        x: divided(x, g),
        y: divided(y, g),
        e: lowest_e,
    }
}
