// Whole numbers of 128 bits in two words: products, sums of squares, comparisons and decimal text.
#![tactic(auto)]

ghost use Rattle.std.specs.Prelude.{◌≡◌, ◌*◌, pos, ◌+ℤ◌, ◌*ℤ◌, ◌==◌, nat_le, nat_lt};
ghost use Rattle.wide_numbers.specs.Value.{value};

use std::fmt;

// hi * 2^64 + lo. The high word comes first, so the derived order is that of the numbers.
#[repr(C)]
#[derive(Clone, Copy, Debug, PartialEq, Eq, PartialOrd, Ord)]
pub struct Wide {
    pub hi: u64,
    pub lo: u64,
}

impl From<u128> for Wide {
    ghost from_gives = { λ n w. value w ≡ n };

    fn from(n: u128) -> Wide {
        Wide {
            hi: (n >> 64) as u64,
            lo: (n % (1 << 64)) as u64,
        }
    }
}

impl From<Wide> for u128 {
    ghost from_gives = { λ w n. n ≡ value w };

    fn from(w: Wide) -> u128 {
        (u128::from(w.hi) << 64) + u128::from(w.lo)
    }
}

impl fmt::Display for Wide {
    fn fmt<W: fmt::Write>(&self, f: &mut fmt::Formatter<W>) -> fmt::Result {
        u128::from(*self).fmt(f)
    }
}

pub fn product(u: u64, v: u64) -> Wide
    ensures { value result ≡ u * v }
{
    Wide::from(u128::from(u) * u128::from(v))
}

// a² + b²
pub fn sum_of_squares(a: i64, b: i64) -> Wide
    ensures { pos (value result) ≡ a *ℤ a +ℤ b *ℤ b }
{
    let m = u128::from(integers::magnitude(a));
    let n = u128::from(integers::magnitude(b));
    Wide::from(m * m + n * n)
}

pub fn is_same(a: Wide, b: Wide) -> bool
    ensures { result ≡ (value a == value b) }
{
    a == b
}

pub fn is_zero(a: Wide) -> bool
    ensures { result ≡ (value a == 0) }
{
    is_same(a, Wide { hi: 0, lo: 0 })
}

pub fn is_below(a: Wide, b: Wide) -> bool
    ensures { result ≡ nat_lt (value a) (value b) }
{
    a < b
}

pub fn is_at_most(a: Wide, b: Wide) -> bool
    ensures { result ≡ nat_le (value a) (value b) }
{
    a <= b
}
