// Signed numbers as bits, in two's complement, for every width from 1 byte to 8 (01: "signed").
// `Width n` stands at each function: n is a number of the layouts of 01, which its users add to places, and a struct around it would be opened at each use.
#![tactic(auto)]

ghost use Rattle.std.specs.Prelude.{◌≡◌, ◌+◌, ◌<◌};
ghost use Rattle.std.specs.Int.Signed.{mag};
ghost use Rattle.twos_complement.specs.Twos.{Width, half, twos, back};

// Half the numbers of n bytes.
fn half_of(n: usize) -> u64
    requires { Width n }
    ensures { result ≡ half n }
{
    1 << (8 * n - 1)
}

// The n bytes of z in two's complement, as a number. A cast of a negative number loses it, so its complement is cast.
pub fn bits_of(z: i64, n: usize) -> u64
    requires width { Width n }
    requires z_bound { mag z < half n }
    ensures { result ≡ twos n z }
{
    if z < 0 {
        let h = half_of(n);
        h - 1 + h - ((-1 - z) as u64)
    } else {
        z as u64
    }
}

// The number whose n bytes in two's complement are u.
pub fn of_bits(u: u64, n: usize) -> i64
    requires width { Width n }
    requires u_bound { u < half n + half n }
    ensures { result ≡ back n u }
{
    let h = half_of(n);
    if u < h {
        u as i64
    } else {
        -1 - ((h - 1 + h - u) as i64)
    }
}
