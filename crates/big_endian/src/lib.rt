// Whole numbers in fields of n bytes, high byte first, at a place of a lent slice (01: "high byte first"). One set of functions
// for every width from 1 to 8 bytes; 01 uses 2 and 8.
// A field is given by its place in the whole slice: the layouts of 01 are tables of places, and `put` and `get` of specs/ speak of the whole.
#![tactic(auto)]

ghost use Rattle.std.specs.Prelude.{◌≡◌, ◌+◌, ◌*◌, ◌^◌, ◌≤◌, ◌<◌, length};
ghost use Rattle.std.specs.Int.Signed.{mag};
ghost use Rattle.big_endian.specs.Fields.{put, get};
ghost use Rattle.twos_complement.specs.Twos.{Width, half, twos, back};

// Writes the n low bytes of v; the other bytes stay.
pub fn put_at(buf: &mut [u8], at: usize, n: usize, v: u64)
    requires { (n ≤ 8) × (at + n ≤ length buf.old) }
    ensures { buf.new ≡ put n v at buf.old }
{
    buf[at..at + n].copy_from_slice(&v.to_be_bytes()[8 - n..]);
}

// The number of n bytes.
pub fn get_at(buf: &[u8], at: usize, n: usize) -> u64
    requires { (n ≤ 8) × (at + n ≤ length buf.now) }
    ensures { (result ≡ get n 0 at buf.now) × (result < 2 ^ (8 * n)) }
{
    let mut sum: u64 = 0;
    for b in &buf[at..at + n] {
        sum = sum * 256 + u64::from(*b);
    }
    sum
}

// Writes a signed number.
pub fn put_signed_at(buf: &mut [u8], at: usize, n: usize, z: i64)
    requires width { Width n }
    requires n_in_bounds { at + n ≤ length buf.old }
    requires z_bound { mag z < half n }
    ensures { buf.new ≡ put n (twos n z) at buf.old }
{
    let u = twos_complement::bits_of(z, n);
    put_at(buf, at, n, u);
}

// Reads a signed number.
pub fn get_signed_at(buf: &[u8], at: usize, n: usize) -> i64
    requires width { Width n }
    requires n_in_bounds { at + n ≤ length buf.now }
    ensures { result ≡ back n (get n 0 at buf.now) }
{
    let u = get_at(buf, at, n);
    twos_complement::of_bits(u, n)
}
