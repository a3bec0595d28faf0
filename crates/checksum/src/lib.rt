// The checksum of a row of numbers (tests/README.md): by it the test programs print a list or a buffer in one number.
#![tactic(auto)]

// The checksum with one more number.
fn mixed(sum: u64, number: u64) -> u64 {
    (65537 * (sum % 1000003) + number % 65536) % 1000003
}

// A number goes in as its magnitude, and 65,535 behind it where it is negative.
fn mixed_signed(sum: u64, z: i64) -> u64 {
    let next = mixed(sum, z.unsigned_abs());
    if z < 0 { mixed(next, 65535) } else { next }
}

pub fn of<T: Copy + Into<i64>>(numbers: &[T]) -> u64 {
    numbers
        .iter()
        .fold(0, |sum, v| mixed_signed(sum, (*v).into()))
}
