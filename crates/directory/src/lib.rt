// A sheet's directory: the count, and the pairs of offset and length, looked at once (01, "A sheet").
#![tactic(auto)]

ghost use Rattle.std.specs.Prelude.{◌≡◌, ◌+◌, ◌*◌, ◌≤◌, ◌<◌, length};
ghost use Rattle.answers.specs.Outcome.{outcome};
ghost use Rattle.directory.specs.Directory.{number, pair, pairs, follow, count_of};

use answers::Refusal;

// A part of a sheet: the offset of its first byte, from the start of the sheet, and how many bytes it has.
#[derive(Clone, Copy)]
pub struct Place {
    pub start: usize,
    pub len: usize,
}

// The 16-bit number at a place. Directory and records are read by the places that 01 gives; slices would need the same sums at each call.
pub fn number_at(sheet: &[u8], at: usize) -> usize
    requires { at + 2 ≤ length sheet.now }
    ensures { (result ≡ number sheet.now at) × (result ≤ 65535) }
{
    big_endian::get_at(sheet, at, 2) as usize
}

// Pair k of the directory, from 0.
pub fn place_at(sheet: &[u8], k: usize) -> Place
    requires { (6 + 4 * k ≤ length sheet.now) × (k ≤ 65535) }
    ensures { (result ≡ pair sheet.now k) × (result.start ≤ 65535) × (result.len ≤ 65535) }
{
    let start = number_at(sheet, 2 + 4 * k);
    let len = number_at(sheet, 4 + 4 * k);
    Place { start, len }
}

// Whether each part starts at or after the end of the one before, the first after the directory, and all lie within the sheet. The pairs go
// by their numbers, since `place_at` reads one for every caller; chunks of 4 bytes would be a second way.
#[tactic(auto, using(crate::proofs::Directory::rule_of_pairs))]
fn in_order(sheet: &[u8], count: usize) -> bool
    requires { (count ≤ 65535) × (2 + 4 * count ≤ length sheet.now) }
    ensures { result ≡ follow (2 + 4 * count) (length sheet.now) (pairs sheet.now 0 count) }
{
    let mut end = 2 + 4 * count;
    for k in 0..count {
        let place = place_at(sheet, k);
        if place.start < end {
            return false;
        }
        if sheet.len() < place.start + place.len {
            return false;
        }
        end = place.start + place.len;
    }
    true
}

// How many glyphs the sheet has, if it keeps the rules.
#[tactic(auto, using(crate::proofs::Rows::row_of_checks))]
pub fn count_glyphs(sheet: &[u8]) -> Result<usize, Refusal>
    ensures { outcome result ≡ count_of sheet.now }
{
    if 65535 < sheet.len() {
        return Err(Refusal::TooLong);
    }
    if sheet.len() < 2 {
        return Err(Refusal::BadSheet);
    }
    let count = number_at(sheet, 0);
    if sheet.len() < 2 + 4 * count || !in_order(sheet, count) {
        return Err(Refusal::BadSheet);
    }
    Ok(count)
}
