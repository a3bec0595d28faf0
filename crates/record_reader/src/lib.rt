// The record reader: records of 53 bytes, and of 45 by the limits of the old em. What differs is how many bytes S has, n, and what stands behind it.
#![tactic(auto)]

ghost use Rattle.std.specs.Prelude.{◌≡◌, ◌+◌, ◌≤◌, eqb, length};
ghost use Rattle.answers.specs.Outcome.{outcome_by};
ghost use Rattle.big_endian.specs.Fields.{get};
ghost use Rattle.wide_numbers.specs.Value.{value};
ghost use Rattle.geometry.specs.EmBox.{em};
ghost use Rattle.geometry.specs.Plane.{numbers, members};
ghost use Rattle.validity.specs.Narrow.{Narrower};
ghost use Rattle.record_writer.specs.Layout.{coordinate_width, point_width, s_at, length_by};
ghost use Rattle.record_reader.specs.Reading.{signed_at, disk_in, point_in, meant, points_in, count_in, held, read_by, read_of};
ghost use Rattle.record_reader.specs.Widths.{SWidth};

use answers::Refusal;
use geometry::{Disk, Point, SupportSet, SupportedDisk};
use record_writer::{
    COORDINATE_WIDTH, COUNT_WIDTH, E_AT, NUMBER_WIDTH, POINT_WIDTH, RECORD_LENGTH, S_AT, X_AT, Y_AT,
};
use validity::NarrowLimits;
use wide_numbers::Wide;

// The bytes of S, and the whole record's length, where the em was 1,000 units.
const OLD_S_WIDTH: usize = 8;

const OLD_RECORD_LENGTH: usize = 45;

const S_WIDTH: usize = 16;

// A record: its bytes, of which S has s_width, 8 to 16, so that two words hold it.
#[derive(Clone, Copy)]
struct Record<'a> {
    bytes: &'a [u8],
    s_width: usize,
    ghost width: { SWidth s_width },
    ghost whole: { length bytes.now ≡ length_by s_width },
}

// By its place in the record, as specs/Layout has it.
fn get_coordinate(bytes: &[u8], at: usize) -> i16
    requires { at + coordinate_width ≤ length bytes.now }
    ensures { result ≡ signed_at coordinate_width at bytes.now }
{
    let u = big_endian::get_at(bytes, at, COORDINATE_WIDTH);
    twos_complement::of_bits(u, COORDINATE_WIDTH) as i16
}

fn get_point(bytes: &[u8], at: usize) -> Point
    requires { at + point_width ≤ length bytes.now }
    ensures { result ≡ point_in at bytes.now }
{
    let x = get_coordinate(bytes, at);
    let y = get_coordinate(bytes, at + COORDINATE_WIDTH);
    Point { x, y }
}

// The points that three written ones stand for.
#[tactic(auto, unfolding(crate::specs::Reading::meant, point_lists::specs::Sets::same))]
fn without_repeats(a: Point, b: Point, c: Point) -> SupportSet
    ensures { members result ≡ meant a b c }
{
    if b != c {
        SupportSet::Three(a, b, c)
    } else if a != b {
        SupportSet::Two(a, b)
    } else {
        SupportSet::One(a)
    }
}

// How many points there are.
fn count(t: SupportSet) -> u64
    ensures { result ≡ length (members t) }
{
    match t {
        SupportSet::One(..) => 1,
        SupportSet::Two(..) => 2,
        SupportSet::Three(..) => 3,
    }
}

impl Record<'_> {
    // S: the high word has what is above the 8 low bytes.
    fn s(&self) -> Wide
        ensures { value result ≡ get self.now.s_width 0 s_at self.now.bytes.now }
    {
        let high = self.s_width - NUMBER_WIDTH;
        let hi = big_endian::get_at(self.bytes, S_AT, high);
        let lo = big_endian::get_at(self.bytes, S_AT + high, NUMBER_WIDTH);
        Wide { hi, lo }
    }

    fn disk(&self) -> Disk
        ensures { numbers result ≡ disk_in self.now.s_width self.now.bytes.now }
    {
        let x = big_endian::get_signed_at(self.bytes, X_AT, NUMBER_WIDTH);
        let y = big_endian::get_signed_at(self.bytes, Y_AT, NUMBER_WIDTH);
        let e = big_endian::get_at(self.bytes, E_AT, NUMBER_WIDTH);
        let s = self.s();
        Disk { x, y, e, s }
    }

    fn support(&self) -> SupportSet
        ensures { members result ≡ points_in self.now.s_width self.now.bytes.now }
    {
        let first = S_AT + self.s_width;
        let a = get_point(self.bytes, first);
        let b = get_point(self.bytes, first + POINT_WIDTH);
        let c = get_point(self.bytes, first + 2 * POINT_WIDTH);
        without_repeats(a, b, c)
    }

    // Whether the count at the end is that of the points.
    fn count_agrees(&self, t: SupportSet) -> bool
        ensures { result ≡ eqb (count_in self.now.s_width self.now.bytes.now) (length (members t)) }
    {
        let at = S_AT + self.s_width + 3 * POINT_WIDTH;
        let written = big_endian::get_at(self.bytes, at, COUNT_WIDTH);
        let meant = count(t);
        written == meant
    }

    // The disk and the support set, by the limits l.
    fn read(&self, l: NarrowLimits) -> Result<SupportedDisk, Refusal>
        requires { Narrower l.limits em }
        ensures { outcome_by held result ≡ read_by self.now.s_width l.limits self.now.bytes.now }
    {
        let disk = self.disk();
        let support = self.support();
        if !self.count_agrees(support) {
            return Err(Refusal::BadRecord);
        }
        let f = SupportedDisk { disk, support };
        disk_checks::check_in(l.limits, f)?;
        Ok(f)
    }
}

// The disk and the support set whose record the bytes are.
pub fn read_record(bytes: &[u8]) -> Result<SupportedDisk, Refusal>
    ensures { outcome_by held result ≡ read_of bytes.now }
{
    match bytes.len() {
        OLD_RECORD_LENGTH => {
            let limits = geometry::old_em_limits();
            Record {
                bytes,
                s_width: OLD_S_WIDTH,
            }
            .read(NarrowLimits { limits })
        }
        RECORD_LENGTH => {
            let limits = geometry::em_limits();
            Record {
                bytes,
                s_width: S_WIDTH,
            }
            .read(NarrowLimits { limits })
        }
        _ => Err(Refusal::BadRecord),
    }
}
