// The record's layout (01, "Description, sheet, record"; 02, items 4 and 10: 53 bytes), and the record writer.
#![tactic(auto)]

ghost use Rattle.std.specs.Prelude.{◌≡◌, [], ◌∷◌, ◌++◌, ◌+◌, ◌≤◌, length};
ghost use Rattle.std.proofs.lemmas.List.Edits.{sets};
ghost use Rattle.answers.specs.Outcome.{outcome};
ghost use Rattle.big_endian.specs.Fields.{bytes_of, put};
ghost use Rattle.wide_numbers.specs.Value.{value};
ghost use Rattle.geometry.specs.Plane.{members, numbers};
ghost use Rattle.record_writer.specs.Layout.{x_at, first_at, point_width, s_width, count_width, record_length};
ghost use Rattle.record_writer.specs.Bytes.{disk_bytes, point_bytes, points_bytes, made_three, count_bytes};
ghost use Rattle.record_writer.specs.Writing.{write_of, buffer_after};

use answers::Refusal;
use geometry::{Disk, Point, SupportSet, SupportedDisk};
use wide_numbers::Wide;

// Where the fields stand, and how wide they are.
pub const NUMBER_WIDTH: usize = 8;

pub const COORDINATE_WIDTH: usize = 2;

pub const POINT_WIDTH: usize = 4;

pub const COUNT_WIDTH: usize = 1;

pub const X_AT: usize = 0;

pub const Y_AT: usize = 8;

pub const E_AT: usize = 16;

pub const S_AT: usize = 24;

pub const FIRST_AT: usize = 40;

pub const SECOND_AT: usize = 44;

pub const THIRD_AT: usize = 48;

pub const COUNT_AT: usize = 52;

pub const RECORD_LENGTH: usize = 53;

// Fields are written by their places in the whole buffer: these are the layout's (01), and specs/Layout, which the claims cite, names them.
// The two words of a number, the high one first.
fn put_wide(buf: &mut [u8], at: usize, w: Wide)
    requires { at + s_width ≤ length buf.old }
    ensures { buf.new ≡ put s_width (value w) at buf.old }
{
    big_endian::put_at(buf, at, NUMBER_WIDTH, w.hi);
    big_endian::put_at(buf, at + NUMBER_WIDTH, NUMBER_WIDTH, w.lo);
}

// X, Y, E and S.
fn put_disk(buf: &mut [u8], d: Disk)
    requires { first_at s_width ≤ length buf.old }
    ensures { buf.new ≡ sets buf.old x_at (disk_bytes s_width (numbers d)) }
{
    big_endian::put_signed_at(buf, X_AT, NUMBER_WIDTH, d.x);
    big_endian::put_signed_at(buf, Y_AT, NUMBER_WIDTH, d.y);
    big_endian::put_at(buf, E_AT, NUMBER_WIDTH, d.e);
    put_wide(buf, S_AT, d.s);
}

// x and y.
#[tactic(auto, using(crate::proofs::ByteLaws::stores))]
fn put_point(buf: &mut [u8], at: usize, p: Point)
    requires { at + point_width ≤ length buf.old }
    ensures { buf.new ≡ sets buf.old at (point_bytes p) }
{
    big_endian::put_signed_at(buf, at, COORDINATE_WIDTH, geometry::wide(p.x));
    big_endian::put_signed_at(
        buf,
        at + COORDINATE_WIDTH,
        COORDINATE_WIDTH,
        geometry::wide(p.y),
    );
}

// Three points, and how many of them are meant.
#[tactic(auto, using(crate::proofs::ByteLaws::three_stored))]
fn put_three(buf: &mut [u8], a: Point, b: Point, c: Point, n: u64)
    requires { record_length ≤ length buf.old }
    ensures { buf.new ≡ sets buf.old (first_at s_width) (points_bytes (a ∷ b ∷ c ∷ []) ++ bytes_of count_width n) }
{
    put_point(buf, FIRST_AT, a);
    put_point(buf, SECOND_AT, b);
    put_point(buf, THIRD_AT, c);
    big_endian::put_at(buf, COUNT_AT, COUNT_WIDTH, n);
}

// Three points, the last repeated where there are fewer, and their count.
fn put_points(buf: &mut [u8], t: SupportSet)
    requires { record_length ≤ length buf.old }
    ensures { buf.new ≡ sets buf.old (first_at s_width) (points_bytes (made_three (members t)) ++ count_bytes (members t)) }
{
    match t {
        SupportSet::One(a) => put_three(buf, a, a, a, 1),
        SupportSet::Two(a, b) => put_three(buf, a, b, b, 2),
        SupportSet::Three(a, b, c) => put_three(buf, a, b, c, 3),
    }
}

// Writes the record of f to the first bytes of buf and leaves the rest.
pub fn write_record(f: SupportedDisk, buf: &mut [u8]) -> Result<(), Refusal>
    ensures result_value { outcome result ≡ write_of (numbers f.disk) (members f.support) buf.old }
    ensures buf_after { buf.new ≡ buffer_after (numbers f.disk) (members f.support) buf.old }
{
    if buf.len() < RECORD_LENGTH {
        return Err(Refusal::NoRoom);
    }
    disk_checks::check(f)?;
    put_disk(buf, f.disk);
    put_points(buf, f.support);
    Ok(())
}
