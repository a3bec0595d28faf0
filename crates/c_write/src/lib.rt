// A record written, as C has the call.
#![tactic(auto)]

ghost use Rattle.std.specs.Prelude.{◌≡◌};
ghost use Rattle.answers.specs.Outcome.{outcome};
ghost use Rattle.geometry.specs.Plane.{numbers};
ghost use Rattle.record_writer.specs.Writing.{write_of, buffer_after};
ghost use Rattle.c_types.specs.Support.{points_of};
ghost use Rattle.c_types.specs.Code.{code_of};

use answers::Refusal;
use c_types::Support;
use geometry::Disk;
use record_writer::RECORD_LENGTH;

// That the buffer is too short is said first, of a set of no known size too.
#[tactic(auto, using(c_types::proofs::NoSet::no_points))]
fn write(d: Disk, t: Support, buf: &mut [u8]) -> Result<(), Refusal>
    ensures value { outcome result ≡ write_of (numbers d) (points_of t) buf.old }
    ensures buf_after { buf.new ≡ buffer_after (numbers d) (points_of t) buf.old }
{
    if buf.len() < RECORD_LENGTH {
        return Err(Refusal::NoRoom);
    }
    record_writer::write_record(c_types::supported(d, t)?, buf)
}

pub fn write_record(d: Disk, t: Support, buf: &mut [u8]) -> u64
    ensures value { result ≡ code_of (write_of (numbers d) (points_of t) buf.old) }
    ensures buf_after { buf.new ≡ buffer_after (numbers d) (points_of t) buf.old }
{
    c_types::code_of(write(d, t, buf))
}
