// The library for C and Rust programs: the calls of include/volkhidar.h, over numbers, structs of numbers and slices. Each promises the
// definition of the call that it exports, and is the call of a crate of its own.
#![tactic(auto)]

ghost use Rattle.std.specs.Prelude.{◌≡◌};
ghost use Rattle.description.specs.Description as description;
ghost use Rattle.drawn_points.specs.Appending as drawn;
ghost use Rattle.sheet.specs.Sheet.{glyph_of};
ghost use Rattle.engine.specs.Engine as engine;
ghost use Rattle.chosen_points.specs.declared.Chosen.TheVariants.{Two};
ghost use Rattle.chosen_points.specs.Chosen.{through_of};
ghost use Rattle.traced_points.specs.Traced.{traced_of};
ghost use Rattle.hull_points.specs.Reducing as hull;
ghost use Rattle.widest_stretch.specs.Stretching.{stretch_of};
ghost use Rattle.sheet_run.specs.Running as runs;
ghost use Rattle.sheet_estimate.specs.Estimating as estimates;
ghost use Rattle.radius.specs.Radius.{radius_of};
ghost use Rattle.record_writer.specs.Writing as writer;
ghost use Rattle.record_reader.specs.Reading.{read_of};
ghost use Rattle.preview.specs.Preview.{preview_of};
ghost use Rattle.letter.specs.Letter as letter;
ghost use Rattle.c_types.specs.Support.{points_of};
ghost use Rattle.c_types.specs.Code.{code_of};
ghost use Rattle.c_load.specs.Answer.{load_answer};
ghost use Rattle.c_append.specs.Kind.{point_of};
ghost use Rattle.c_glyph.specs.Answer.{glyph_answer};
ghost use Rattle.c_disk.specs.Answer.{disk_answer};
ghost use Rattle.c_through.specs.Answer.{through_answer};
ghost use Rattle.c_stretch.specs.Answer.{stretch_answer};
ghost use Rattle.c_run.specs.Answer.{run_answer};
ghost use Rattle.c_estimate.specs.Answer.{estimate_answer};
ghost use Rattle.c_radius.specs.Answer.{radius_answer};
ghost use Rattle.c_preview.specs.Answer.{preview_answer};
ghost use Rattle.c_read.specs.Answer.{record_answer};
ghost use Rattle.geometry.specs.Plane.{numbers};

use c_append::KindAndValues;
use c_disk::DiskAnswer;
use c_estimate::EstimateAnswer;
use c_glyph::GlyphAnswer;
use c_load::LoadAnswer;
use c_preview::PreviewAnswer;
use c_radius::RadiusAnswer;
use c_read::RecordAnswer;
use c_run::RunAnswer;
use c_stretch::StretchAnswer;
use c_through::ThroughAnswer;
use c_types::Support;
use geometry::{Disk, Point};

#[unsafe(no_mangle)]
pub extern "C" fn volkhidar_load(text: &[u8], list: &mut [i16]) -> LoadAnswer
    ensures value { result ≡ load_answer (description.load_of text.now list.old) }
    ensures list_after { list.new ≡ description.list_after text.now list.old }
{
    c_load::load(text, list)
}

#[unsafe(no_mangle)]
pub extern "C" fn volkhidar_append_point(p: KindAndValues, list: &mut [i16], n: usize) -> LoadAnswer
    ensures value { result ≡ load_answer (drawn.append_of (point_of p) list.old n) }
    ensures list_after { list.new ≡ drawn.list_after (point_of p) list.old n }
{
    c_append::append_point(p, list, n)
}

#[unsafe(no_mangle)]
pub extern "C" fn volkhidar_glyph(bytes: &[u8], k: usize) -> GlyphAnswer
    ensures { result ≡ glyph_answer (glyph_of bytes.now k) }
{
    c_glyph::glyph(bytes, k)
}

#[unsafe(no_mangle)]
pub extern "C" fn volkhidar_smallest_disk(list: &mut [i16]) -> DiskAnswer
    ensures value { result ≡ disk_answer (engine.enclose_of list.old) }
    ensures list_after { list.new ≡ engine.list_after list.old }
{
    c_disk::smallest_disk(list)
}

#[unsafe(no_mangle)]
pub extern "C" fn volkhidar_smallest_disk_through(
    list: &[i16],
    first: Point,
    second: Point,
) -> ThroughAnswer
    ensures { result ≡ through_answer (through_of list.now (Two first second)) }
{
    c_through::smallest_disk_through(list, first, second)
}

#[unsafe(no_mangle)]
pub extern "C" fn volkhidar_smallest_disk_of_traced(list: &[i16]) -> ThroughAnswer
    ensures { result ≡ through_answer (traced_of list.now) }
{
    c_traced::smallest_disk_of_traced(list)
}

#[unsafe(no_mangle)]
pub extern "C" fn volkhidar_reduce_to_hull(list: &mut [i16]) -> LoadAnswer
    ensures value { result ≡ load_answer (hull.reduce_of list.old) }
    ensures list_after { list.new ≡ hull.list_after list.old }
{
    c_hull::reduce_to_hull(list)
}

#[unsafe(no_mangle)]
pub extern "C" fn volkhidar_widest_stretch(list: &[i16]) -> StretchAnswer
    ensures { result ≡ stretch_answer (stretch_of list.now) }
{
    c_stretch::widest_stretch(list)
}

#[unsafe(no_mangle)]
pub extern "C" fn volkhidar_whole_radius(d: Disk, t: Support) -> RadiusAnswer
    ensures { result ≡ radius_answer (radius_of (numbers d) (points_of t)) }
{
    c_radius::whole_radius(d, t)
}

#[unsafe(no_mangle)]
pub extern "C" fn volkhidar_preview(d: Disk, t: Support) -> PreviewAnswer
    ensures { result ≡ preview_answer (preview_of (numbers d) (points_of t)) }
{
    c_preview::preview_of(d, t)
}

#[unsafe(no_mangle)]
pub extern "C" fn volkhidar_write_record(d: Disk, t: Support, buf: &mut [u8]) -> u64
    ensures value { result ≡ code_of (writer.write_of (numbers d) (points_of t) buf.old) }
    ensures buf_after { buf.new ≡ writer.buffer_after (numbers d) (points_of t) buf.old }
{
    c_write::write_record(d, t, buf)
}

#[unsafe(no_mangle)]
pub extern "C" fn volkhidar_read_record(bytes: &[u8]) -> RecordAnswer
    ensures { result ≡ record_answer (read_of bytes.now) }
{
    c_read::read_record(bytes)
}

// From a description to its record.
#[unsafe(no_mangle)]
pub extern "C" fn volkhidar_record_of(text: &[u8], buf: &mut [u8]) -> u64
    ensures value { result ≡ code_of (letter.letter_in text.now buf.old) }
    ensures buf_after { buf.new ≡ letter.buffer_after (letter.letter_in text.now buf.old) buf.old }
{
    c_letter::record_of(text, buf)
}

// The glyphs of a sheet, each from its description to its record.
#[unsafe(no_mangle)]
pub extern "C" fn volkhidar_run_sheet(
    sheet: &[u8],
    allowance: u64,
    buf: &mut [u8],
    list: &mut [u16],
) -> RunAnswer
    ensures value { result ≡ run_answer (runs.answer_of (runs.run_of sheet.now allowance buf.old list.old)) }
    ensures buf_after { buf.new ≡ runs.buffer_after sheet.now allowance buf.old list.old }
    ensures list_after { list.new ≡ runs.numbers_after sheet.now allowance buf.old list.old }
{
    c_run::run_sheet(sheet, allowance, buf, list)
}

// What a run of a sheet will take.
#[unsafe(no_mangle)]
pub extern "C" fn volkhidar_estimate_sheet(
    sheet: &[u8],
    points: &mut [u16],
    refusals: &mut [u16],
) -> EstimateAnswer
    ensures value { result ≡ estimate_answer (estimates.answer_of (estimates.estimate_of sheet.now points.old refusals.old)) }
    ensures points_after { points.new ≡ estimates.points_after sheet.now points.old refusals.old }
    ensures refusals_after { refusals.new ≡ estimates.refusals_after sheet.now points.old refusals.old }
{
    c_estimate::estimate_sheet(sheet, points, refusals)
}
