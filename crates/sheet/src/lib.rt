// The sheet opener: where glyph k of a sheet lies, and its bytes (01, "A sheet", "Glyph k").
#![tactic(auto)]

ghost use Rattle.std.specs.Prelude.{◌≡◌, ◌+◌, ◌*◌, ◌≤◌, length};
ghost use Rattle.answers.specs.Outcome.{outcome};
ghost use Rattle.sheet.specs.Sheet.{glyph_of, part_of, part_at};

use answers::Refusal;
use directory::Place;

// Where glyph k lies, from 0.
#[tactic(auto, using(directory::proofs::Rows::count_known))]
pub fn glyph(sheet: &[u8], k: usize) -> Result<Place, Refusal>
    ensures { outcome result ≡ glyph_of sheet.now k }
{
    let count = directory::count_glyphs(sheet)?;
    if count <= k {
        return Err(Refusal::NoGlyph);
    }
    let place = directory::place_at(sheet, k);
    Ok(place)
}

// The bytes of the sheet at a place, or none where they do not all lie in it.
pub fn part(sheet: &[u8], place: Place) -> &[u8]
    ensures { result.now ≡ part_of sheet.now place.start place.len }
{
    match place.start.checked_add(place.len) {
        Some(end) if end <= sheet.len() => &sheet[place.start..end],
        _ => &[],
    }
}

// The part of glyph k, of a sheet whose directory has it.
pub fn part_at(sheet: &[u8], k: usize) -> &[u8]
    requires { (6 + 4 * k ≤ length sheet.now) × (k ≤ 65535) }
    ensures { result.now ≡ part_at sheet.now k }
{
    part(sheet, directory::place_at(sheet, k))
}
