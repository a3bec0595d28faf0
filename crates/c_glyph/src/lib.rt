// Where glyph k of a sheet lies, as C has the call.
#![tactic(auto)]

ghost use Rattle.std.specs.Prelude.{◌≡◌};
ghost use Rattle.answers.specs.Outcome.{outcome};
ghost use Rattle.sheet.specs.Sheet.{glyph_of};
ghost use Rattle.c_glyph.specs.Answer.{glyph_answer};

use answers::Refusal;
use directory::Place;

// `refusal` is 0, or a refusal's number and all else 0: C has no Result (volkhidar_glyph).
#[repr(C)]
#[derive(Drop)]
pub struct GlyphAnswer {
    pub refusal: u64,
    pub start: u64,
    pub len: u64,
}

impl From<Result<Place, Refusal>> for GlyphAnswer {
    ghost from_gives = { λ r a. a ≡ glyph_answer (outcome r) };

    fn from(glyph: Result<Place, Refusal>) -> GlyphAnswer {
        match glyph {
            Ok(p) => GlyphAnswer {
                refusal: 0,
                start: p.start as u64,
                len: p.len as u64,
            },
            Err(r) => GlyphAnswer {
                refusal: c_types::code(r),
                start: 0,
                len: 0,
            },
        }
    }
}

pub fn glyph(bytes: &[u8], k: usize) -> GlyphAnswer
    ensures { result ≡ glyph_answer (glyph_of bytes.now k) }
{
    GlyphAnswer::from(sheet::glyph(bytes, k))
}
