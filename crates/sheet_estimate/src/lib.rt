// What a sheet will take, said before it is run (02, item 13): no disk is worked out.
#![tactic(auto)]

ghost use Rattle.std.specs.Prelude.{◌≡◌, ◌≤◌};
ghost use Rattle.answers.specs.Outcome.{given, outcome_by};
ghost use Rattle.answers.specs.Lent.{front_put};
ghost use Rattle.sheet_estimate.specs.Estimating.{told, most_tests, estimated, estimate_of, answer_of, points_after, refusals_after};
ghost use Rattle.sheet_estimate.specs.Listed.{Listed};

use answers::Refusal;

// The bytes of the records of all acceptable glyphs, and as many tests as are enough for them.
#[derive(Drop)]
pub struct Estimate {
    pub bytes: usize,
    pub tests: u64,
}

// As many tests as are enough for n points.
fn most_tests(n: u64) -> u64
    requires { n ≤ 4096 }
    ensures { result ≡ most_tests n }
{
    (n * n * n + 5 * n) / 6
}

// All glyphs of a sheet that keeps the rules, each one's points in one list for all.
fn estimate_glyphs(sheet: &[u8], count: usize, points: &mut [u16], refusals: &mut [u16]) -> Estimate
    requires { Listed sheet.now count points.old refusals.old }
    ensures result_value { given (told result) ≡ answer_of (given (estimated sheet.now count)) }
    ensures points_after { points.new ≡ front_put (estimated sheet.now count).points points.old }
    ensures refusals_after { refusals.new ≡ front_put (estimated sheet.now count).refusals refusals.old }
{
    let mut list = [0i16; 8192];
    let mut total = Estimate { bytes: 0, tests: 0 };
    // By index: of what a loop over two zipped `iter_mut` writes, std says nothing to a proof.
    for i in 0..count {
        let text = sheet::part_at(sheet, i);
        match description::load_into(text, &mut list) {
            Ok(n) => {
                points[i] = n as u16;
                refusals[i] = 0;
                total.bytes += record_writer::RECORD_LENGTH;
                total.tests += most_tests(n as u64);
            }
            Err(r) => {
                points[i] = 0;
                refusals[i] = u16::from(u8::from(r));
            }
        }
    }
    total
}

// Says what a run of a sheet will take. The lists get, for each glyph, its points, 0 where it is faulty, and the loader's refusal or 0.
#[tactic(auto, using(crate::proofs::Rows::estimate_refused, directory::proofs::Rows::count_known))]
pub fn estimate_sheet(
    sheet: &[u8],
    points: &mut [u16],
    refusals: &mut [u16],
) -> Result<Estimate, Refusal>
    ensures result_value { outcome_by told result ≡ answer_of (estimate_of sheet.now points.old refusals.old) }
    ensures points_after { points.new ≡ points_after sheet.now points.old refusals.old }
    ensures refusals_after { refusals.new ≡ refusals_after sheet.now points.old refusals.old }
{
    let count = directory::count_glyphs(sheet)?;
    if points.len() < count || refusals.len() < count {
        return Err(Refusal::NoRoom);
    }
    Ok(estimate_glyphs(sheet, count, points, refusals))
}
