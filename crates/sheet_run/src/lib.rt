// A whole sheet worked under one allowance of tests (02, item 12).
#![tactic(auto)]

ghost use Rattle.std.specs.Prelude.{◌≡◌};
ghost use Rattle.answers.specs.Outcome.{given, outcome, outcome_by};
ghost use Rattle.answers.specs.Lent.{front_put};
ghost use Rattle.run_steps.specs.Inner.{number_for};
ghost use Rattle.sheet_run.specs.Running.{told, ran, run_of, answer_of, buffer_after, numbers_after};
ghost use Rattle.sheet_run.specs.Ready.{Ready};

use answers::Refusal;
use run_steps::Standing;

// How many glyphs were worked, and what is left of the allowance.
#[derive(Drop)]
pub struct Worked {
    pub worked: usize,
    pub left: u64,
}

// The least allowance that is refused.
const TOO_MUCH: u64 = 1 << 60;

// A glyph's answer as the list of numbers holds it: 0, or its refusal.
fn number_for(answer: Result<(), Refusal>) -> u16
    ensures { result ≡ number_for (outcome answer) }
{
    match answer {
        Ok(()) => 0,
        Err(r) => u16::from(u8::from(r)),
    }
}

// All glyphs of a sheet that keeps the rules, each one's points in one list for all.
fn run_glyphs(
    sheet: &[u8],
    count: usize,
    allowance: u64,
    buffer: &mut [u8],
    numbers: &mut [u16],
) -> Worked
    requires { Ready sheet.now count buffer.old numbers.old }
    ensures result_value { given (told result) ≡ answer_of (given (ran sheet.now allowance)) }
    ensures buffer_after { buffer.new ≡ front_put (ran sheet.now allowance).records buffer.old }
    ensures numbers_after { numbers.new ≡ front_put (ran sheet.now allowance).numbers numbers.old }
{
    let mut list = [0i16; 8192];
    let mut run = Standing {
        left: allowance,
        going: true,
        worked: 0,
    };
    for (i, number) in numbers[..count].iter_mut().enumerate() {
        let text = sheet::part_at(sheet, i);
        let answer = run.step(text, buffer, &mut list);
        *number = number_for(answer);
    }
    Worked {
        worked: run.worked,
        left: run.left,
    }
}

// Works the glyphs of a sheet from the first on with an allowance of tests. The records of the worked ones go one behind another into
// the buffer, and the list gets a number for each glyph: 0 or its refusal.
#[tactic(auto, using(crate::proofs::Rows::run_refused, directory::proofs::Rows::count_known))]
pub fn run_sheet(
    sheet: &[u8],
    allowance: u64,
    buffer: &mut [u8],
    numbers: &mut [u16],
) -> Result<Worked, Refusal>
    ensures result_value { outcome_by told result ≡ answer_of (run_of sheet.now allowance buffer.old numbers.old) }
    ensures buffer_after { buffer.new ≡ buffer_after sheet.now allowance buffer.old numbers.old }
    ensures numbers_after { numbers.new ≡ numbers_after sheet.now allowance buffer.old numbers.old }
{
    let count = directory::count_glyphs(sheet)?;
    if buffer.len() < record_writer::RECORD_LENGTH * count || numbers.len() < count {
        return Err(Refusal::NoRoom);
    }
    if TOO_MUCH <= allowance {
        return Err(Refusal::TooMuch);
    }
    Ok(run_glyphs(sheet, count, allowance, buffer, numbers))
}
