// What a sheet will take, as C has the call.
#![tactic(auto)]

ghost use Rattle.std.specs.Prelude.{◌≡◌};
ghost use Rattle.answers.specs.Outcome.{outcome_by};
ghost use Rattle.sheet_estimate.specs.Estimating.{told, estimate_of, answer_of, points_after, refusals_after};
ghost use Rattle.c_estimate.specs.Answer.{estimate_answer};

use answers::Refusal;
use sheet_estimate::Estimate;

// `refusal` is 0, or a refusal's number and all else 0: C has no Result (volkhidar_estimate_sheet).
#[repr(C)]
#[derive(Drop)]
pub struct EstimateAnswer {
    pub refusal: u64,
    pub bytes: u64,
    pub tests: u64,
}

impl From<Result<Estimate, Refusal>> for EstimateAnswer {
    ghost from_gives = { λ r a. a ≡ estimate_answer (outcome_by told r) };

    fn from(estimate: Result<Estimate, Refusal>) -> EstimateAnswer {
        match estimate {
            Ok(e) => EstimateAnswer {
                refusal: 0,
                bytes: e.bytes as u64,
                tests: e.tests,
            },
            Err(r) => EstimateAnswer {
                refusal: c_types::code(r),
                bytes: 0,
                tests: 0,
            },
        }
    }
}

pub fn estimate_sheet(sheet: &[u8], points: &mut [u16], refusals: &mut [u16]) -> EstimateAnswer
    ensures value { result ≡ estimate_answer (answer_of (estimate_of sheet.now points.old refusals.old)) }
    ensures points_after { points.new ≡ points_after sheet.now points.old refusals.old }
    ensures refusals_after { refusals.new ≡ refusals_after sheet.now points.old refusals.old }
{
    EstimateAnswer::from(sheet_estimate::estimate_sheet(sheet, points, refusals))
}
