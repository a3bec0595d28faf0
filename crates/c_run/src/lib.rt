// A sheet run under one allowance of tests, as C has the call.
#![tactic(auto)]

ghost use Rattle.std.specs.Prelude.{◌≡◌};
ghost use Rattle.answers.specs.Outcome.{outcome_by};
ghost use Rattle.sheet_run.specs.Running.{told, run_of, answer_of, buffer_after, numbers_after};
ghost use Rattle.c_run.specs.Answer.{run_answer};

use answers::Refusal;
use sheet_run::Worked;

// `refusal` is 0, or a refusal's number and all else 0: C has no Result (volkhidar_run_sheet).
#[repr(C)]
#[derive(Drop)]
pub struct RunAnswer {
    pub refusal: u64,
    pub worked: u64,
    pub left: u64,
}

impl From<Result<Worked, Refusal>> for RunAnswer {
    ghost from_gives = { λ r a. a ≡ run_answer (outcome_by told r) };

    fn from(ran: Result<Worked, Refusal>) -> RunAnswer {
        match ran {
            Ok(w) => RunAnswer {
                refusal: 0,
                worked: w.worked as u64,
                left: w.left,
            },
            Err(r) => RunAnswer {
                refusal: c_types::code(r),
                worked: 0,
                left: 0,
            },
        }
    }
}

pub fn run_sheet(sheet: &[u8], allowance: u64, buffer: &mut [u8], numbers: &mut [u16]) -> RunAnswer
    ensures value { result ≡ run_answer (answer_of (run_of sheet.now allowance buffer.old numbers.old)) }
    ensures buffer_after { buffer.new ≡ buffer_after sheet.now allowance buffer.old numbers.old }
    ensures numbers_after { numbers.new ≡ numbers_after sheet.now allowance buffer.old numbers.old }
{
    RunAnswer::from(sheet_run::run_sheet(sheet, allowance, buffer, numbers))
}
