// A description loaded, as C has the call.
#![tactic(auto)]

ghost use Rattle.std.specs.Prelude.{◌≡◌};
ghost use Rattle.answers.specs.Outcome.{outcome};
ghost use Rattle.description.specs.Description.{load_of, list_after};
ghost use Rattle.c_load.specs.Answer.{load_answer};

use answers::Refusal;

// A count of points, or a refusal: the answer of the other calls too that count what they leave in a list.
// `refusal` is 0, or a refusal's number and all else 0: C has no Result (volkhidar_load).
#[repr(C)]
#[derive(Drop)]
pub struct LoadAnswer {
    pub refusal: u64,
    pub count: u64,
}

impl From<Result<usize, Refusal>> for LoadAnswer {
    ghost from_gives = { λ r a. a ≡ load_answer (outcome r) };

    fn from(counted: Result<usize, Refusal>) -> LoadAnswer {
        match counted {
            Ok(n) => LoadAnswer {
                refusal: 0,
                count: n as u64,
            },
            Err(r) => LoadAnswer {
                refusal: c_types::code(r),
                count: 0,
            },
        }
    }
}

pub fn load(text: &[u8], list: &mut [i16]) -> LoadAnswer
    ensures value { result ≡ load_answer (load_of text.now list.old) }
    ensures list_after { list.new ≡ list_after text.now list.old }
{
    LoadAnswer::from(description::load(text, list))
}
