// One letter worked whole: loader, engine, record (01, "Description, sheet, record"). `enclose` and `work` have a list of their own, so
// that a loop that calls them takes no stack at its turns; a loop over many short letters lends `enclose_in` one list for all.
#![tactic(auto)]

ghost use Rattle.std.specs.Prelude.{◌≡◌, ◌≤◌, length};
ghost use Rattle.answers.specs.Outcome.{outcome, outcome_by};
ghost use Rattle.engine.specs.Engine.{enclosure_told};
ghost use Rattle.letter.specs.Letter.{enclosure_of, letter_in, tests_in, buffer_after};

use answers::Refusal;
use engine::Enclosed;

// The smallest disk of a description's points, which are put into the list; it is as good a list whatever it holds.
#[tactic(auto, using(crate::proofs::Whole::enclosure_unloaded))]
pub fn enclose_in(text: &[u8], list: &mut [i16]) -> Result<Enclosed, Refusal>
    requires { 8192 ≤ length list.old }
    ensures { outcome_by enclosure_told result ≡ enclosure_of text.now }
{
    let n = description::load_into(text, list)?;
    engine::smallest_disk(&mut list[..2 * n])
}

// The same in a list of its own.
pub fn enclose(text: &[u8]) -> Result<Enclosed, Refusal>
    ensures { outcome_by enclosure_told result ≡ enclosure_of text.now }
{
    let mut list = [0i16; 8192];
    enclose_in(text, &mut list)
}

// Works a description out and writes its record at the front of buf; the answer is how many tests the procedure made. The writer
// takes whatever the engine gives (proofs/Whole: `enclosure_checked`).
#[tactic(auto, using(crate::proofs::Whole::letter_short, crate::proofs::Whole::letter_refused))]
pub fn work(text: &[u8], buf: &mut [u8]) -> Result<u64, Refusal>
    ensures result_value { outcome result ≡ tests_in (letter_in text.now buf.old) }
    ensures buf_after { buf.new ≡ buffer_after (letter_in text.now buf.old) buf.old }
{
    if buf.len() < record_writer::RECORD_LENGTH {
        return Err(Refusal::NoRoom);
    }
    let enclosed = enclose(text)?;
    record_writer::write_record(enclosed.found, buf)?;
    Ok(enclosed.tests)
}
