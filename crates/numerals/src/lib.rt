// Numbers in a text: one plus, one minus or no sign, then 1 to 4 decimal digits (01, "Description, sheet, record"; 02, item 1).
#![tactic(auto)]

ghost use Rattle.std.specs.Prelude.{◌≡◌, ◌<◌, MatchOption};
ghost use Rattle.std.proofs.Math.Option.{none, some};
ghost use Rattle.integers.specs.Order.{signed};
ghost use Rattle.numerals.specs.Numeral.{digits, numeral};
ghost use Rattle.numerals.specs.Places.{is_byte, ends_word, starts, ends, after_sign, word, after_word};

// The most digits that a number has.
const MOST: usize = 4;

// Whether a word ends in front of the text: there is a space, a line feed or nothing.
#[tactic(auto, using(crate::proofs::Front::end_none, crate::proofs::Front::end_space, crate::proofs::Front::end_feed, crate::proofs::Front::end_other))]
fn word_ends(text: &[u8]) -> bool
    ensures { result ≡ ends ends_word text.now }
{
    matches!(text, [] | [b' ' | b'\n', ..])
}

// The value of the word in front of the text, if it is 1 to 4 digits, and what follows it.
#[tactic(auto, using(crate::proofs::Digits::reading_room, crate::proofs::Digits::fifth))]
fn read_digits(text: &[u8]) -> Option<(u16, &[u8])>
    ensures { MatchOption result (digits (word text.now) ≡ none) (λ r. (digits (word text.now) ≡ some r.0) × (r.1.now ≡ after_word text.now) × (r.0 < 10000)) }
{
    let mut v = 0;
    let mut rest = text;
    while let [d @ b'0'..=b'9', next @ ..] = rest {
        if text.len() - rest.len() == MOST {
            return None;
        }
        v = 10 * v + u16::from(d - b'0');
        rest = next;
    }
    if rest.len() == text.len() || !word_ends(rest) {
        return None;
    }
    Some((v, rest))
}

#[tactic(auto, using(crate::proofs::Front::minus_there, crate::proofs::Front::other_there, crate::proofs::Front::none_there))]
fn has_minus(text: &[u8]) -> bool
    ensures { result ≡ starts (is_byte 45) text.now }
{
    matches!(text, [b'-', ..])
}

// What follows one sign that may stand in front of the text.
#[tactic(auto, using(crate::proofs::Front::past_minus, crate::proofs::Front::past_plus, crate::proofs::Front::past_other, crate::proofs::Front::past_none))]
fn past_sign(text: &[u8]) -> &[u8]
    ensures { result.now ≡ after_sign text.now }
{
    match text {
        [b'+' | b'-', rest @ ..] => rest,
        _ => text,
    }
}

fn with_sign(v: u16, minus: bool) -> i16
    requires { v < 10000 }
    ensures { result ≡ signed minus v }
{
    if minus { -(v as i16) } else { v as i16 }
}

// The word in front of the text as a number, one plus, one minus or no sign and then digits, and what follows it. Taken whole into the
// line reader: else each answer goes through memory, and the loader takes 1.3 times as long.
#[inline(always)]
pub fn read_number(text: &[u8]) -> Option<(i16, &[u8])>
    ensures { MatchOption result (numeral (word text.now) ≡ none) (λ r. (numeral (word text.now) ≡ some r.0) × (r.1.now ≡ after_word text.now)) }
{
    let (v, rest) = read_digits(past_sign(text))?;
    Some((with_sign(v, has_minus(text)), rest))
}
