// Lines of a text: blank, a point, or a fault (01, "Description, sheet, record").
#![tactic(auto)]

ghost use Rattle.std.specs.Prelude.{◌≡◌, true, false, drop, MatchOption, MatchResult};
ghost use Rattle.answers.specs.declared.Refusal.TheVariants.{BadLine};
ghost use Rattle.numerals.specs.Places.{is_feed, ends};
ghost use Rattle.lines.specs.Line.{fault, line_of};
ghost use Rattle.lines.specs.LineAt.{first_line, after_line, after_spaces, line_naming};

use answers::Refusal;
use geometry::Point;

// What follows the spaces in front of the text.
#[tactic(auto, using(crate::proofs::Front::space_behind, crate::proofs::Front::space_other, crate::proofs::Front::space_none))]
fn skip_spaces(text: &[u8]) -> &[u8]
    ensures { result.now ≡ after_spaces text.now }
{
    let mut rest = text;
    while let [b' ', next @ ..] = rest {
        rest = next;
    }
    rest
}

// Where a line ends in front of the text, with a line feed or with the text, what follows it.
#[tactic(auto, using(crate::proofs::Front::over, crate::proofs::Front::no_rest, crate::proofs::Front::feed, crate::proofs::Front::no_feed, crate::proofs::Front::rest))]
fn past_line(text: &[u8]) -> Option<&[u8]>
    ensures { MatchOption result (ends is_feed text.now ≡ false) (λ rest. (ends is_feed text.now ≡ true) × (rest.now ≡ drop 1 text.now)) }
{
    match text {
        [] => Some(text),
        [b'\n', rest @ ..] => Some(rest),
        _ => None,
    }
}

// The point that the line in front of the text names, None for a blank line, and the text behind the line. A line: spaces or none, x, one or
// more spaces, y, spaces or none.
pub fn read_line(text: &[u8]) -> Result<(Option<Point>, &[u8]), Refusal>
    ensures { MatchResult result (λ r. (line_of (first_line text.now) ≡ line_naming r.0) × (r.1.now ≡ after_line text.now))
        (λ e. (line_of (first_line text.now) ≡ fault) × (e ≡ BadLine)) }
{
    let first = skip_spaces(text);
    if let Some(rest) = past_line(first) {
        return Ok((None, rest));
    }
    let (x, behind) = numerals::read_number(first).ok_or(Refusal::BadLine)?;
    let second = skip_spaces(behind);
    let (y, after) = numerals::read_number(second).ok_or(Refusal::BadLine)?;
    let last = skip_spaces(after);
    let rest = past_line(last).ok_or(Refusal::BadLine)?;
    Ok((Some(Point { x, y }), rest))
}
