// Refusals: why a call turns its input down (01, "What a refused call hands back"; from 11 on, 02).
#![tactic(auto)]

ghost use Rattle.std.specs.Prelude.{◌≡◌};
ghost use Rattle.answers.specs.Outcome.{number_of};

use std::error::Error;
use std::fmt;

// Each with the number that document 01 or 02 gives it.
#[derive(Clone, Copy, Debug, PartialEq, Eq)]
pub enum Refusal {
    // A description or sheet over 65,535 bytes.
    TooLong = 1,
    // A line that is neither blank nor a point.
    BadLine = 2,
    // A point outside the em box; a traced point whose square leaves it.
    OutsideBox = 3,
    // More than 4,096 points; more than 1,024 traced points.
    TooMany = 4,
    // No point.
    NoPoint = 5,
    // A sheet shorter than its directory, or whose pairs break the rules.
    BadSheet = 6,
    // A record of another length, or not valid; a disk and support set that a valid record could not hold.
    BadRecord = 7,
    // A lent list or buffer that is too short.
    NoRoom = 8,
    // A point list of odd length; a list of traced points that does not go by threes.
    OddLength = 9,
    // A glyph number not below the count.
    NoGlyph = 10,
    // A NaN, an infinity or a float with a fraction in a point's x or y.
    NotWhole = 11,
    // A chosen point that is not in the list.
    NotInList = 12,
    // No disk holds the list with the chosen points on its boundary.
    NoDisk = 13,
    // A traced point whose t is outside 0 to 50.
    BadTolerance = 14,
    // Points that do not belong to their disk.
    PointsDoNotFit = 15,
    // A glyph that needs more tests than are left of a sheet's allowance, or stands behind one that did.
    NotAllowed = 16,
    // An allowance of 2⁶⁰ tests or more.
    TooMuch = 17,
}

// The refusal's number.
impl From<Refusal> for u8 {
    ghost from_gives = { λ r n. n ≡ number_of r };

    fn from(r: Refusal) -> u8 {
        r as u8
    }
}

impl fmt::Display for Refusal {
    fn fmt<W: fmt::Write>(&self, f: &mut fmt::Formatter<W>) -> fmt::Result {
        let number = u8::from(*self);
        write!(f, "refused {number}")
    }
}

impl Error for Refusal {}
