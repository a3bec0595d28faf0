// Points from a drawing program (02, item 2): two whole numbers or two floats, put behind the points of a list.
#![tactic(auto)]

ghost use Rattle.std.specs.Prelude.{◌≡◌};
ghost use Rattle.answers.specs.Outcome.{outcome};
ghost use Rattle.drawn_points.specs.declared.DrawnPoint.TheVariants.{Drawn};
ghost use Rattle.drawn_points.specs.Appending.{append_of, list_after};
ghost use Rattle.drawn_points.specs.Judging.{boxed, judged};

use answers::Refusal;
use geometry::Point;

// A point as the drawing program hands it over.
#[derive(Drop)]
pub enum DrawnPoint {
    Whole(i32, i32),
    Drawn(f64, f64),
}

const POINTS: usize = 4096;

const NUMBERS: usize = 8192;

// The point (x, y), which may lie anywhere, if it lies in the em box.
#[tactic(auto, using(crate::proofs::Boxes::too_wide_x, crate::proofs::Boxes::too_wide_y))]
fn point_in_box(x: i64, y: i64) -> Result<Point, Refusal>
    ensures { outcome result ≡ boxed (record { x = x; y = y }) }
{
    let (Ok(x), Ok(y)) = (i16::try_from(x), i16::try_from(y)) else {
        return Err(Refusal::OutsideBox);
    };
    let p = Point { x, y };
    if !geometry::in_em_box(p) {
        return Err(Refusal::OutsideBox);
    }
    Ok(p)
}

fn judge_floats(x: f64, y: f64) -> Result<Point, Refusal>
    ensures { outcome result ≡ judged (Drawn x y) }
{
    let a = whole_floats::whole_number(x).ok_or(Refusal::NotWhole)?;
    let b = whole_floats::whole_number(y).ok_or(Refusal::NotWhole)?;
    point_in_box(a, b)
}

fn judge(p: DrawnPoint) -> Result<Point, Refusal>
    ensures { outcome result ≡ judged p }
{
    match p {
        DrawnPoint::Whole(x, y) => point_in_box(i64::from(x), i64::from(y)),
        DrawnPoint::Drawn(x, y) => judge_floats(x, y),
    }
}

// Puts p behind the first n points of the list, and answers with how many it holds now; the rest of the list stays.
pub fn append_point(p: DrawnPoint, list: &mut [i16], n: usize) -> Result<usize, Refusal>
    ensures result_value { outcome result ≡ append_of p list.old n }
    ensures list_after { list.new ≡ list_after p list.old n }
{
    // Document 01 has this form: p is matched before the checks.
    let judged = judge(p);
    if list.len() < NUMBERS {
        return Err(Refusal::NoRoom);
    }
    let q = judged?;
    if POINTS <= n {
        return Err(Refusal::TooMany);
    }
    point_lists::put_point(list, n, q);
    Ok(n + 1)
}
