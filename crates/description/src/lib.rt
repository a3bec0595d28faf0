// Descriptions: the points on the lines of a text, loaded into a list of numbers (01, "Description, sheet, record").
#![tactic(auto)]

ghost use Rattle.std.specs.Prelude.{◌≡◌, ◌*◌, ◌≤◌, length};
ghost use Rattle.answers.specs.Outcome.{outcome};
ghost use Rattle.description.specs.Description.{lines_read, named, by_line, load_of, list_after};
ghost use Rattle.description.specs.Verdict.{Kept};

use answers::Refusal;

const POINTS: usize = 4096;

const NUMBERS: usize = 8192;

const BYTES: usize = 65535;

// How many points the lines of a text name; they are put at the front of found. (`found` is a slice with a `requires`, here and below, and
// no array of 8,192: a longer list may be lent, as load_into's `requires` allows, which may not become stronger.)
fn judge(text: &[u8], found: &mut [i16]) -> Result<usize, Refusal>
    requires { 8192 ≤ length found.old }
    ensures result_value { outcome result ≡ by_line 0 (lines_read text.now) }
    ensures kept { Kept result found.new (named text.now) }
{
    let mut rest = text;
    let mut n = 0;
    while !rest.is_empty() {
        let (named, next) = lines::read_line(rest)?;
        if let Some(p) = named {
            if !geometry::in_em_box(p) {
                return Err(Refusal::OutsideBox);
            }
            if POINTS <= n {
                return Err(Refusal::TooMany);
            }
            point_lists::put_point(found, n, p);
            n += 1;
        }
        rest = next;
    }
    if n == 0 {
        return Err(Refusal::NoPoint);
    }
    Ok(n)
}

// The loader's answer, for a list that the caller has no other use for: the points go to its front as they are read, and where the
// text is refused it holds anything.
#[tactic(auto, using(crate::proofs::Loading::load_long, crate::proofs::Loading::load_judged))]
pub fn load_into(text: &[u8], list: &mut [i16]) -> Result<usize, Refusal>
    requires { 8192 ≤ length list.old }
    ensures result_value { outcome result ≡ load_of text.now list.old }
    ensures kept { Kept result list.new (named text.now) }
{
    if BYTES < text.len() {
        return Err(Refusal::TooLong);
    }
    judge(text, list)
}

// The loader's work where the list has the size that it needs: the points stand in found until the whole text is judged.
fn load_through(text: &[u8], found: &mut [i16], list: &mut [i16]) -> Result<usize, Refusal>
    requires { (8192 ≤ length found.old) × (8192 ≤ length list.old) }
    ensures result_value { outcome result ≡ load_of text.now list.old }
    ensures list_after { list.new ≡ list_after text.now list.old }
{
    let n = load_into(text, found)?;
    point_lists::copy_front(found, 2 * n, list);
    Ok(n)
}

// Loads the points of a description at the front of a list of numbers (01: the loader). Nothing is written before the whole text is judged.
#[tactic(auto, using(crate::proofs::Loading::load_no_room, crate::proofs::Loading::after_no_room))]
pub fn load(text: &[u8], list: &mut [i16]) -> Result<usize, Refusal>
    ensures result_value { outcome result ≡ load_of text.now list.old }
    ensures list_after { list.new ≡ list_after text.now list.old }
{
    if list.len() < NUMBERS {
        return Err(Refusal::NoRoom);
    }
    let mut found = [0i16; NUMBERS];
    load_through(text, &mut found, list)
}
