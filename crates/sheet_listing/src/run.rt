// What the sheet listing prints of a run: a line a glyph, and one for the whole sheet (02, item 12); or one line where the sheet is refused.
ghost use Rattle.std.specs.Prelude.{◌+◌, ◌*◌, ◌≤◌, length};

use report::Entry;
use std::io;

// The disk of a glyph that was worked is worked out once more, since a record has no count. Its number is 0, as run_sheet's contract has
// the lent list.
fn print_glyph(rt: &impl Print, k: usize, text: &[u8], number: u16) -> io::Result<()> {
    if number != 0 {
        return println!(rt; "glyph {k} refused {number}");
    }
    match letter::enclose(text).and_then(Entry::of) {
        Ok(entry) => println!(rt; "glyph {k} {entry}"),
        Err(_) => println!(rt; "glyph {k}"),
    }
}

// The lines of the glyphs, a number each. One that cannot be written is passed over.
fn print_glyphs(rt: &impl Print, sheet: &[u8], numbers: &[u16])
    requires { (length numbers.now ≤ 65535) × (2 + 4 * length numbers.now ≤ length sheet.now) }
{
    for (k, number) in numbers.iter().enumerate() {
        let _ = print_glyph(rt, k, sheet::part_at(sheet, k), *number);
    }
}

// The lines of the glyphs of a sheet that was run.
#[tactic(auto, using(directory::proofs::Rows::count_known))]
fn print_run(rt: &impl Print, sheet: &[u8], numbers: &[u16]) {
    if let Ok(count) = directory::count_glyphs(sheet)
        && let Some(listed) = numbers.get(..count)
    {
        print_glyphs(rt, sheet, listed);
    }
}

fn run(
    rt: &impl Print,
    sheet: &[u8],
    allowance: u64,
    buffer: &mut [u8],
    numbers: &mut [u16],
) -> io::Result<()> {
    match sheet_run::run_sheet(sheet, allowance, buffer, numbers) {
        Ok(ran) => {
            print_run(rt, sheet, numbers);
            println!(rt; "worked {} left {}", ran.worked, ran.left)
        }
        Err(refusal) => println!(rt; "{refusal}"),
    }
}

// Room for the records of 16,383 glyphs, as many as a sheet can have. A function of its own: where so long an array is made and lent in one, the
// check runs out of stack.
fn room() -> [u8; 868299] {
    [0u8; 868299]
}

pub fn print_sheet(rt: &impl Print, sheet: &[u8], allowance: u64) -> io::Result<()> {
    let mut buffer = room();
    let mut numbers = [0u16; 16383];
    run(rt, sheet, allowance, &mut buffer, &mut numbers)
}
