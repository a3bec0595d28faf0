// What the sheet listing prints of what a sheet will take (02, item 13): a line a glyph, and one for the whole sheet; or one line where the
// sheet is refused.
use std::io;

// The refusal is 0 where there is none, as estimate_sheet's contract has the lent list.
fn print_glyph(rt: &impl Print, k: usize, points: u16, refusal: u16) -> io::Result<()> {
    if refusal == 0 {
        println!(rt; "glyph {k} points {points}")
    } else {
        println!(rt; "glyph {k} refused {refusal}")
    }
}

// The lines of the glyphs of a sheet that is not refused. One that cannot be written is passed over.
fn print_glyphs(rt: &impl Print, sheet: &[u8], points: &[u16], refusals: &[u16]) {
    let Ok(count) = directory::count_glyphs(sheet) else {
        return;
    };
    for (k, (points, refusal)) in points.iter().zip(refusals).take(count).enumerate() {
        let _ = print_glyph(rt, k, *points, *refusal);
    }
}

fn estimate(
    rt: &impl Print,
    sheet: &[u8],
    points: &mut [u16],
    refusals: &mut [u16],
) -> io::Result<()> {
    match sheet_estimate::estimate_sheet(sheet, points, refusals) {
        Ok(estimate) => {
            print_glyphs(rt, sheet, points, refusals);
            println!(rt; "bytes {} tests {}", estimate.bytes, estimate.tests)
        }
        Err(refusal) => println!(rt; "{refusal}"),
    }
}

pub fn print_sheet(rt: &impl Print, sheet: &[u8]) -> io::Result<()> {
    let mut points = [0u16; 16383];
    let mut refusals = [0u16; 16383];
    estimate(rt, sheet, &mut points, &mut refusals)
}
