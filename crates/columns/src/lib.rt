// The lowest and the highest point of each column of the em box. So the points of a list that can be corners of its convex hull are found in order
// without a sort: at most two for each x.
#![tactic(auto)]

ghost use Rattle.std.specs.Prelude.{◌≡◌, true, [], ℕ, ◌+◌, ◌*◌, ◌/◌, ◌%◌, ◌≤◌, ◌<◌, false, pos, length, get_or};
ghost use Rattle.integers.specs.Order.{◌≺◌};
ghost use Rattle.geometry.specs.EmBox.{all_in_em_box};
ghost use Rattle.geometry.specs.Points.{points};
ghost use Rattle.columns.specs.Columns.{Columns, Seen, Written, column_count, group_count, side_length};

use geometry::Point;

// Columns in groups of 16, enough for every x of the em box; and the numbers of a side: room for a point of each column and one more.
pub const GROUPS: usize = 129;

pub const COLUMNS: usize = 2064;

pub const SIDE_LENGTH: usize = 4130;

// The least and the greatest y of each column of the list, and marks for the groups of columns that have points. Two arrays of numbers: with one of pairs
// the hull of three points took a tenth longer.
pub fn columns(list: &[i16], low: &mut [i16], high: &mut [i16], seen: &mut [bool])
    requires list_len { (length list.now % 2 ≡ 0) × (all_in_em_box (points list.now) ≡ true) }
    requires columns { Columns [] low.old high.old × Seen [] seen.old }
    ensures { Columns (points list.now) low.new high.new × Seen (points list.now) seen.new }
{
    // By index: with the loop over `points` the hull of 4,096 points took up to nine hundredths longer.
    for i in 0..list.len() / 2 {
        let p = geometry::point_at(list, i);
        let x = p.x as usize;
        low[x] = low[x].min(p.y);
        high[x] = high[x].max(p.y);
        seen[x / 16] = true;
    }
}

// Writes the points of column x behind those of the columns before it, if it has any, and returns how many there are then. The two are written
// in any case and counted only if they are points of the list: so there is no branch to guess.
fn put_column(
    low: &[i16],
    high: &[i16],
    x: usize,
    lows: &mut [i16],
    highs: &mut [i16],
    m: usize,
) -> usize
    requires { (x < column_count) × (m ≤ x) × (length low.now ≡ column_count) × (length high.now ≡ column_count) × Written x m low.now high.now lows.old highs.old }
    ensures { (result ≤ x + 1) × Written (x + 1) result low.now high.now lows.new highs.new }
{
    let lo = low[x];
    let hi = high[x];
    point_lists::put_point(lows, m, Point { x: x as i16, y: lo });
    point_lists::put_point(highs, COLUMNS - 1 - m, Point { x: x as i16, y: hi });
    if hi < lo { m } else { m + 1 }
}

// The same for the columns of group g.
fn put_group(
    low: &[i16],
    high: &[i16],
    g: usize,
    lows: &mut [i16],
    highs: &mut [i16],
    m: usize,
) -> usize
    requires { (g < group_count) × (m ≤ 16 * g) × (length low.now ≡ column_count) × (length high.now ≡ column_count)
        × Written (16 * g) m low.now high.now lows.old highs.old }
    ensures { (result ≤ 16 * (g + 1)) × Written (16 * (g + 1)) result low.now high.now lows.new highs.new }
{
    let mut k = m;
    // By index: x is what is written.
    for x in 16 * g..16 * g + 16 {
        k = put_column(low, high, x, lows, highs, k);
    }
    k
}

// Writes the lowest points of all columns to `lows`, rising, and the highest ones to `highs`, falling; returns how many there are of each.
pub fn put_columns(
    low: &[i16],
    high: &[i16],
    seen: &[bool],
    lows: &mut [i16],
    highs: &mut [i16],
) -> usize
    requires size { (length low.now ≡ column_count) × (length high.now ≡ column_count) × (length seen.now ≡ group_count)
        × (length lows.old ≡ side_length) × (length highs.old ≡ side_length) }
    requires unseen { (x : ℕ) → x < column_count → (get_or seen.now (x / 16) false ≡ true → ⊥)
        → get_or high.now x (pos 0) ≺ get_or low.now x (pos 0) }
    ensures { (result ≤ column_count) × Written column_count result low.now high.now lows.new highs.new }
{
    let mut m: usize = 0;
    for (g, seen) in seen.iter().enumerate() {
        if *seen {
            m = put_group(low, high, g, lows, highs, m);
        }
    }
    m
}
