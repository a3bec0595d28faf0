// Floats that stand for whole numbers (02, item 2).
#![tactic(auto)]

ghost use Rattle.std.specs.Prelude.{◌≡◌};
ghost use Rattle.std.specs.Float.{float_is_finite};
ghost use Rattle.whole_floats.specs.Near.{near_of, whole_or_11};

// 2^53. From here on every float is a whole number, and lies beyond every em box.
const FAR: i64 = 9_007_199_254_740_992;

const EDGE: f64 = 9_007_199_254_740_992.0;

// By comparisons, each of which fails with a NaN: std's method takes v from itself, which raises the flag of an invalid operation for an infinity.
fn is_finite(v: f64) -> bool
    ensures { result ≡ float_is_finite v }
{
    v < f64::INFINITY && -f64::INFINITY < v
}

// The whole number that v stands for, FAR for one of that size or more; None for a NaN, an infinity, or a float with a fraction.
// Below 2^53 a fraction shows where v's whole part, as a float, is not v.
pub fn whole_number(v: f64) -> Option<i64>
    ensures { whole_or_11 result ≡ near_of v }
{
    if v < EDGE && -EDGE < v {
        let whole = std::num::truncating_f64_to_i64(v);
        return ((whole as f64) == v).then_some(whole);
    }
    is_finite(v).then_some(FAR)
}
