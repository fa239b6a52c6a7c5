// Floats as whole counts of eighths, by sign and size.
ghost use Rattle.std.specs.Prelude.{◌≡◌, ◌≤◌, IfSome};
ghost use Rattle.util.specs.Eighths.{eighths, float_of_count, count_of};

use crate::sys;
use std::num::saturating_f32_to_u64;

// The largest size of a count.
pub const LARGEST: u64 = 9_999_999;

// A whole count of eighths, by its sign and its size.
#[derive(Clone, Copy, PartialEq, Eq)]
pub struct Count {
    pub negative: bool,
    pub size: u64,
}

// The float of a count. Zero has no sign.
// That it is at most 9,999,999 is a clause, here, in `to_eighths` and in `pixels::integer`, and no invariant of `Count`: one read from a field may be
// larger, of which `from_eighths` gives none.
#[tactic(auto, using(crate::proofs::Count::none_is, crate::proofs::Count::minus_is, crate::proofs::Count::plus_is))]
fn exact(count: Count) -> f32
    requires { count.size ≤ 9999999 }
    ensures { result ≡ eighths count.negative count.size }
{
    let x = count.size as f32;
    if count.negative && count.size != 0 {
        -x / 8.0
    } else {
        x / 8.0
    }
}

// The float of a count of eighths, or none for a size above 9,999,999.
pub fn from_eighths(count: Count) -> Option<f32>
    ensures { result ≡ float_of_count count.negative count.size }
{
    if count.size <= LARGEST {
        Some(exact(count))
    } else {
        None
    }
}

// How many eighths a float is, if they are a whole count of size 9,999,999 at most; no zero is negative. The count is guessed, and tried.
#[tactic(auto, using(crate::proofs::Count::sound, crate::proofs::Count::uncounted_large, crate::proofs::Count::uncounted_part))]
pub fn to_eighths(x: f32) -> Option<Count>
    ensures value { result ≡ count_of x }
    ensures small { IfSome result (λ c. c.size ≤ 9999999) }
{
    let count = Count {
        negative: x < 0.0,
        size: saturating_f32_to_u64(sys::abs(x) * 8.0),
    };
    if count.size <= LARGEST && exact(count) == x {
        return Some(count);
    }
    None
}
