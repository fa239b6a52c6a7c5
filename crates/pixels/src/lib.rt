// Whole pixels (request #101): the pixel edges of a box, from its layout and the area's offset. 1.0 of a layout is one pixel.
#![tactic(auto)]

ghost use Rattle.std.specs.Prelude.{◌≡◌, ◌≤◌, nat_abs};
ghost use Rattle.pixels.specs.Accepted.{signed, accepted, in_eighths};
ghost use Rattle.pixels.specs.Pixels.{floor, pixel_of, line_of, all_accepted, pixel_edges};

use geometry::{Line, Point, Rect, Size};
use refusal::Refusal;
use tree::layout::Layout;
use util::eighths;
use util::eighths::Count;

pub mod lent;

// Whether a number is a whole eighth and at most 9,999,999 eighths in size.
#[tactic(auto, unfolding(crate::specs::Accepted::accepted))]
pub fn is_accepted(x: f32) -> bool
    ensures { result ≡ accepted x }
{
    eighths::to_eighths(x).is_some()
}

// The integer of a count.
// Its bound is a clause, here and where counts are added (`reach`): a type would need another one after each sum, and no const argument is worked out.
fn integer(count: Count) -> i64
    requires { count.size ≤ 9999999 }
    ensures { result ≡ signed count.negative count.size }
{
    let size = count.size as i64;
    if count.negative { -size } else { size }
}

// A number in eighths: 0 where it isn't accepted, as the law `ElseZero` has it. Who adds these has tested them all before (`are_accepted`), and
// would open an `Option` at each sum.
#[tactic(auto, using(util::proofs::Laws::count_is_small), unfolding(crate::specs::Accepted::in_eighths))]
pub fn in_eighths(x: f32) -> i64
    ensures value { result ≡ in_eighths x }
    ensures small { nat_abs result ≤ 9999999 }
{
    match eighths::to_eighths(x) {
        None => 0,
        Some(count) => integer(count),
    }
}

// The floor of m / 8. `/` rounds toward zero, so a negative m, which is -(k + 1), goes by its k. It is written out, and is no `div_euclid`, since
// docs/DECISIONS.md requires that form ("Forms of document 01").
pub fn floor8(m: i64) -> i64
    ensures { result ≡ floor m 8 }
{
    if m >= 0 { m / 8 } else { -1 - (-1 - m) / 8 }
}

// The pixel edge of a position of n eighths: the nearest, and of two the one to the right or further down.
#[tactic(auto, unfolding(crate::specs::Pixels::pixel_of))]
fn pixel(n: i64) -> i32
    requires { nat_abs n ≤ 29999997 }
    ensures { result ≡ pixel_of n }
{
    floor8(n + 4) as i32
}

// The two pixel edges along one axis. Both are sums in eighths; no size is rounded by itself.
#[tactic(auto, unfolding(crate::specs::Pixels::line_of))]
fn line(at: f32, size: f32, offset: f32) -> Line<i32>
    ensures { result ≡ line_of at size offset }
{
    let start = in_eighths(at) - in_eighths(offset);
    let end = start + in_eighths(size);
    Line {
        start: pixel(start),
        end: pixel(end),
    }
}

// Whether all numbers are accepted.
pub fn are_accepted(numbers: &[f32]) -> bool
    ensures { result ≡ all_accepted numbers.now }
{
    numbers.iter().all(|x| is_accepted(*x))
}

// The pixel edges of a box that stands as `layout` says, its location including the area's offset, as a run writes it. They are counted
// from the area's left and top edge, each within 3,750,000 of it. The box covers the pixels from `left` up to but not including `right`,
// and so from `top` to `bottom`: none where these are equal, or turned round by a negative size. Refused, with 9, where x, y, width,
// height or a coordinate of the offset is a NaN, an infinity, no whole eighth, or above 9,999,999 eighths in size. Inlined, so that neither
// layout nor edges go over the stack.
#[inline(always)]
#[tactic(auto, unfolding(crate::specs::Pixels::pixel_edges, crate::specs::Pixels::edges_of))]
pub fn pixel_edges(layout: Layout, offset: Point<f32>) -> Result<Rect<i32>, Refusal>
    ensures { result ≡ pixel_edges layout offset }
{
    let Layout { location, size, .. } = layout;
    if !are_accepted(&[
        location.x,
        location.y,
        size.width,
        size.height,
        offset.x,
        offset.y,
    ]) {
        return Err(Refusal::NotInEighths);
    }
    // a line for each axis: `Size` has its fields by other names than `Point`
    let x = line(location.x, size.width, offset.x);
    let y = line(location.y, size.height, offset.y);
    Ok(Rect::from_components(x, y))
}
