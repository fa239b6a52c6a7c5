// compute/common/scrollable_overflow.rs: what a box adds to its parent's scrollable overflow.
#![tactic(auto, unfolding(crate::specs::ScrollableOverflow::propagates, crate::specs::ScrollableOverflow::reach, crate::specs::ScrollableOverflow::placed_at, crate::specs::ScrollableOverflow::contribution))]

ghost use Rattle.std.specs.Prelude.{◌≡◌, ◌&&◌, ◌||◌};
ghost use Rattle.std.specs.Float.Ieee.{le};
ghost use Rattle.util.specs.Number.{0f};
ghost use Rattle.oof_common.specs.ScrollableOverflow.{propagates, reach, placed_at, contribution};

use geometry::{Line, Point, Rect, Size};
use style::{Contain, Overflow};
use util::sys;

// Whether the box's own overflow shows in an axis.
fn propagates(axis: Overflow, overflow: Point<Overflow>, contain: Contain) -> bool
    ensures { result ≡ propagates axis overflow contain }
{
    !style::any_scroll_container(overflow)
        && !contain.contains_scrollable_overflow()
        && axis == Overflow::Visible
}

// How far the box reaches in one axis, from its own start edge: `own` is its overflow there.
fn reach(shows: bool, size: f32, own: Line<f32>) -> Line<f32>
    ensures { result ≡ reach shows size own }
{
    if shows {
        Line {
            start: sys::f32_min(0.0, own.start),
            end: sys::f32_max(size, own.end),
        }
    } else {
        Line {
            start: 0.0,
            end: size,
        }
    }
}

// A line that counts from a box's edge, from where that edge stands.
// Not `translate`: the Rust has the sum in this order.
fn placed_at(at: f32, line: Line<f32>) -> Line<f32>
    ensures { result ≡ placed_at at line }
{
    line.map(|end| at + end)
}

// Whether one of two edges is at most 0.
fn either_at_most_zero(a: f32, b: f32) -> bool
    ensures { result ≡ (le a 0f || le b 0f) }
{
    a <= 0.0 || b <= 0.0
}

// Whether a parent that scrolls can't reach the box: it stands wholly before the scroll origin.
fn is_unreachable(scrolls: bool, x: Line<f32>, y: Line<f32>) -> bool
    ensures { result ≡ (scrolls && (le x.end 0f || le y.end 0f)) }
{
    scrolls && either_at_most_zero(x.end, y.end)
}

// `location` and `own` count from the scroll origin and from the box's start edge. A box with nothing to show adds nothing,
// nor does one wholly before the scroll origin of a parent that scrolls.
// A line for each axis: each reads a point, a size, two sides and an overflow, which have no zip.
pub fn compute_scrollable_overflow_contribution(
    location: Point<f32>,
    size: Size<f32>,
    own: Rect<f32>,
    overflow: Point<Overflow>,
    contain: Contain,
    scrolls: bool,
) -> Rect<f32>
    ensures { result ≡ contribution location size own overflow contain scrolls }
{
    let reach_x = reach(
        propagates(overflow.x, overflow, contain),
        size.width,
        own.horizontal_components(),
    );
    let reach_y = reach(
        propagates(overflow.y, overflow, contain),
        size.height,
        own.vertical_components(),
    );
    if either_at_most_zero(reach_x.end, reach_y.end) {
        return Rect::ZERO;
    }
    let x = placed_at(location.x, reach_x);
    let y = placed_at(location.y, reach_y);
    if is_unreachable(scrolls, x, y) {
        return Rect::ZERO;
    }
    Rect::from_components(x, y)
}
