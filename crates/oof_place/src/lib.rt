// compute/oof.rs, the last part of `layout_oof_box`: the layout of a box whose size is final, and what it adds to the container's
// scrollable overflow (document 01, "One box", step 7).
#![tactic(auto, unfolding(crate::specs::Placing::scrollbar_of, crate::specs::Placing::layout_of, crate::specs::Placing::from_origin, crate::specs::Placing::box_layout))]

ghost use Rattle.std.specs.Prelude.{◌≡◌};
ghost use Rattle.oof_place.specs.Placing.{scrollbar_of, layout_of, from_origin, box_layout};

use geometry::{Point, Rect, Size};
use oof_common::scrollable_overflow;
use oof_resolve::{ContainingBlock, ResolvedBox};
use style::{Overflow, Style};
use tree::layout::{Layout, OofCandidate};

#[derive(Clone, Copy)]
pub struct OofBoxLayout {
    pub layout: Layout,
    pub contribution: Rect<f32>,
}

// The room of a scrollbar, where there is one.
fn scrollbar_of(overflow: Overflow, width: f32) -> f32
    ensures { result ≡ scrollbar_of overflow width }
{
    if overflow == Overflow::Scroll {
        width
    } else {
        0.0
    }
}

// The bar of a vertical scroll takes width, that of a horizontal one height. The location includes the offset.
// A line for each axis: each reads its own axis of the box, and the scrollbar the other's overflow.
// Six parameters, here and in `place`: a struct of them would be made once, for one call.
fn layout_of(
    container: &ContainingBlock,
    style: &Style,
    candidate: &OofCandidate,
    resolved: &ResolvedBox,
    size: Size<f32>,
    overflow: Rect<f32>,
) -> Layout
    ensures { result ≡ layout_of container.now style.now candidate.now resolved.now size overflow }
{
    let offset = container.area.offset;
    let x = resolved.horizontal.placement(size.width);
    let y = resolved.vertical.placement(size.height);
    Layout {
        order: candidate.order,
        size,
        overflow,
        scrollbar: Size {
            width: scrollbar_of(style.overflow.y, style.scrollbar),
            height: scrollbar_of(style.overflow.x, style.scrollbar),
        },
        location: Point {
            x: x.position + offset.x,
            y: y.position + offset.y,
        },
        padding: resolved.padding,
        border: resolved.border,
        margin: Rect::from_components(x.margin, y.margin),
    }
}

// The location from the scroll origin: the area's top, and its start edge by direction. A line for each axis: x alone is turned round.
fn from_origin(container: &ContainingBlock, location: Point<f32>, size: Size<f32>) -> Point<f32>
    ensures { result ≡ from_origin container.now location size }
{
    let offset = container.area.offset;
    let x = location.x - offset.x;
    let y = location.y - offset.y;
    if container.direction.is_rtl() {
        Point {
            x: container.area.size.width - x - size.width,
            y,
        }
    } else {
        Point { x, y }
    }
}

pub fn place(
    container: &ContainingBlock,
    style: &Style,
    candidate: &OofCandidate,
    resolved: &ResolvedBox,
    size: Size<f32>,
    overflow: Rect<f32>,
) -> OofBoxLayout
    ensures { result ≡ box_layout container.now style.now candidate.now resolved.now size overflow }
{
    let layout = layout_of(container, style, candidate, resolved, size, overflow);
    let contribution = scrollable_overflow::compute_scrollable_overflow_contribution(
        from_origin(container, layout.location, size),
        size,
        overflow,
        style.overflow,
        style.contain,
        style::any_scroll_container(container.overflow),
    );
    OofBoxLayout {
        layout,
        contribution,
    }
}
