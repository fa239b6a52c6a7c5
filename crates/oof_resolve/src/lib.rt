// compute/oof.rs, the first part of `layout_oof_box`: what is known of a box before the host is asked (document 01, "One box",
// steps 1 to 3).
#![tactic(auto, unfolding(style::specs::Values::definite_spaces, style::specs::Values::clamped_spaces, geometry::specs::Geometry::clamped_size, geometry::specs::Geometry::sums, style::specs::Resolve::resolved_rect, crate::specs::Resolved::of_width, crate::specs::Resolved::of_each_axis, crate::specs::Resolved::less_offset, crate::specs::Resolved::horizontal, crate::specs::Resolved::vertical, crate::specs::Resolved::padding_or_border, crate::specs::Resolved::style_size, crate::specs::Resolved::min_size, crate::specs::Resolved::less_margins, crate::specs::Resolved::space_for, crate::specs::Resolved::resolved_box))]

ghost use Rattle.std.specs.Prelude.{◌≡◌};
ghost use Rattle.oof_resolve.specs.Resolved.{of_width, of_each_axis, less_offset, horizontal, vertical, padding_or_border, style_size, min_size, less_margins, space_for, resolved_box};

use geometry::{Point, Rect, Size};
use oof_axis::{OofAlignment, OofAxis};
use style::available_space::AvailableSpace;
use style::compact_length::CompactLength;
use style::resolve::Field;
use style::{BoxSizing, Direction, Overflow, Style, resolve};
use tree::layout::{AxisStaticPosition, OofCandidate, OofPositioningArea};
use util::sys;

// What boxes are placed in: the area, and the containing block's direction and overflow.
#[derive(Clone, Copy, Default)]
pub struct ContainingBlock {
    pub area: OofPositioningArea,
    pub direction: Direction,
    pub overflow: Point<Overflow>,
}

// A box before the host is asked. `size`, `min` and `max` are border-box sizes, size clamped and min raised to padding plus border; `fit` is the Rust's
// stretch_fit_size, `space` the available space.
#[derive(Clone, Copy)]
pub struct ResolvedBox {
    pub horizontal: OofAxis,
    pub vertical: OofAxis,
    pub padding: Rect<f32>,
    pub border: Rect<f32>,
    pub size: Size<Option<f32>>,
    pub min: Size<Option<f32>>,
    pub max: Size<Option<f32>>,
    pub fit: Size<f32>,
    pub space: Size<AvailableSpace>,
}

// ---- step 1

// Margins, padding and border: percentages of the area's width, for top and bottom too.
fn of_width(field: Field, sides: Rect<CompactLength>, area: Size<f32>) -> Rect<Option<f32>>
    ensures { result ≡ of_width field sides area }
{
    sides.map(|length| resolve::maybe_resolve(field, length, area.width))
}

// Insets: percentages of the area's width for left and right, of its height for top and bottom.
fn of_each_axis(sides: Rect<CompactLength>, area: Size<f32>) -> Rect<Option<f32>>
    ensures { result ≡ of_each_axis sides area }
{
    resolve::maybe_resolve_rect(Field::InsetOrMargin, sides, area)
}

// The static position, counted from the area's edge.
fn less_offset(place: AxisStaticPosition, offset: f32) -> AxisStaticPosition
    ensures { result ≡ less_offset place offset }
{
    AxisStaticPosition {
        area: place.area.relative_to(offset),
        ..place
    }
}

// Each axis has its function: they differ in what almost every line reads, and one of both would be given all of that.
fn horizontal_axis(container: &ContainingBlock, style: &Style, candidate: &OofCandidate) -> OofAxis
    ensures { result ≡ horizontal container.now style.now candidate.now }
{
    let area = container.area;
    let justify = style
        .justify
        .resolve_self_relative(style.direction, container.direction, true);
    OofAxis {
        size: area.size.width,
        inset: of_each_axis(style.inset, area.size).horizontal_components(),
        margin: of_width(Field::InsetOrMargin, style.margin, area.size).horizontal_components(),
        place: less_offset(candidate.place.x, area.offset.x),
        alignment: OofAlignment::from_resolved(justify),
        safety: justify.safety,
        inline: true,
        reversed: container.direction.is_rtl(),
        scrolls: container.overflow.x.is_scroll_container(),
    }
}

fn vertical_axis(container: &ContainingBlock, style: &Style, candidate: &OofCandidate) -> OofAxis
    ensures { result ≡ vertical container.now style.now candidate.now }
{
    let area = container.area;
    let align = style
        .align
        .resolve_self_relative(style.direction, container.direction, false);
    OofAxis {
        size: area.size.height,
        inset: of_each_axis(style.inset, area.size).vertical_components(),
        margin: of_width(Field::InsetOrMargin, style.margin, area.size).vertical_components(),
        place: less_offset(candidate.place.y, area.offset.y),
        alignment: OofAlignment::from_resolved(align),
        safety: align.safety,
        inline: false,
        reversed: false,
        scrolls: container.overflow.y.is_scroll_container(),
    }
}

// ---- step 2

// Padding or border.
fn padding_or_border(sides: Rect<CompactLength>, area: Size<f32>) -> Rect<f32>
    ensures { result ≡ padding_or_border sides area }
{
    of_width(Field::PaddingOrBorder, sides, area).unwrap_or_zero()
}

// A size, min or max of the style: the ratio gives a lone side its other, and content-box adds padding plus border.
fn style_size(
    field: Field,
    lengths: Size<CompactLength>,
    style: &Style,
    area: Size<f32>,
    edges: Size<f32>,
) -> Size<Option<f32>>
    ensures { result ≡ style_size field lengths style.now area edges }
{
    let size = resolve::maybe_resolve_size(field, lengths, area).maybe_apply_aspect_ratio(
        style.ratio,
    );
    if style.sizing == BoxSizing::ContentBox {
        size.maybe_add(edges)
    } else {
        size.maybe_add(Size::ZERO)
    }
}

// Min is raised to padding plus border, or is that sum where absent.
fn min_size(style: &Style, area: Size<f32>, edges: Size<f32>) -> Size<Option<f32>>
    ensures { result ≡ min_size style.now area edges }
{
    style_size(Field::MinOrMax, style.min, style, area, edges)
        .or(edges.some())
        .maybe_max(edges)
}

// ---- step 3

// The area less margins, at least 0.
fn less_margins(area: Size<f32>, margin: Rect<f32>) -> Size<f32>
    ensures { result ≡ less_margins area margin }
{
    area.zip_map(
        margin.sum_axes(),
        |side, margins| sys::f32_max(side - margins, 0.0),
    )
}

// The stretch-fit size; for a table at most the area less the margins that aren't auto.
fn space_for(style: &Style, area: Size<f32>, fit: Size<f32>) -> Size<f32>
    ensures { result ≡ space_for style.now area fit }
{
    if style.table {
        let margin = of_width(Field::InsetOrMargin, style.margin, area).unwrap_or_zero();
        fit.f32_min(less_margins(area, margin))
    } else {
        fit
    }
}

// ---- steps 1 to 3

// Block, style and candidate stay three parameters, here and above, and in all that takes them in `oof_place` and `oof_box`: the mirror image
// changes each by its own rule, so the theorems speak of each, and a contract over a struct of them would be longer.
pub fn resolve_box(
    container: &ContainingBlock,
    style: &Style,
    candidate: &OofCandidate,
) -> ResolvedBox
    ensures { result ≡ resolved_box container.now style.now candidate.now }
{
    let area = container.area.size;
    let horizontal = horizontal_axis(container, style, candidate);
    let vertical = vertical_axis(container, style, candidate);
    let padding = padding_or_border(style.padding, area);
    let border = padding_or_border(style.border, area);
    let edges = (padding + border).sum_axes();
    let min = min_size(style, area, edges);
    let max = style_size(Field::MinOrMax, style.max, style, area, edges);
    let size = style_size(Field::Size, style.size, style, area, edges);
    // two axes, not a size of them: the records and the theorems name each
    let fit = Size {
        width: horizontal.stretch_fit_size(),
        height: vertical.stretch_fit_size(),
    };
    let space = space_for(style, area, fit).map(|side| AvailableSpace::Definite(side));
    ResolvedBox {
        horizontal,
        vertical,
        padding,
        border,
        size: size.maybe_clamp(min, max),
        min,
        max,
        fit,
        space: space.maybe_clamp(min, max),
    }
}
