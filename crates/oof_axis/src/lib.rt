// compute/oof.rs: the absolute positioning layout model in one axis.
#![tactic(auto, unfolding(crate::specs::Axis::from_resolved, crate::specs::Axis::align_in, crate::specs::Axis::centered_block, crate::specs::Axis::static_block, crate::specs::Axis::inset_block, crate::specs::Axis::start_is_weaker, crate::specs::Axis::repaired, crate::specs::Axis::block, crate::specs::Axis::both_insets, crate::specs::Axis::stretch_fit, crate::specs::Axis::stretching, crate::specs::Axis::stretches, crate::specs::Axis::is_stretch, crate::specs::Axis::halves, crate::specs::Axis::filled_margins, crate::specs::Axis::margins, crate::specs::Axis::is_normal, crate::specs::Axis::align_edge, crate::specs::Axis::limit, crate::specs::Axis::kept_within, crate::specs::Axis::self_aligned, crate::specs::Axis::static_aligned, crate::specs::Axis::position_in, crate::specs::Axis::position, crate::specs::Axis::placement, crate::specs::StaticOffset::offset_edge, crate::specs::StaticOffset::axis_offset, crate::specs::StaticOffset::static_offset))]

ghost use Rattle.std.specs.Prelude.{◌≡◌, not, ◌&&◌};
ghost use Rattle.std.specs.Float.Ieee.{lt};
ghost use Rattle.util.specs.Number.{0f};
ghost use Rattle.geometry.specs.Geometry.{span};
ghost use Rattle.tree.specs.Static.{start_edge, end_edge};
ghost use Rattle.oof_axis.specs.Axis.{from_resolved, align_in, centered_block, static_block, inset_block, start_is_weaker, repaired, block, both_insets, stretch_fit, stretching, stretches, is_stretch, halves, filled_margins, margins, align_edge, limit, kept_within, self_aligned, static_aligned, position, placement};
ghost use Rattle.oof_axis.specs.StaticOffset.{offset_edge, axis_offset, static_offset};

use geometry::{Line, Point, Rect, Size};
use style::alignment::{AlignItems, AlignItemsKeyword, AlignmentSafety};
use tree::layout::{AxisStaticEdge, AxisStaticPosition};
use util::sys;

// Self-alignment by the containing block's own start and end.
#[derive(Clone, Copy, PartialEq, Eq)]
pub enum OofAlignment {
    Normal,
    Stretch,
    Start,
    Center,
    End,
}

// One axis, by value. Positions count from the area's left or top edge. `size`, `place`, `inline` and `scrolls` are the
// Rust's cb_size, static_position, is_inline and is_scroll_axis; `reversed`: start is the right edge.
#[derive(Clone, Copy, PartialEq)]
pub struct OofAxis {
    pub size: f32,
    pub inset: Line<Option<f32>>,
    pub margin: Line<Option<f32>>,
    pub place: AxisStaticPosition,
    pub alignment: OofAlignment,
    pub safety: AlignmentSafety,
    pub inline: bool,
    pub reversed: bool,
    pub scrolls: bool,
}

// What a final size leads to in one axis: where the border box begins, and the margins used.
#[derive(Clone, Copy, PartialEq)]
pub struct AxisPlacement {
    pub position: f32,
    pub margin: Line<f32>,
}

// ---- static offsets

// Where the border box of a size stands by its static position alone, given its margins.
// A line for each axis: a point, a size and a rectangle have no zip of three.
pub fn resolve_static_offset(
    place: Point<AxisStaticPosition>,
    size: Size<f32>,
    margin: Rect<f32>,
) -> Point<f32>
    ensures { result ≡ static_offset place size margin }
{
    Point {
        x: resolve_static_offset_axis(place.x, size.width, margin.horizontal_components()),
        y: resolve_static_offset_axis(place.y, size.height, margin.vertical_components()),
    }
}

fn resolve_static_offset_axis(place: AxisStaticPosition, size: f32, margin: Line<f32>) -> f32
    ensures { result ≡ axis_offset place size margin }
{
    let outer = size + margin.start + margin.end;
    align_in_line(place.area, outer, offset_edge(place, outer)) + margin.start
}

// The edge to align to: the fallback where the alignment is safe and the margin box overflows the static area.
fn offset_edge(place: AxisStaticPosition, outer: f32) -> AxisStaticEdge
    ensures { result ≡ offset_edge place.align.safety place outer }
{
    match place.align.safety {
        AlignmentSafety::Safe if outer > place.area.end - place.area.start => place.align.fallback,
        _ => place.align.keyword,
    }
}

// Where a box of a size begins that is aligned to an edge of its container.
pub fn align_in_line(container: Line<f32>, size: f32, edge: AxisStaticEdge) -> f32
    ensures { result ≡ align_in container size edge }
{
    match edge {
        AxisStaticEdge::Start => container.start,
        AxisStaticEdge::End => container.end - size,
        AxisStaticEdge::Center => (container.start + container.end - size) / 2.0,
    }
}

// ---- alignment

impl OofAlignment {
    // Of an alignment whose self-start and self-end are already resolved; an unresolved one counts as start or end.
    // The Rust's name: `from` wouldn't say that they must be.
    pub fn from_resolved(alignment: AlignItems) -> OofAlignment
        ensures { result ≡ from_resolved alignment.keyword }
    {
        match alignment.keyword {
            AlignItemsKeyword::Normal => OofAlignment::Normal,
            AlignItemsKeyword::Stretch => OofAlignment::Stretch,
            AlignItemsKeyword::Center => OofAlignment::Center,
            AlignItemsKeyword::End | AlignItemsKeyword::FlexEnd | AlignItemsKeyword::SelfEnd => {
                OofAlignment::End
            }
            AlignItemsKeyword::Start
            | AlignItemsKeyword::FlexStart
            | AlignItemsKeyword::SelfStart
            | AlignItemsKeyword::Baseline => OofAlignment::Start,
        }
    }

    // The edge of the block that the margin box is aligned to.
    pub fn physical_edge(self, axis: OofAxis) -> AxisStaticEdge
        ensures { result ≡ align_edge self axis }
    {
        match self {
            OofAlignment::Normal | OofAlignment::Stretch | OofAlignment::Start => axis.start_edge(),
            OofAlignment::Center => AxisStaticEdge::Center,
            OofAlignment::End => axis.end_edge(),
        }
    }

    // Whether it stretches an auto size; `plain`: the box is neither replaced nor a table.
    pub fn stretches(self, plain: bool) -> bool
        ensures { result ≡ stretching self plain }
    {
        match self {
            OofAlignment::Normal => plain,
            OofAlignment::Stretch => true,
            OofAlignment::Start | OofAlignment::Center | OofAlignment::End => false,
        }
    }
}

// ---- the inset-modified containing block

// The block around a static center, up to the nearer edge of the area.
fn centered_block(center: f32, size: f32) -> Line<f32>
    ensures { result ≡ centered_block center size }
{
    let rest = size - center;
    if sys::abs(center) <= sys::abs(rest) {
        Line {
            start: 0.0,
            end: 2.0 * center,
        }
    } else {
        Line {
            start: size - 2.0 * rest,
            end: size,
        }
    }
}

// The block of a box without insets.
fn static_block(edge: AxisStaticEdge, area: Line<f32>, size: f32) -> Line<f32>
    ensures { result ≡ static_block edge area size }
{
    match edge {
        AxisStaticEdge::Start => Line {
            start: area.start,
            end: size,
        },
        AxisStaticEdge::Center => centered_block((area.start + area.end) / 2.0, size),
        AxisStaticEdge::End => Line {
            start: 0.0,
            end: area.end,
        },
    }
}

// An end below its start: the weaker edge moves to the other.
fn repaired(startweaker: bool, raw: Line<f32>) -> Line<f32>
    ensures { result ≡ repaired startweaker raw }
{
    if raw.end < raw.start {
        let edge = if startweaker { raw.end } else { raw.start };
        Line {
            start: edge,
            end: edge,
        }
    } else {
        raw
    }
}

impl OofAxis {
    // The containing block's start, as an edge of the axis.
    pub fn start_edge(self) -> AxisStaticEdge
        ensures { result ≡ start_edge self.reversed }
    {
        AxisStaticEdge::start(self.reversed)
    }

    // The containing block's end, as an edge of the axis.
    pub fn end_edge(self) -> AxisStaticEdge
        ensures { result ≡ end_edge self.reversed }
    {
        AxisStaticEdge::end(self.reversed)
    }

    // The block as the insets say, its end perhaps below its start.
    fn inset_block(self) -> Line<f32>
        ensures { result ≡ inset_block self.inset.start self.inset.end self }
    {
        match (self.inset.start, self.inset.end) {
            (Some(start), Some(end)) => Line {
                start,
                end: self.size - end,
            },
            (Some(start), None) => Line {
                start,
                end: self.size,
            },
            (None, Some(end)) => Line {
                start: 0.0,
                end: self.size - end,
            },
            (None, None) => static_block(self.place.align.keyword, self.place.area, self.size),
        }
    }

    // Whether the start edge is the one that gives way where the end is below the start.
    fn start_is_weaker(self) -> bool
        ensures { result ≡ start_is_weaker self.inset.start self.inset.end self }
    {
        match (self.inset.start, self.inset.end) {
            (Some(_), None) => false,
            (None, Some(_)) => true,
            (Some(_), Some(_)) | (None, None) => self.reversed,
        }
    }

    // The inset-modified containing block.
    #[inline(always)]
    pub fn inset_modified_containing_block(self) -> Line<f32>
        ensures { result ≡ block self }
    {
        repaired(self.start_is_weaker(), self.inset_block())
    }

    // Its size: the space for the margin box.
    #[inline(always)]
    pub fn inset_modified_containing_block_size(self) -> f32
        ensures { result ≡ span (block self) }
    {
        let imcb = self.inset_modified_containing_block();
        imcb.end - imcb.start
    }

    // ---- sizes

    pub fn both_insets(self) -> bool
        ensures { result ≡ both_insets self }
    {
        self.inset.both_ends_defined()
    }

    // The size of a border box that fills the block, but for the margins that aren't auto.
    #[inline(always)]
    pub fn stretch_fit_size(self) -> f32
        ensures { result ≡ stretch_fit self }
    {
        let margins = self.margin.start.unwrap_or(0.0) + self.margin.end.unwrap_or(0.0);
        sys::f32_max(self.inset_modified_containing_block_size() - margins, 0.0)
    }

    // Whether an auto size is the stretch-fit size.
    pub fn is_stretch_sized(self, replaced: bool, table: bool) -> bool
        ensures { result ≡ stretches self (not replaced && not table) }
    {
        self.both_insets() && self.alignment.stretches(!replaced && !table)
    }

    // Whether the alignment is an explicit stretch.
    pub fn is_stretch(self) -> bool
        ensures { result ≡ is_stretch self }
    {
        self.alignment == OofAlignment::Stretch
    }

    // ---- margins

    // Whether free space is negative in the inline axis.
    fn overflows_inline(self, free: f32) -> bool
        ensures { result ≡ lt free 0f && self.inline }
    {
        free < 0.0 && self.inline
    }

    // Two auto margins.
    fn halves(self, free: f32) -> Line<f32>
        ensures { result ≡ halves free self }
    {
        if !self.overflows_inline(free) {
            Line {
                start: free / 2.0,
                end: free / 2.0,
            }
        } else if self.reversed {
            Line {
                start: free,
                end: 0.0,
            }
        } else {
            Line {
                start: 0.0,
                end: free,
            }
        }
    }

    // The margins where both insets are given.
    fn filled_margins(self, free: f32) -> Line<f32>
        ensures { result ≡ filled_margins self.margin.start self.margin.end free self }
    {
        match (self.margin.start, self.margin.end) {
            (Some(start), Some(end)) => Line { start, end },
            (Some(start), None) => Line {
                start,
                end: free - start,
            },
            (None, Some(end)) => Line {
                start: free - end,
                end,
            },
            (None, None) => self.halves(free),
        }
    }

    // The margins of a box of a final size.
    #[inline(always)]
    pub fn resolve_margins(self, size: f32) -> Line<f32>
        ensures { result ≡ margins self size }
    {
        if self.both_insets() {
            self.filled_margins(self.inset_modified_containing_block_size() - size)
        } else {
            self.margin.map(|margin| margin.unwrap_or(0.0))
        }
    }

    // ---- position

    // The overflow limit.
    #[tactic(auto, using(crate::proofs::Infinity::plus_inf, crate::proofs::Infinity::minus_inf), unfolding(crate::specs::Axis::limit))]
    fn overflow_limit(self, imcb: Line<f32>) -> Line<f32>
        ensures { result ≡ limit self imcb }
    {
        let start = sys::f32_min(imcb.start, 0.0);
        let end = sys::f32_max(imcb.end, self.size);
        match (self.scrolls, self.reversed) {
            (false, _) => Line { start, end },
            (true, false) => Line {
                start,
                end: f32::INFINITY,
            },
            (true, true) => Line {
                start: f32::NEG_INFINITY,
                end,
            },
        }
    }

    // The start of a margin box that doesn't fit the block, kept within the limit.
    // Block and margin box's size are parameters, here and below: `position` works both out once, and a struct of them would have no other use.
    fn kept_within(self, limit: Line<f32>, imcb: Line<f32>, outer: f32, edge: AxisStaticEdge) -> f32
        ensures { result ≡ kept_within limit self imcb outer edge }
    {
        if outer <= limit.end - limit.start {
            let start = align_in_line(imcb, outer, edge);
            sys::f32_max(sys::f32_min(start, limit.end - outer), limit.start)
        } else {
            align_in_line(limit, outer, self.start_edge())
        }
    }

    // The start of the margin box where both insets are given.
    #[inline(always)]
    fn self_aligned(self, imcb: Line<f32>, outer: f32, edge: AxisStaticEdge) -> f32
        ensures { result ≡ self_aligned self.safety self imcb outer edge }
    {
        let size = imcb.end - imcb.start;
        match self.safety {
            AlignmentSafety::Unsafe => align_in_line(imcb, outer, edge),
            AlignmentSafety::Safe if outer > size => {
                align_in_line(imcb, outer, self.start_edge())
            }
            AlignmentSafety::Safe => align_in_line(imcb, outer, edge),
            AlignmentSafety::Default => {
                if outer <= size || self.alignment == OofAlignment::Normal {
                    align_in_line(imcb, outer, edge)
                } else {
                    self.kept_within(self.overflow_limit(imcb), imcb, outer, edge)
                }
            }
        }
    }

    // The start of the margin box where no inset is given.
    fn static_aligned(self, imcb: Line<f32>, outer: f32) -> f32
        ensures { result ≡ static_aligned self.place.align.safety self imcb outer }
    {
        match self.place.align.safety {
            AlignmentSafety::Safe if outer > imcb.end - imcb.start => {
                align_in_line(imcb, outer, self.start_edge())
            }
            _ => align_in_line(self.place.area, outer, self.place.align.keyword),
        }
    }

    // Where the border box of a final size begins.
    #[inline(always)]
    pub fn position(self, size: f32, margin: Line<f32>) -> f32
        ensures { result ≡ position self size margin }
    {
        let imcb = self.inset_modified_containing_block();
        let outer = size + margin.start + margin.end;
        match (self.inset.start, self.inset.end) {
            (None, None) => self.static_aligned(imcb, outer) + margin.start,
            (None, Some(_)) => imcb.end - size - margin.end,
            (Some(_), Some(_)) if self.margin.both_ends_defined() => {
                let edge = self.alignment.physical_edge(self);
                self.self_aligned(imcb, outer, edge) + margin.start
            }
            (Some(_), _) => imcb.start + margin.start,
        }
    }

    // Position after margins.
    #[inline(always)]
    pub fn placement(self, size: f32) -> AxisPlacement
        ensures { result ≡ placement self size }
    {
        let margin = self.resolve_margins(size);
        AxisPlacement {
            position: self.position(size, margin),
            margin,
        }
    }
}
