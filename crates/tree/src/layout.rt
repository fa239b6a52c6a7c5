// tree/layout.rs: where an out-of-flow box would stand in normal flow, and where it stands when laid out.
ghost use Rattle.std.specs.Prelude.{◌≡◌};
ghost use Rattle.style.specs.Values.{is_self_relative};
ghost use Rattle.tree.specs.Codes.{edge_of, edge_code};
ghost use Rattle.tree.specs.Static.{start_edge, end_edge, edge_for, fallback_of, from_alignment, shifted_axis, translated};

use geometry::{Line, Point, Rect, Size};
use refusal::Refusal;
use style::Position;
use style::alignment::{AlignItems, AlignItemsKeyword, AlignmentSafety};

// The edge of the static area that the margin box is aligned to. Start is left or top, end is right or bottom.
#[derive(Clone, Copy, PartialEq, Eq)]
pub enum AxisStaticEdge {
    Start,
    Center,
    End,
}

// The code of a record: 0 start, 1 center, 2 end.
impl From<u32> for AxisStaticEdge {
    ghost from_gives = { λ code r. r ≡ edge_of code };

    fn from(code: u32) -> AxisStaticEdge {
        match code {
            0 => AxisStaticEdge::Start,
            1 => AxisStaticEdge::Center,
            _ => AxisStaticEdge::End,
        }
    }
}

// Its code.
impl From<AxisStaticEdge> for u32 {
    ghost from_gives = { λ edge code. code ≡ edge_code edge };

    fn from(edge: AxisStaticEdge) -> u32 {
        edge as u32
    }
}

#[derive(Clone, Copy, PartialEq, Eq)]
pub struct AxisStaticAlign {
    pub keyword: AxisStaticEdge,
    pub safety: AlignmentSafety,
    pub fallback: AxisStaticEdge,
}

// The static position in one axis: an area, and the alignment in it.
#[derive(Clone, Copy, PartialEq)]
pub struct AxisStaticPosition {
    pub area: Line<f32>,
    pub align: AxisStaticAlign,
}

impl AxisStaticEdge {
    // The edge where the axis starts: the right one where it runs from right to left.
    pub fn start(axis_is_rtl: bool) -> AxisStaticEdge
        ensures { result ≡ start_edge axis_is_rtl }
    {
        if axis_is_rtl {
            AxisStaticEdge::End
        } else {
            AxisStaticEdge::Start
        }
    }

    // The edge where it ends.
    pub fn end(axis_is_rtl: bool) -> AxisStaticEdge
        ensures { result ≡ end_edge axis_is_rtl }
    {
        AxisStaticEdge::start(!axis_is_rtl)
    }
}

// The edge that a keyword aligns to. Normal, stretch and whatever is not an end or center alignment align to the start.
fn edge_for(keyword: AlignItemsKeyword, axis_is_rtl: bool) -> AxisStaticEdge
    ensures { result ≡ edge_for keyword axis_is_rtl }
{
    match keyword {
        AlignItemsKeyword::Center => AxisStaticEdge::Center,
        AlignItemsKeyword::End | AlignItemsKeyword::FlexEnd => AxisStaticEdge::end(axis_is_rtl),
        _ => AxisStaticEdge::start(axis_is_rtl),
    }
}

// The keyword to fall back to where the box overflows its area: start if the alignment is safe.
fn fallback_for(keyword: AlignItemsKeyword, safety: AlignmentSafety) -> AlignItemsKeyword
    ensures { result ≡ fallback_of keyword safety }
{
    match safety {
        AlignmentSafety::Default | AlignmentSafety::Unsafe => keyword,
        AlignmentSafety::Safe => AlignItemsKeyword::Start,
    }
}

// Whether a keyword is still to be resolved against the container's direction.
fn is_self_relative(keyword: AlignItemsKeyword) -> bool
    ensures { result ≡ is_self_relative keyword }
{
    matches!(
        keyword,
        AlignItemsKeyword::SelfStart | AlignItemsKeyword::SelfEnd
    )
}

impl AxisStaticPosition {
    // The static position of a box that is aligned within an area by its self-alignment in this axis. Self-start and
    // self-end must have been resolved before (`AlignItems::resolve_self_relative`).
    pub fn from_alignment(
        alignment: AlignItems,
        area: Line<f32>,
        axis_is_rtl: bool,
    ) -> Result<AxisStaticPosition, Refusal>
        ensures { result ≡ from_alignment alignment area axis_is_rtl }
    {
        let AlignItems { keyword, safety } = alignment;
        if is_self_relative(keyword) {
            return Err(Refusal::UnresolvedSide);
        }
        let align = AxisStaticAlign {
            keyword: edge_for(keyword, axis_is_rtl),
            safety,
            fallback: edge_for(fallback_for(keyword, safety), axis_is_rtl),
        };
        Ok(AxisStaticPosition { area, align })
    }

    // The area moved by a distance.
    pub fn translate(self, offset: f32) -> AxisStaticPosition
        ensures { result ≡ shifted_axis self offset }
    {
        AxisStaticPosition {
            area: self.area.translate(offset),
            ..self
        }
    }
}

// An out-of-flow box that waits for its containing block. `place` is the Rust's static_position. The Rust has no layer: boxes of
// higher layers are drawn over those of lower ones (request #104), and placement reads none.
#[derive(Clone, Copy, PartialEq)]
pub struct OofCandidate {
    pub node: u32,
    pub order: u32,
    pub position: Position,
    pub place: Point<AxisStaticPosition>,
    pub layer: u32,
}

impl OofCandidate {
    // The areas moved from a child's border box to its parent's, the child standing at `offset` there.
    // A line for each axis: a zip of points, with its contract, would have two uses of two lines each, this and `from_origin` of oof_place.
    pub fn translate(self, offset: Point<f32>) -> OofCandidate
        ensures { result ≡ translated self offset }
    {
        OofCandidate {
            place: Point {
                x: self.place.x.translate(offset.x),
                y: self.place.y.translate(offset.y),
            },
            ..self
        }
    }
}

// The area that insets are resolved against, by its size and its offset in the containing block's border box.
#[derive(Clone, Copy, PartialEq, Default)]
pub struct OofPositioningArea {
    pub size: Size<f32>,
    pub offset: Point<f32>,
}

// What is known of a box when it is laid out. `overflow` and `scrollbar` are the Rust's scrollable_overflow_rect and
// scrollbar_size.
#[derive(Clone, Copy, PartialEq)]
pub struct Layout {
    pub order: u32,
    pub size: Size<f32>,
    pub overflow: Rect<f32>,
    pub scrollbar: Size<f32>,
    pub location: Point<f32>,
    pub padding: Rect<f32>,
    pub border: Rect<f32>,
    pub margin: Rect<f32>,
}
