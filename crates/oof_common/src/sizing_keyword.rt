// compute/common/sizing_keyword.rs: min-content, max-content, fit-content, fit-content(..) and stretch as a width or height.
#![tactic(auto, unfolding(crate::specs::SizingKeyword::by_keyword, crate::specs::SizingKeyword::of_resolved, crate::specs::SizingKeyword::keyword_of, crate::specs::SizingKeyword::absolute_stretch, crate::specs::SizingKeyword::if_absent, crate::specs::SizingKeyword::keywords_of))]

ghost use Rattle.std.specs.Prelude.{◌≡◌};
ghost use Rattle.oof_common.specs.SizingKeyword.{by_keyword, keyword_of, if_absent, absolute_stretch, keywords_of};

use geometry::{Line, Size};
use style::available_space::AvailableSpace;
use style::compact_length::CompactLength;
use style::resolve;
use style::resolve::{Field, Resolved, SizingKeyword};
use util::sys;

// What a side's size keyword comes to.
#[derive(Clone, Copy, PartialEq)]
pub enum SizingKeywordResolution {
    Exact(f32),
    Measure(AvailableSpace),
}

// Stretch is exact; the others are measured, each in a space of its own.
fn by_keyword(keyword: SizingKeyword, stretch: f32) -> SizingKeywordResolution
    ensures { result ≡ by_keyword keyword stretch }
{
    match keyword {
        SizingKeyword::MinContent => SizingKeywordResolution::Measure(AvailableSpace::MinContent),
        SizingKeyword::MaxContent => SizingKeywordResolution::Measure(AvailableSpace::MaxContent),
        SizingKeyword::FitContent => {
            SizingKeywordResolution::Measure(AvailableSpace::Definite(stretch))
        }
        SizingKeyword::FitContentLimit(limit) => {
            SizingKeywordResolution::Measure(AvailableSpace::Definite(limit))
        }
        SizingKeyword::Stretch => SizingKeywordResolution::Exact(stretch),
    }
}

// A size style in one axis, given the stretch size and what percentages are taken of.
pub fn resolve_sizing_keyword(
    style: CompactLength,
    stretch: f32,
    basis: f32,
) -> Option<SizingKeywordResolution>
    ensures { result ≡ keyword_of style stretch basis }
{
    match resolve::resolve(Field::Size, style, basis) {
        Resolved::Keyword(keyword) => Some(by_keyword(keyword, stretch)),
        Resolved::NotAllowed | Resolved::Absent | Resolved::Length(_) => None,
    }
}

// The stretch size of a size keyword in one axis: the inset-modified block's size less the margins, each in turn, auto as 0; at
// least 0. Of the Rust's function this is its stretch size, with the block's size in place of the area less its insets.
pub fn absolute_stretch_size(size: f32, margin: Line<Option<f32>>) -> f32
    ensures { result ≡ absolute_stretch size margin }
{
    let free = size - margin.start.unwrap_or(0.0) - margin.end.unwrap_or(0.0);
    sys::f32_max(free, 0.0)
}

// Only a side that is absent is resolved.
fn if_absent(
    known: Option<f32>,
    style: CompactLength,
    stretch: f32,
    basis: f32,
) -> Option<SizingKeywordResolution>
    ensures { result ≡ if_absent known (keyword_of style stretch basis) }
{
    match known {
        None => resolve_sizing_keyword(style, stretch, basis),
        Some(_) => None,
    }
}

// The size keywords of an absolutely positioned box, given the stretch size of each side. Of the Rust's function this is
// the part before it measures.
// A line for each axis: it takes four sizes, `zip_map` two.
#[inline(always)]
pub fn resolve_absolute_sizing_keywords(
    known: Size<Option<f32>>,
    style: Size<CompactLength>,
    area: Size<f32>,
    stretch: Size<f32>,
) -> Size<Option<SizingKeywordResolution>>
    ensures { result ≡ keywords_of known style area stretch }
{
    Size {
        width: if_absent(known.width, style.width, stretch.width, area.width),
        height: if_absent(known.height, style.height, stretch.height, area.height),
    }
}
