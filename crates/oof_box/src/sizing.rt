// Steps 4 to 6: the size of a box, from what is resolved and what the host replied.
#![tactic(auto, unfolding(geometry::specs::Geometry::clamped_size, geometry::specs::Geometry::clamped_floats, crate::specs::Box::keyword_stretch, crate::specs::Box::size_keywords, crate::specs::Box::settled, crate::specs::Box::widened, crate::specs::Box::heightened, crate::specs::Box::ignores_ratio, crate::specs::Box::stretch_ratio, crate::specs::Box::raised_min, crate::specs::Box::stretched, crate::specs::Box::final_size, crate::specs::Cut::known_by, crate::specs::Cut::stretched_by, crate::specs::Cut::size_by))]

ghost use Rattle.std.specs.Prelude.{◌≡◌, not, ◌&&◌, unwrap_or, is_some};
ghost use Rattle.geometry.specs.Geometry.{zero_size};
ghost use Rattle.oof_axis.specs.Axis.{stretches};
ghost use Rattle.oof_box.specs.Box.{axis_stretch, keyword_stretch, size_keywords, has_keyword, settled, widened, heightened, ignores_ratio, stretch_ratio, raised_min, stretched, final_size};
ghost use Rattle.oof_box.specs.Cut.{measured_sides, side_by, sizing, sized_by, known_by, stretched_by, size_by};

use crate::question::{KeywordReply, Replies};
use geometry::Size;
use oof_axis::OofAxis;
use oof_common::sizing_keyword;
use oof_common::sizing_keyword::SizingKeywordResolution;
use oof_resolve::ResolvedBox;
use style::Style;
use util::sys;

// What the size of a box is worked out from: its style, what is resolved of it, its size keywords, and the replies so far.
#[derive(Clone, Copy)]
pub struct Sizing<'a> {
    pub style: &'a Style,
    pub resolved: &'a ResolvedBox,
    pub keywords: Size<Option<SizingKeywordResolution>>,
    pub replies: Replies,
}

// Known sizes and min after step 5.
#[derive(Clone, Copy)]
pub struct Stretched {
    pub known: Size<Option<f32>>,
    pub min: Size<Option<f32>>,
}

// ---- step 4

// The stretch size of a size keyword in one axis: measured from the inset-modified block.
#[inline(always)]
fn axis_stretch(axis: &OofAxis) -> f32
    ensures { result ≡ axis_stretch axis.now }
{
    sizing_keyword::absolute_stretch_size(axis.inset_modified_containing_block_size(), axis.margin)
}

// Of each side.
// A line for each axis, here and below: a resolved box has its two axes by name, and a closure over both would be told which.
#[inline(always)]
pub fn keyword_stretch(resolved: &ResolvedBox) -> Size<f32>
    ensures { result ≡ keyword_stretch resolved.now }
{
    Size {
        width: axis_stretch(&resolved.horizontal),
        height: axis_stretch(&resolved.vertical),
    }
}

// The size keywords of the absent sides.
#[inline(always)]
pub fn size_keywords(style: &Style, resolved: &ResolvedBox) -> Size<Option<SizingKeywordResolution>>
    ensures { result ≡ size_keywords style.now resolved.now }
{
    let area = Size {
        width: resolved.horizontal.size,
        height: resolved.vertical.size,
    };
    let stretch = keyword_stretch(resolved);
    sizing_keyword::resolve_absolute_sizing_keywords(resolved.size, style.size, area, stretch)
}

// The sides that a reply for size keywords gives.
fn measured_sides(reply: Option<KeywordReply>) -> Size<Option<f32>>
    ensures { result ≡ measured_sides reply }
{
    match reply {
        None => Size::NONE,
        Some(KeywordReply::Both(size)) => size.some(),
        Some(KeywordReply::Width(width)) => Size {
            width: Some(width),
            ..Size::NONE
        },
        Some(KeywordReply::Height(height)) => Size {
            height: Some(height),
            ..Size::NONE
        },
    }
}

// A side by its keyword: as known, exact, or as measured.
fn side_by(
    keyword: Option<SizingKeywordResolution>,
    known: Option<f32>,
    measured: Option<f32>,
) -> Option<f32>
    ensures { result ≡ side_by keyword known measured }
{
    match keyword {
        None => known,
        Some(SizingKeywordResolution::Exact(x)) => Some(x),
        Some(SizingKeywordResolution::Measure(_)) => measured,
    }
}

// Two make one bool, which no map of a size does.
fn has_keyword(keywords: Size<Option<SizingKeywordResolution>>) -> bool
    ensures { result ≡ has_keyword keywords }
{
    keywords.width.is_some() || keywords.height.is_some()
}

// ---- step 5

// A table's min, raised to the stretch-fit size.
fn raised_min(stretches: bool, min: Option<f32>, fit: f32) -> Option<f32>
    ensures { result ≡ raised_min stretches min fit }
{
    if stretches {
        Some(sys::f32_max(min.unwrap_or(0.0), fit))
    } else {
        min
    }
}

// ---- steps 4 to 6, of a box

impl<'a> Sizing<'a> {
    #[inline(always)]
    pub fn new(style: &'a Style, resolved: &'a ResolvedBox, replies: Replies) -> Sizing<'a>
        ensures { sized_by result ≡ sizing style.now resolved.now (size_keywords style.now resolved.now) replies }
    {
        Sizing {
            style,
            resolved,
            keywords: size_keywords(style, resolved),
            replies,
        }
    }

    // Ratio, then clamp.
    #[inline(always)]
    fn settle(&self, size: Size<Option<f32>>, ratio: Option<f32>) -> Size<Option<f32>>
        ensures { result ≡ settled ratio self.now.resolved.now size }
    {
        size.maybe_apply_aspect_ratio(ratio)
            .maybe_clamp(self.resolved.min, self.resolved.max)
    }

    // ---- step 4

    // Known sizes, once the question for size keywords is answered. Of the Rust's `resolve_absolute_sizing_keywords` this is the
    // part after it measured. A line for each axis: it takes three sizes, and `zip_map` two.
    #[inline(always)]
    fn known(&self) -> Size<Option<f32>>
        ensures { result ≡ known_by self.now.style.now self.now.resolved.now self.now.keywords self.now.replies.keyword }
    {
        let known = self.resolved.size;
        if has_keyword(self.keywords) {
            let measured = measured_sides(self.replies.keyword);
            let size = Size {
                width: side_by(self.keywords.width, known.width, measured.width),
                height: side_by(self.keywords.height, known.height, measured.height),
            };
            self.settle(size, self.style.ratio)
        } else {
            known
        }
    }

    // ---- step 5

    // Whether an absent side takes the stretch-fit size.
    fn is_stretched(&self, known: Option<f32>, axis: &OofAxis) -> bool
        ensures { result ≡ (not (is_some known) && stretches axis.now (not self.now.style.now.replaced && not self.now.style.now.table)) }
    {
        known.is_none() && axis.is_stretch_sized(self.style.replaced, self.style.table)
    }

    // Whether stretch is said of both axes, and both are stretched.
    // Two flags, here and below, and no `Size` of them: `widen` and `heighten` take one each.
    fn ignores_ratio(&self, stretchx: bool, stretchy: bool) -> bool
        ensures { result ≡ ignores_ratio self.now.resolved.now stretchx stretchy }
    {
        stretchx
            && stretchy
            && self.resolved.horizontal.is_stretch()
            && self.resolved.vertical.is_stretch()
    }

    // The ratio of step 5.
    fn stretch_ratio(&self, stretchx: bool, stretchy: bool) -> Option<f32>
        ensures { result ≡ stretch_ratio self.now.style.now self.now.resolved.now stretchx stretchy }
    {
        if self.ignores_ratio(stretchx, stretchy) {
            None
        } else {
            self.style.ratio
        }
    }

    // `widen` and `heighten` stay two functions: one of both would be given the width or the height to write, and the test.
    #[inline(always)]
    fn widen(
        &self,
        known: Size<Option<f32>>,
        ratio: Option<f32>,
        stretchx: bool,
    ) -> Size<Option<f32>>
        ensures { result ≡ widened ratio self.now.resolved.now stretchx known }
    {
        if stretchx {
            let size = Size {
                width: Some(self.resolved.fit.width),
                ..known
            };
            self.settle(size, ratio)
        } else {
            known
        }
    }

    // Only a height that is still absent: a stretched width may have given it by the ratio.
    #[inline(always)]
    fn heighten(
        &self,
        known: Size<Option<f32>>,
        ratio: Option<f32>,
        stretchy: bool,
    ) -> Size<Option<f32>>
        ensures { result ≡ heightened ratio self.now.resolved.now stretchy known }
    {
        if stretchy && known.height.is_none() {
            let size = Size {
                height: Some(self.resolved.fit.height),
                ..known
            };
            self.settle(size, ratio)
        } else {
            known
        }
    }

    // Width, then height; a table raises its min instead.
    #[inline(always)]
    fn stretch(&self, known: Size<Option<f32>>) -> Stretched
        ensures { result ≡ stretched self.now.style.now self.now.resolved.now known }
    {
        let min = self.resolved.min;
        let fit = self.resolved.fit;
        let stretchx = self.is_stretched(known.width, &self.resolved.horizontal);
        let stretchy = self.is_stretched(known.height, &self.resolved.vertical);
        if self.style.table {
            let raised = Size {
                width: raised_min(stretchx, min.width, fit.width),
                height: raised_min(stretchy, min.height, fit.height),
            };
            return Stretched { known, min: raised };
        }
        let ratio = self.stretch_ratio(stretchx, stretchy);
        let wide = self.widen(known, ratio, stretchx);
        Stretched {
            known: self.heighten(wide, ratio, stretchy),
            min,
        }
    }

    // Known sizes and min, by the reply for size keywords.
    #[inline(always)]
    pub fn stretched(&self) -> Stretched
        ensures { result ≡ stretched_by (sized_by self.now) }
    {
        self.stretch(self.known())
    }

    // ---- step 6

    // Only an absent side takes what was measured; then the clamp. Before a reply, nothing was measured.
    pub fn fill(&self, at: Stretched) -> Size<f32>
        ensures { result ≡ final_size self.now.resolved.now at (unwrap_or self.now.replies.fill zero_size) }
    {
        let measured = self.replies.fill.unwrap_or(Size::ZERO);
        at.known
            .unwrap_or(measured)
            .maybe_clamp(at.min, self.resolved.max)
    }

    // The final size, by the replies.
    pub fn final_size(&self) -> Size<f32>
        ensures { result ≡ size_by (sized_by self.now) }
    {
        self.fill(self.stretched())
    }
}
