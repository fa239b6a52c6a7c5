// What a box asks next, and its layout at the end: both from the words and from the replies kept.
#![tactic(auto, unfolding(crate::specs::Cut::size_by, crate::specs::Cut::keyword_asked, crate::specs::Cut::size_asked, crate::specs::Cut::asked_of))]

ghost use Rattle.std.specs.Prelude.{◌≡◌};
ghost use Rattle.oof_place.specs.Placing.{box_layout};
ghost use Rattle.oof_box.specs.Box.{keyword_stretch, size_keywords};
ghost use Rattle.oof_box.specs.Cut.{sizing, sized_by, both_asked, width_asked, height_asked, keyword_asked, fill_asked, lay_out_asked, is_first, size_asked, size_by, asked_of};

use crate::question::{Asked, LayoutInput, MeasureInput, Question, Replies, Stage};
use crate::sizing;
use crate::sizing::Sizing;
use geometry::{Rect, Size};
use oof_common::sizing_keyword::SizingKeywordResolution::{Exact, Measure};
use oof_place;
use oof_place::OofBoxLayout;
use oof_resolve::{ContainingBlock, ResolvedBox};
use style::Style;
use style::available_space::AvailableSpace;
use tree::layout::OofCandidate;

// ---- step 4

// Five questions, here and below, each by a function: each has another stage and input, and a definition that names it.
// The node stands beside what a size is worked out from: it goes into the question alone.
fn both_asked(node: u32, spacex: AvailableSpace, spacey: AvailableSpace) -> Asked
    ensures { result ≡ both_asked node spacex spacey }
{
    let input = MeasureInput {
        node,
        known: Size::NONE,
        space: Size {
            width: spacex,
            height: spacey,
        },
    };
    Asked {
        stage: Stage::KeywordBoth,
        question: Question::MeasureBoth(input),
    }
}

// The height's space is its stretch size, whether the height is known or not.
fn width_asked(
    node: u32,
    spacex: AvailableSpace,
    known: Size<Option<f32>>,
    stretch: Size<f32>,
) -> Asked
    ensures { result ≡ width_asked node spacex known stretch }
{
    let input = MeasureInput {
        node,
        known,
        space: Size {
            width: spacex,
            height: AvailableSpace::Definite(stretch.height),
        },
    };
    Asked {
        stage: Stage::KeywordWidth,
        question: Question::MeasureWidth(input),
    }
}

// A width that is known is its space, else its stretch size.
fn height_asked(
    node: u32,
    width: Option<f32>,
    spacey: AvailableSpace,
    known: Size<Option<f32>>,
    stretch: Size<f32>,
) -> Asked
    ensures { result ≡ height_asked node width spacey known stretch }
{
    let input = MeasureInput {
        node,
        known: Size { width, ..known },
        space: Size {
            width: AvailableSpace::Definite(width.unwrap_or(stretch.width)),
            height: spacey,
        },
    };
    Asked {
        stage: Stage::KeywordHeight,
        question: Question::MeasureHeight(input),
    }
}

// The question for size keywords, if a side is to be measured. Two measured sides are one question. An exact width is filled in
// before the height is measured.
fn keyword_asked(node: u32, sizing: &Sizing) -> Option<Asked>
    ensures { result ≡ keyword_asked node sizing.now.keywords.width sizing.now.keywords.height sizing.now.resolved.now.size (keyword_stretch sizing.now.resolved.now) }
{
    let known = sizing.resolved.size;
    let stretch = sizing::keyword_stretch(sizing.resolved);
    match (sizing.keywords.width, sizing.keywords.height) {
        (Some(Measure(spacex)), Some(Measure(spacey))) => Some(both_asked(node, spacex, spacey)),
        (Some(Measure(spacex)), _) => Some(width_asked(node, spacex, known, stretch)),
        (Some(Exact(w)), Some(Measure(spacey))) => {
            Some(height_asked(node, Some(w), spacey, known, stretch))
        }
        (None, Some(Measure(spacey))) => {
            Some(height_asked(node, known.width, spacey, known, stretch))
        }
        _ => None,
    }
}

// ---- steps 5 and 6

fn fill_asked(node: u32, known: Size<Option<f32>>, space: Size<AvailableSpace>) -> Asked
    ensures { result ≡ fill_asked node known space }
{
    let input = MeasureInput { node, known, space };
    Asked {
        stage: Stage::Fill,
        question: Question::MeasureBoth(input),
    }
}

fn lay_out_asked(node: u32, size: Size<f32>, space: Size<AvailableSpace>) -> Asked
    ensures { result ≡ lay_out_asked node size space }
{
    let input = LayoutInput { node, size, space };
    Asked {
        stage: Stage::LayOut,
        question: Question::LayOut(input),
    }
}

// What is still absent is measured, once; else the box is laid out.
fn size_asked(node: u32, sizing: &Sizing) -> Asked
    ensures { result ≡ size_asked node (sized_by sizing.now) }
{
    let space = sizing.resolved.space;
    let at = sizing.stretched();
    if sizing.replies.fill.is_some() || at.known.both_axis_defined() {
        return lay_out_asked(node, sizing.fill(at), space);
    }
    fill_asked(node, at.known, space)
}

// ---- the dialogue

fn is_first(replies: Replies) -> bool
    ensures { result ≡ is_first replies }
{
    replies.fill.is_none() && replies.keyword.is_none()
}

#[inline(always)]
fn asked_of(node: u32, sizing: &Sizing) -> Asked
    ensures { result ≡ asked_of node (sized_by sizing.now) }
{
    if is_first(sizing.replies) {
        if let Some(first) = keyword_asked(node, sizing) {
            return first;
        }
    }
    size_asked(node, sizing)
}

// What a box asks that is resolved, by the replies so far.
// Style and resolved box come from the caller, here and below, who reads them of the words: inlined there, as what takes them in `sizing` is, only the
// words that the answer needs are read (bench/README.md).
#[inline(always)]
pub fn next_question(node: u32, style: &Style, resolved: &ResolvedBox, replies: Replies) -> Asked
    ensures { result ≡ asked_of node (sizing style.now resolved.now (size_keywords style.now resolved.now) replies) }
{
    asked_of(node, &Sizing::new(style, resolved, replies))
}

// The layout of a box that is resolved and that the host has laid out, with its overflow.
#[inline(always)]
pub fn layout_oof_box(
    container: &ContainingBlock,
    style: &Style,
    candidate: &OofCandidate,
    resolved: &ResolvedBox,
    replies: Replies,
    overflow: Rect<f32>,
) -> OofBoxLayout
    ensures { result ≡ box_layout container.now style.now candidate.now resolved.now (size_by (sizing style.now resolved.now (size_keywords style.now resolved.now) replies)) overflow }
{
    let size = Sizing::new(style, resolved, replies).final_size();
    oof_place::place(container, style, candidate, resolved, size, overflow)
}
