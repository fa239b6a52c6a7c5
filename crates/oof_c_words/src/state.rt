// The state of a run in 28 lent words, by the table of specs/StateWords.antt.
ghost use Rattle.std.specs.Prelude.{◌≡◌};
ghost use Rattle.oof_c_words.specs.StateWords.{count_word, progress_of, progress_code, keyword_reply_of, keyword_kind, keyword_width, keyword_height, fill_reply_of, fill_kind, replies_in, counts_in, overflow_in, opening_in, claims_code, extents_in, opened_in, opening_codes, state_of, state_words};

use geometry::{Point, Rect, Size};
use oof_box::question::{KeywordReply, Replies, Stage};
use oof_resolve::ContainingBlock;
use run::{Counts, Extents, Opened, Opening, State};
use style::ContainingBlockClaims;
use sweep::Filled;
use tree::layout::OofPositioningArea;
use tree_record::layout;
use util::bits;

pub const STATE_WORDS: usize = 28;

// ---- codes and counts

// A count as a word, modulo 2 ^ 32. By `%`, since no cast of Rattle's wraps and no conversion of std's takes the low word of a count.
pub fn count_word(n: usize) -> u32
    ensures { result ≡ count_word n }
{
    (n % 4294967296) as u32
}

// The codes of the C interface, here and below: a table of its own, in which any other word means the last row (docs/DECISIONS.md).
#[tactic(auto, unfolding(crate::specs::StateWords::progress_of))]
fn progress_of(code: u32) -> Option<Stage>
    ensures { result ≡ progress_of code }
{
    match code {
        1 => Some(Stage::KeywordBoth),
        2 => Some(Stage::KeywordWidth),
        3 => Some(Stage::KeywordHeight),
        4 => Some(Stage::Fill),
        5 => Some(Stage::LayOut),
        _ => None,
    }
}

#[tactic(auto, unfolding(crate::specs::StateWords::progress_code, crate::specs::StateWords::stage_code))]
fn progress_code(progress: Option<Stage>) -> u32
    ensures { result ≡ progress_code progress }
{
    progress.map_or(0, |stage| stage as u32 + 1)
}

#[tactic(auto, unfolding(crate::specs::StateWords::claims_code, style::specs::Codes::bits_code))]
fn claims_code(claims: ContainingBlockClaims) -> u32
    ensures { result ≡ claims_code claims }
{
    u32::from(claims.absolute) + 2 * u32::from(claims.fixed)
}

// ---- replies kept

// Of the C interface: a kind, then two floats, and a float that the kind doesn't use is 0. No conversion stands for three words at once.
#[tactic(auto, unfolding(crate::specs::StateWords::keyword_reply_of))]
fn keyword_reply_of(kind: u32, width: f32, height: f32) -> Option<KeywordReply>
    ensures { result ≡ keyword_reply_of kind width height }
{
    match kind {
        1 => Some(KeywordReply::Both(Size { width, height })),
        2 => Some(KeywordReply::Width(width)),
        3 => Some(KeywordReply::Height(height)),
        _ => None,
    }
}

#[tactic(auto, unfolding(crate::specs::StateWords::keyword_kind))]
fn keyword_kind(reply: Option<KeywordReply>) -> u32
    ensures { result ≡ keyword_kind reply }
{
    match reply {
        None => 0,
        Some(KeywordReply::Both(_)) => 1,
        Some(KeywordReply::Width(_)) => 2,
        Some(KeywordReply::Height(_)) => 3,
    }
}

#[tactic(auto, unfolding(crate::specs::StateWords::keyword_width, crate::specs::StateWords::keyword_height))]
fn keyword_size(reply: Option<KeywordReply>) -> Size<f32>
    ensures width { result.width ≡ keyword_width reply }
    ensures height { result.height ≡ keyword_height reply }
{
    match reply {
        None => Size::ZERO,
        Some(KeywordReply::Both(size)) => size,
        Some(KeywordReply::Width(width)) => Size {
            width,
            ..Size::ZERO
        },
        Some(KeywordReply::Height(height)) => Size {
            height,
            ..Size::ZERO
        },
    }
}

#[tactic(auto, unfolding(crate::specs::StateWords::fill_reply_of))]
fn fill_reply_of(kind: u32, width: f32, height: f32) -> Option<Size<f32>>
    ensures { result ≡ fill_reply_of kind width height }
{
    match kind {
        1 => Some(Size { width, height }),
        _ => None,
    }
}

// ---- reading

// Word by word, here and below: the C interface's 28 words, each at its place in the table, and no `From`, since neither type is this crate's.
#[tactic(auto, unfolding(crate::specs::StateWords::replies_in))]
fn replies_in(w: &[u32; STATE_WORDS]) -> Replies
    ensures { result ≡ replies_in w.now }
{
    Replies {
        keyword: keyword_reply_of(w[1], bits::from_word(w[2]), bits::from_word(w[3])),
        fill: fill_reply_of(w[4], bits::from_word(w[5]), bits::from_word(w[6])),
    }
}

#[tactic(auto, unfolding(crate::specs::StateWords::counts_in))]
fn counts_in(w: &[u32; STATE_WORDS]) -> Counts
    ensures { result ≡ counts_in w.now }
{
    Counts {
        filled: Filled {
            working: w[7] as usize,
            unclaimed: w[8] as usize,
        },
        begun: w[9] as usize,
        answered: w[10] as usize,
    }
}

#[tactic(auto, unfolding(crate::specs::StateWords::overflow_in))]
fn overflow_in(w: &[u32; STATE_WORDS]) -> Rect<f32>
    ensures { result ≡ overflow_in w.now }
{
    layout::rect_at(w, 11)
}

// What the run was opened with.
// A screen's first line has these eight words first of ten (boxlist_print): one reader for both would take a slice and a place, and ask for room.
#[tactic(auto, unfolding(crate::specs::StateWords::opening_in))]
fn opening_in(w: &[u32; STATE_WORDS]) -> Opening
    ensures { result ≡ opening_in w.now }
{
    Opening {
        area: OofPositioningArea {
            size: Size {
                width: bits::from_word(w[15]),
                height: bits::from_word(w[16]),
            },
            offset: Point {
                x: bits::from_word(w[17]),
                y: bits::from_word(w[18]),
            },
        },
        direction: w[19],
        claims: w[20],
        overflowx: w[21],
        overflowy: w[22],
    }
}

#[tactic(auto, unfolding(crate::specs::StateWords::extents_in))]
fn extents_in(w: &[u32; STATE_WORDS]) -> Extents
    ensures { result ≡ extents_in w.now }
{
    Extents {
        styles: w[23] as usize,
        layouts: w[24] as usize,
        working: w[25] as usize,
        unclaimed: w[26] as usize,
        tally: w[27] as usize,
    }
}

#[tactic(auto, unfolding(crate::specs::StateWords::opened_in))]
fn opened_in(w: &[u32; STATE_WORDS]) -> Opened
    ensures { result ≡ opened_in w.now }
{
    let opening = opening_in(w);
    Opened {
        container: ContainingBlock::from(opening),
        claims: ContainingBlockClaims::from(opening.claims),
        extents: extents_in(w),
    }
}

// The state that 28 words mean, whatever they are.
#[tactic(auto, unfolding(crate::specs::StateWords::state_of))]
#[inline(always)]
pub fn state_of(w: &[u32; STATE_WORDS]) -> State
    ensures { result ≡ state_of w.now }
{
    State {
        progress: progress_of(w[0]),
        replies: replies_in(w),
        counts: counts_in(w),
        overflow: overflow_in(w),
        opened: opened_in(w),
    }
}

// ---- writing

// The codes of an opening, in the order of the C interface: direction, claims, overflow x, overflow y.
#[tactic(auto, unfolding(crate::specs::StateWords::opening_codes))]
fn opening_codes(run: Opened) -> [u32; 4]
    ensures { result ≡ opening_codes run }
{
    [
        u32::from(run.container.direction),
        claims_code(run.claims),
        u32::from(run.container.overflow.x),
        u32::from(run.container.overflow.y),
    ]
}

// The words of a state, in the C interface's order.
pub fn state_words(s: State) -> [u32; STATE_WORDS]
    ensures { result ≡ state_words s }
{
    let progress = s.progress;
    let replies = s.replies;
    let keyword = replies.keyword;
    let fill = replies.fill;
    let asked = keyword_size(keyword);
    let size = fill.unwrap_or(Size::ZERO);
    let run = s.opened;
    let codes = opening_codes(run);
    [
        progress_code(progress),
        keyword_kind(keyword),
        bits::to_word(asked.width),
        bits::to_word(asked.height),
        u32::from(fill.is_some()),
        bits::to_word(size.width),
        bits::to_word(size.height),
        count_word(s.counts.filled.working),
        count_word(s.counts.filled.unclaimed),
        count_word(s.counts.begun),
        count_word(s.counts.answered),
        bits::to_word(s.overflow.left),
        bits::to_word(s.overflow.right),
        bits::to_word(s.overflow.top),
        bits::to_word(s.overflow.bottom),
        bits::to_word(run.container.area.size.width),
        bits::to_word(run.container.area.size.height),
        bits::to_word(run.container.area.offset.x),
        bits::to_word(run.container.area.offset.y),
        codes[0],
        codes[1],
        codes[2],
        codes[3],
        count_word(run.extents.styles),
        count_word(run.extents.layouts),
        count_word(run.extents.working),
        count_word(run.extents.unclaimed),
        count_word(run.extents.tally),
    ]
}
