// One box against its recorded run.
ghost use Rattle.std.specs.Prelude.{◌≡◌, ◌+◌, ◌≤◌, length};
ghost use Rattle.test_oof_box.specs.Box.{box_words};

use geometry::{Point, Rect, Size};
use oof_box::dialogue;
use oof_box::question::{Asked, Question, Replies, Reply, Stage, Taken};
use oof_place::OofBoxLayout;
use oof_resolve;
use oof_resolve::ContainingBlock;
use style::available_space::AvailableSpace;
use style::{Direction, Overflow};
use style_record::decode;
use style_record::table::Table;
use style_record::words::STYLE_WORDS;
use tree::layout::{OofCandidate, OofPositioningArea};
use tree_record::candidate::CANDIDATE_WORDS;
use tree_record::layout::LAYOUT_WORDS;
use tree_record::{candidate, layout};
use util::bits;

// Where the parts of a box's record stand, behind its style.
const AREA: usize = STYLE_WORDS;

const FINISH: usize = AREA + 8;

const STAGES: usize = FINISH + 4;

const CANDIDATE: usize = STAGES + 1;

// The replies: to the question for keywords, to that of step 6, to the layout.
const KEYWORD: usize = CANDIDATE + CANDIDATE_WORDS;

const FILL: usize = KEYWORD + 2;

const OVERFLOW: usize = FILL + 2;

const LAYOUT: usize = OVERFLOW + 4;

// Three questions of four words.
const QUESTIONS: usize = LAYOUT + LAYOUT_WORDS;

pub const BOX_WORDS: usize = QUESTIONS + 12;

// The floats of N words, by their place, here and below: a part cut out would have its length said in each contract.
fn floats_at<const N: usize>(w: &[u32; BOX_WORDS], at: usize) -> [f32; N]
    requires { at + N ≤ box_words }
{
    let words: [u32; N] = *w[at..].first_chunk().unwrap();
    words.map(bits::from_word)
}

fn container_of(w: &[u32; BOX_WORDS]) -> ContainingBlock {
    let [width, height, x, y] = floats_at::<4>(w, AREA);
    ContainingBlock {
        area: OofPositioningArea {
            size: Size { width, height },
            offset: Point { x, y },
        },
        direction: Direction::from(w[AREA + 4]),
        overflow: Point {
            x: Overflow::from(w[AREA + 6]),
            y: Overflow::from(w[AREA + 7]),
        },
    }
}

fn candidate_of(w: &[u32; BOX_WORDS]) -> OofCandidate {
    candidate::candidate_of(w[CANDIDATE..].first_chunk().unwrap())
}

// ---- questions in words, as the recorded ones

fn known_word(size: Option<f32>) -> u32 {
    size.map_or(0xFFFF_FFFF, bits::to_word)
}

fn space_word(space: AvailableSpace) -> u32 {
    match space {
        AvailableSpace::Definite(x) => bits::to_word(x),
        AvailableSpace::MinContent => 0xFFFF_FFFE,
        AvailableSpace::MaxContent => 0xFFFF_FFFD,
    }
}

// A question's four words.
fn question_words(known: Size<Option<f32>>, space: Size<AvailableSpace>) -> [u32; 4] {
    [
        known_word(known.width),
        known_word(known.height),
        space_word(space.width),
        space_word(space.height),
    ]
}

fn words_of(question: Question) -> [u32; 4] {
    match question {
        Question::MeasureBoth(input)
        | Question::MeasureWidth(input)
        | Question::MeasureHeight(input) => question_words(input.known, input.space),
        Question::LayOut(input) => question_words(input.size.some(), input.space),
    }
}

// Whether a question is of the kind that its stage asks.
fn is_of_stage(asked: Asked) -> bool {
    matches!(
        (asked.stage, asked.question),
        (Stage::KeywordBoth | Stage::Fill, Question::MeasureBoth(_))
            | (Stage::KeywordWidth, Question::MeasureWidth(_))
            | (Stage::KeywordHeight, Question::MeasureHeight(_))
            | (Stage::LayOut, Question::LayOut(_))
    )
}

// Zeros are equal.
fn plain(w: u32) -> u32 {
    if w == 0x8000_0000 { 0 } else { w }
}

fn same(a: &[u32], b: &[u32]) -> bool {
    a.iter().zip(b).all(|(x, y)| plain(*x) == plain(*y))
}

// Whether the question is the recorded one, with stage and kind.
fn is_recorded(asked: Asked, stage: u32, recorded: &[u32]) -> bool {
    asked.stage as u32 + 1 == stage
        && is_of_stage(asked)
        && same(&words_of(asked.question), recorded)
}

// ---- replies

fn size_at(w: &[u32; BOX_WORDS], at: usize) -> Size<f32>
    requires { at + 2 ≤ box_words }
{
    let [width, height] = floats_at::<2>(w, at);
    Size { width, height }
}

fn reply_to(stage: Stage, w: &[u32; BOX_WORDS]) -> Reply {
    match stage {
        Stage::KeywordBoth => Reply::Both(size_at(w, KEYWORD)),
        Stage::KeywordWidth => Reply::Width(bits::from_word(w[KEYWORD])),
        Stage::KeywordHeight => Reply::Height(bits::from_word(w[KEYWORD])),
        Stage::Fill => Reply::Both(size_at(w, FILL)),
        Stage::LayOut => Reply::LaidOut(layout::rect_at(w, OVERFLOW)),
    }
}

// ---- what is found

// The layout's words, and the finish rectangle of a run of one box.
fn is_found(found: OofBoxLayout, w: &[u32; BOX_WORDS]) -> bool {
    let words = layout::layout_words(found.layout);
    same(&words, &w[LAYOUT..QUESTIONS])
        && Rect::ZERO.union(found.contribution) == layout::rect_at(w, FINISH)
}

// Whether a box asks, lays out and contributes what was recorded.
pub(crate) fn agrees(w: &[u32; BOX_WORDS]) -> bool {
    let style = decode::style_at(&Table::from(&w[..]), 0);
    let candidate = candidate_of(w);
    let container = container_of(w);
    let resolved = oof_resolve::resolve_box(&container, &style, &candidate);
    let mut replies = Replies::default();
    let mut path = w[STAGES];
    for recorded in w[QUESTIONS..].chunks_exact(4) {
        let asked = dialogue::next_question(candidate.node, &style, &resolved, replies);
        if !is_recorded(asked, path % 8, recorded) {
            return false;
        }
        match replies.take(asked.stage, reply_to(asked.stage, w)) {
            None => {
                return false;
            }
            Some(Taken::Kept(kept)) => {
                replies = kept;
            }
            Some(Taken::Laid(overflow)) => {
                let found = dialogue::layout_oof_box(
                    &container, &style, &candidate, &resolved, replies, overflow,
                );
                return path < 8 && is_found(found, w);
            }
        }
        path /= 8;
    }
    false
}
