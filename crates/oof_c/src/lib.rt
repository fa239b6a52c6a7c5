// The C entries: a run whose state and answer stand in lent words, a preview (`preview`), the pixel edges of a box, whether scrolling brings a box
// up, in which order the boxes are drawn, what the touch driver reads of them, and the first word of a table of styles that breaks a code rule. A slice passes as a
// pointer, then its length in words; state, answer, a layout, edges, a verdict and a found word's place pass as a pointer each. `oof_c_c`
// exports them, and hosts/c/oof.h declares them for C.
#![tactic(auto)]

ghost use Rattle.std.specs.Prelude.{◌≡◌, []};
ghost use Rattle.oof_c_words.specs.Entry.{returned, opening_of, opened_in_words, replied_in_words, words};
ghost use Rattle.oof_c_words.specs.PixelWords.{pixels_returned, pixels_in_words};
ghost use Rattle.run.specs.Call.{slices};
ghost use Rattle.oof_c.specs.ReachWords.{reach_returned, reach_in_words};
ghost use Rattle.oof_c.specs.DrawingWords.{verdict_number, drawing_returned, drawing_in_words};
ghost use Rattle.oof_c.specs.TouchWords.{touch_returned, touch_in_words};
ghost use Rattle.oof_c_words.specs.CheckWords.{check_returned, check_in_words};

use geometry::{Point, Rect, Size};
use oof_box::question::Reply;
use oof_c_words::answer::ANSWER_WORDS;
use oof_c_words::check::FOUND;
use oof_c_words::state::STATE_WORDS;
use pixels::lent::EDGES;
use reach::lent::VERDICT;
use refusal::Refusal;
use run::{Opening, Slices};
use style_record::table::Table;
use tree::layout::OofPositioningArea;
use tree_record::layout::LAYOUT_WORDS;

pub mod preview;

// An area's width, height, x and y, then the codes of an opening.
fn opening_of(
    width: f32,
    height: f32,
    x: f32,
    y: f32,
    direction: u32,
    claims: u32,
    overflow_x: u32,
    overflow_y: u32,
) -> Opening
    ensures { result ≡ opening_of width height x y direction claims overflow_x overflow_y }
{
    let area = OofPositioningArea {
        size: Size { width, height },
        offset: Point { x, y },
    };
    Opening {
        area,
        direction,
        claims,
        overflowx: overflow_x,
        overflowy: overflow_y,
    }
}

// Opens a run. The C interface passes floats, codes and slices one by one, here and below.
#[tactic(auto, unfolding(oof_c_words::specs::Entry::opened_in_words))]
pub fn oof_open(
    width: f32,
    height: f32,
    x: f32,
    y: f32,
    direction: u32,
    claims: u32,
    overflow_x: u32,
    overflow_y: u32,
    styles: &[u32],
    candidates: &[u32],
    layouts: &mut [u32],
    working: &mut [u32],
    unclaimed: &mut [u32],
    tally: &mut [u32],
    state: &mut [u32; STATE_WORDS],
    answer: &mut [u32; ANSWER_WORDS],
) -> u32
    ensures { returned result layouts.new working.new unclaimed.new tally.new state.new answer.new ≡ opened_in_words (opening_of width height x y direction claims overflow_x overflow_y) candidates.now styles.now (words layouts.old working.old unclaimed.old tally.old state.old answer.old) }
{
    let o = opening_of(
        width, height, x, y, direction, claims, overflow_x, overflow_y,
    );
    let step = placer::open(o, styles, candidates, layouts, working, unclaimed, tally);
    *state = oof_c_words::state::state_words(step.state);
    oof_c_words::tell(step.answer, answer)
}

// A reply to the open question.
#[tactic(auto, unfolding(oof_c_words::specs::Entry::replied_in_words))]
fn respond(
    reply: Reply,
    surfaced: &[u32],
    styles: &[u32],
    layouts: &mut [u32],
    working: &mut [u32],
    unclaimed: &mut [u32],
    tally: &mut [u32],
    state: &mut [u32; STATE_WORDS],
    answer: &mut [u32; ANSWER_WORDS],
) -> u32
    ensures { returned result layouts.new working.new unclaimed.new tally.new state.new answer.new ≡ replied_in_words reply surfaced.now styles.now (words layouts.old working.old unclaimed.old tally.old state.old answer.old) }
{
    let s = oof_c_words::state::state_of(&*state);
    let step = placer::reply(
        s, reply, surfaced, styles, layouts, working, unclaimed, tally,
    );
    oof_c_words::keep(step, state);
    oof_c_words::tell(step.answer, answer)
}

// Both sizes, measured.
pub fn oof_reply_both(
    width: f32,
    height: f32,
    styles: &[u32],
    layouts: &mut [u32],
    working: &mut [u32],
    unclaimed: &mut [u32],
    tally: &mut [u32],
    state: &mut [u32; STATE_WORDS],
    answer: &mut [u32; ANSWER_WORDS],
) -> u32
    ensures { returned result layouts.new working.new unclaimed.new tally.new state.new answer.new ≡ replied_in_words (Reply.Both (record { width = width; height = height })) [] styles.now (words layouts.old working.old unclaimed.old tally.old state.old answer.old) }
{
    let reply = Reply::Both(Size { width, height });
    let none: [u32; 0] = [];
    respond(
        reply, &none, styles, layouts, working, unclaimed, tally, state, answer,
    )
}

// A width, measured.
pub fn oof_reply_width(
    width: f32,
    styles: &[u32],
    layouts: &mut [u32],
    working: &mut [u32],
    unclaimed: &mut [u32],
    tally: &mut [u32],
    state: &mut [u32; STATE_WORDS],
    answer: &mut [u32; ANSWER_WORDS],
) -> u32
    ensures { returned result layouts.new working.new unclaimed.new tally.new state.new answer.new ≡ replied_in_words (Reply.Width width) [] styles.now (words layouts.old working.old unclaimed.old tally.old state.old answer.old) }
{
    let none: [u32; 0] = [];
    respond(
        Reply::Width(width),
        &none,
        styles,
        layouts,
        working,
        unclaimed,
        tally,
        state,
        answer,
    )
}

// A height, measured.
pub fn oof_reply_height(
    height: f32,
    styles: &[u32],
    layouts: &mut [u32],
    working: &mut [u32],
    unclaimed: &mut [u32],
    tally: &mut [u32],
    state: &mut [u32; STATE_WORDS],
    answer: &mut [u32; ANSWER_WORDS],
) -> u32
    ensures { returned result layouts.new working.new unclaimed.new tally.new state.new answer.new ≡ replied_in_words (Reply.Height height) [] styles.now (words layouts.old working.old unclaimed.old tally.old state.old answer.old) }
{
    let none: [u32; 0] = [];
    respond(
        Reply::Height(height),
        &none,
        styles,
        layouts,
        working,
        unclaimed,
        tally,
        state,
        answer,
    )
}

// A box laid out: its scrollable overflow, and the candidates that it surfaced.
pub fn oof_reply_laid_out(
    left: f32,
    right: f32,
    top: f32,
    bottom: f32,
    surfaced: &[u32],
    styles: &[u32],
    layouts: &mut [u32],
    working: &mut [u32],
    unclaimed: &mut [u32],
    tally: &mut [u32],
    state: &mut [u32; STATE_WORDS],
    answer: &mut [u32; ANSWER_WORDS],
) -> u32
    ensures { returned result layouts.new working.new unclaimed.new tally.new state.new answer.new ≡ replied_in_words (Reply.LaidOut (record { left = left; right = right; top = top; bottom = bottom })) surfaced.now styles.now (words layouts.old working.old unclaimed.old tally.old state.old answer.old) }
{
    let overflow = Rect {
        left,
        right,
        top,
        bottom,
    };
    respond(
        Reply::LaidOut(overflow),
        surfaced,
        styles,
        layouts,
        working,
        unclaimed,
        tally,
        state,
        answer,
    )
}

// The pixel edges of a box, from its layout's words, relative to an area at x, y.
pub fn oof_pixels(layout: &[u32; LAYOUT_WORDS], x: f32, y: f32, edges: &mut [i32; EDGES]) -> u32
    ensures { pixels_returned result edges.new ≡ pixels_in_words layout.now (record { x = x; y = y }) edges.old }
{
    let l = tree_record::layout::layout_at(layout, 0);
    let p = pixels::pixel_edges(l, Point { x, y });
    pixels::lent::tell(p, edges)
}

// The slices of a finished run, as the parts that read one are lent them.
fn run_slices<'a, 't>(
    styles: &'a Table<'t>,
    layouts: &'a [u32],
    working: &'a [u32],
    unclaimed: &'a [u32],
) -> Slices<'a, 't>
    ensures { result ≡ slices styles.now layouts.now working.now unclaimed.now }
{
    Slices {
        styles,
        layouts,
        working,
        unclaimed,
    }
}

// Whether scrolling brings up the box at a place of a finished run.
#[tactic(auto, unfolding(crate::specs::ReachWords::reach_in_words))]
pub fn oof_reach(
    place: usize,
    styles: &[u32],
    layouts: &[u32],
    working: &[u32],
    unclaimed: &[u32],
    state: &[u32; STATE_WORDS],
    verdict: &mut [u32; VERDICT],
) -> u32
    ensures { reach_returned result verdict.new ≡ reach_in_words place (slices styles.now layouts.now working.now unclaimed.now) state.now verdict.old }
{
    let s = oof_c_words::state::state_of(state);
    let styles = &Table::from(styles);
    let slices = run_slices(styles, layouts, working, unclaimed);
    reach::lent::tell(reach::reach(place, s, &slices), verdict)
}

// 0, or the refusal's number: the C interface has no other verdict.
fn number(verdict: Result<(), Refusal>) -> u32
    ensures { result ≡ verdict_number verdict }
{
    verdict.err().map_or(0, u32::from)
}

// In which order the boxes of a finished run are drawn, as places in the hoisted order.
#[tactic(auto, unfolding(crate::specs::DrawingWords::drawing_in_words))]
pub fn oof_drawing_order(
    styles: &[u32],
    layouts: &[u32],
    working: &[u32],
    unclaimed: &[u32],
    state: &[u32; STATE_WORDS],
    order: &mut [u32],
) -> u32
    ensures { drawing_returned result order.new ≡ drawing_in_words (slices styles.now layouts.now working.now unclaimed.now) state.now order.old }
{
    let s = oof_c_words::state::state_of(state);
    let styles = &Table::from(styles);
    let slices = run_slices(styles, layouts, working, unclaimed);
    number(drawing::drawing_order(s, &slices, order))
}

// What the touch driver reads of a finished run: five words a box.
#[tactic(auto, unfolding(crate::specs::TouchWords::touch_in_words))]
pub fn oof_touch(
    styles: &[u32],
    layouts: &[u32],
    working: &[u32],
    unclaimed: &[u32],
    state: &[u32; STATE_WORDS],
    words: &mut [u32],
) -> u32
    ensures { touch_returned result words.new ≡ touch_in_words (slices styles.now layouts.now working.now unclaimed.now) state.now words.old }
{
    let s = oof_c_words::state::state_of(state);
    let styles = &Table::from(styles);
    let slices = run_slices(styles, layouts, working, unclaimed);
    number(touch::touch(s, &slices, words))
}

// The first word of a table of styles that breaks a code rule.
#[tactic(auto, unfolding(oof_c_words::specs::CheckWords::check_in_words))]
pub fn oof_first_bad_word(styles: &[u32], found: &mut [u32; FOUND]) -> u32
    ensures { check_returned result found.new ≡ check_in_words styles.now found.old }
{
    let check = style_record::check::check_styles(&Table::from(styles));
    oof_c_words::check::tell(check, found)
}
