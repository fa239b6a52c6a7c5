// The C entries of the static library: each calls the entry of `oof_c` of its name, and has its contract. hosts/c/oof.h declares them for C.
// A slice passes as a pointer, then its length in words; state, answer, a layout, edges, a verdict and a found word's place pass as a
// pointer each.
#![tactic(auto)]

ghost use Rattle.std.specs.Prelude.{◌≡◌, []};
ghost use Rattle.oof_c_words.specs.Entry.{returned, opening_of, opened_in_words, replied_in_words, words};
ghost use Rattle.oof_c_words.specs.PixelWords.{pixels_returned, pixels_in_words};
ghost use Rattle.run.specs.Call.{slices};
ghost use Rattle.oof_c.specs.ReachWords.{reach_returned, reach_in_words};
ghost use Rattle.oof_c.specs.DrawingWords.{drawing_returned, drawing_in_words};
ghost use Rattle.oof_c.specs.TouchWords.{touch_returned, touch_in_words};
ghost use Rattle.oof_c_words.specs.CheckWords.{check_returned, check_in_words};

use oof_box::question::Reply;
use oof_c_words::answer::ANSWER_WORDS;
use oof_c_words::check::FOUND;
use oof_c_words::state::STATE_WORDS;
use pixels::lent::EDGES;
use reach::lent::VERDICT;
use tree_record::layout::LAYOUT_WORDS;

mod preview;

// Opens a run. An exported function has the C interface's parameters and answers a number, here and below, and has no body but the
// call: a static library can't be cited, and `demands_c` cites `oof_c`.
#[unsafe(no_mangle)]
pub extern "C" fn oof_open(
    width: f32,
    height: f32,
    x: f32,
    y: f32,
    direction: u32,
    claims: u32,
    overflow_x: u32,
    overflow_y: u32,
    styles: &[u32],
    candidates: &[u32],
    layouts: &mut [u32],
    working: &mut [u32],
    unclaimed: &mut [u32],
    tally: &mut [u32],
    state: &mut [u32; STATE_WORDS],
    answer: &mut [u32; ANSWER_WORDS],
) -> u32
    ensures { returned result layouts.new working.new unclaimed.new tally.new state.new answer.new ≡ opened_in_words (opening_of width height x y direction claims overflow_x overflow_y) candidates.now styles.now (words layouts.old working.old unclaimed.old tally.old state.old answer.old) }
{
    oof_c::oof_open(
        width, height, x, y, direction, claims, overflow_x, overflow_y, styles, candidates,
        layouts, working, unclaimed, tally, state, answer,
    )
}

// Both sizes, measured.
#[unsafe(no_mangle)]
pub extern "C" fn oof_reply_both(
    width: f32,
    height: f32,
    styles: &[u32],
    layouts: &mut [u32],
    working: &mut [u32],
    unclaimed: &mut [u32],
    tally: &mut [u32],
    state: &mut [u32; STATE_WORDS],
    answer: &mut [u32; ANSWER_WORDS],
) -> u32
    ensures { returned result layouts.new working.new unclaimed.new tally.new state.new answer.new ≡ replied_in_words (Reply.Both (record { width = width; height = height })) [] styles.now (words layouts.old working.old unclaimed.old tally.old state.old answer.old) }
{
    oof_c::oof_reply_both(
        width, height, styles, layouts, working, unclaimed, tally, state, answer,
    )
}

// A width, measured.
#[unsafe(no_mangle)]
pub extern "C" fn oof_reply_width(
    width: f32,
    styles: &[u32],
    layouts: &mut [u32],
    working: &mut [u32],
    unclaimed: &mut [u32],
    tally: &mut [u32],
    state: &mut [u32; STATE_WORDS],
    answer: &mut [u32; ANSWER_WORDS],
) -> u32
    ensures { returned result layouts.new working.new unclaimed.new tally.new state.new answer.new ≡ replied_in_words (Reply.Width width) [] styles.now (words layouts.old working.old unclaimed.old tally.old state.old answer.old) }
{
    oof_c::oof_reply_width(
        width, styles, layouts, working, unclaimed, tally, state, answer,
    )
}

// A height, measured.
#[unsafe(no_mangle)]
pub extern "C" fn oof_reply_height(
    height: f32,
    styles: &[u32],
    layouts: &mut [u32],
    working: &mut [u32],
    unclaimed: &mut [u32],
    tally: &mut [u32],
    state: &mut [u32; STATE_WORDS],
    answer: &mut [u32; ANSWER_WORDS],
) -> u32
    ensures { returned result layouts.new working.new unclaimed.new tally.new state.new answer.new ≡ replied_in_words (Reply.Height height) [] styles.now (words layouts.old working.old unclaimed.old tally.old state.old answer.old) }
{
    oof_c::oof_reply_height(
        height, styles, layouts, working, unclaimed, tally, state, answer,
    )
}

// A box laid out: its scrollable overflow, and the candidates that it surfaced.
#[unsafe(no_mangle)]
pub extern "C" fn oof_reply_laid_out(
    left: f32,
    right: f32,
    top: f32,
    bottom: f32,
    surfaced: &[u32],
    styles: &[u32],
    layouts: &mut [u32],
    working: &mut [u32],
    unclaimed: &mut [u32],
    tally: &mut [u32],
    state: &mut [u32; STATE_WORDS],
    answer: &mut [u32; ANSWER_WORDS],
) -> u32
    ensures { returned result layouts.new working.new unclaimed.new tally.new state.new answer.new ≡ replied_in_words (Reply.LaidOut (record { left = left; right = right; top = top; bottom = bottom })) surfaced.now styles.now (words layouts.old working.old unclaimed.old tally.old state.old answer.old) }
{
    oof_c::oof_reply_laid_out(
        left, right, top, bottom, surfaced, styles, layouts, working, unclaimed, tally, state,
        answer,
    )
}

// The pixel edges of a box, from its layout's words, relative to an area at x, y.
#[unsafe(no_mangle)]
pub extern "C" fn oof_pixels(
    layout: &[u32; LAYOUT_WORDS],
    x: f32,
    y: f32,
    edges: &mut [i32; EDGES],
) -> u32
    ensures { pixels_returned result edges.new ≡ pixels_in_words layout.now (record { x = x; y = y }) edges.old }
{
    oof_c::oof_pixels(layout, x, y, edges)
}

// Whether scrolling brings up the box at a place of a finished run.
#[unsafe(no_mangle)]
pub extern "C" fn oof_reach(
    place: usize,
    styles: &[u32],
    layouts: &[u32],
    working: &[u32],
    unclaimed: &[u32],
    state: &[u32; STATE_WORDS],
    verdict: &mut [u32; VERDICT],
) -> u32
    ensures { reach_returned result verdict.new ≡ reach_in_words place (slices styles.now layouts.now working.now unclaimed.now) state.now verdict.old }
{
    oof_c::oof_reach(place, styles, layouts, working, unclaimed, state, verdict)
}

// In which order the boxes of a finished run are drawn, as places in the hoisted order.
#[unsafe(no_mangle)]
pub extern "C" fn oof_drawing_order(
    styles: &[u32],
    layouts: &[u32],
    working: &[u32],
    unclaimed: &[u32],
    state: &[u32; STATE_WORDS],
    order: &mut [u32],
) -> u32
    ensures { drawing_returned result order.new ≡ drawing_in_words (slices styles.now layouts.now working.now unclaimed.now) state.now order.old }
{
    oof_c::oof_drawing_order(styles, layouts, working, unclaimed, state, order)
}

// What the touch driver reads of a finished run: five words a box.
#[unsafe(no_mangle)]
pub extern "C" fn oof_touch(
    styles: &[u32],
    layouts: &[u32],
    working: &[u32],
    unclaimed: &[u32],
    state: &[u32; STATE_WORDS],
    words: &mut [u32],
) -> u32
    ensures { touch_returned result words.new ≡ touch_in_words (slices styles.now layouts.now working.now unclaimed.now) state.now words.old }
{
    oof_c::oof_touch(styles, layouts, working, unclaimed, state, words)
}

// The first word of a table of styles that breaks a code rule.
#[unsafe(no_mangle)]
pub extern "C" fn oof_first_bad_word(styles: &[u32], found: &mut [u32; FOUND]) -> u32
    ensures { check_returned result found.new ≡ check_in_words styles.now found.old }
{
    oof_c::oof_first_bad_word(styles, found)
}
