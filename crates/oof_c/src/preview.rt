// The C entries of a preview (request #109): those of a run, and a node with the style that is read in place of its own. A node passes as a number,
// its style as a pointer, then its length in words.
ghost use Rattle.std.specs.Prelude.{◌≡◌, []};
ghost use Rattle.oof_c_words.specs.Entry.{returned, opening_of, preview_opened_in_words, preview_replied_in_words, words};

use geometry::{Rect, Size};
use oof_box::question::Reply;
use oof_c_words::answer::ANSWER_WORDS;
use oof_c_words::state::STATE_WORDS;

// Opens a preview. The C interface passes floats, codes and slices one by one, here and below.
#[tactic(auto, unfolding(oof_c_words::specs::Entry::preview_opened_in_words))]
pub fn oof_preview_open(
    width: f32,
    height: f32,
    x: f32,
    y: f32,
    direction: u32,
    claims: u32,
    overflow_x: u32,
    overflow_y: u32,
    styles: &[u32],
    node: u32,
    style: &[u32],
    candidates: &[u32],
    layouts: &mut [u32],
    working: &mut [u32],
    unclaimed: &mut [u32],
    tally: &mut [u32],
    state: &mut [u32; STATE_WORDS],
    answer: &mut [u32; ANSWER_WORDS],
) -> u32
    ensures { returned result layouts.new working.new unclaimed.new tally.new state.new answer.new ≡ preview_opened_in_words (opening_of width height x y direction claims overflow_x overflow_y) candidates.now styles.now node style.now (words layouts.old working.old unclaimed.old tally.old state.old answer.old) }
{
    let o = crate::opening_of(
        width, height, x, y, direction, claims, overflow_x, overflow_y,
    );
    let step = placer::preview::open(
        o, styles, node, style, candidates, layouts, working, unclaimed, tally,
    );
    *state = oof_c_words::state::state_words(step.state);
    oof_c_words::tell(step.answer, answer)
}

// A reply to a preview's open question.
#[tactic(auto, unfolding(oof_c_words::specs::Entry::preview_replied_in_words))]
fn respond(
    reply: Reply,
    surfaced: &[u32],
    styles: &[u32],
    node: u32,
    style: &[u32],
    layouts: &mut [u32],
    working: &mut [u32],
    unclaimed: &mut [u32],
    tally: &mut [u32],
    state: &mut [u32; STATE_WORDS],
    answer: &mut [u32; ANSWER_WORDS],
) -> u32
    ensures { returned result layouts.new working.new unclaimed.new tally.new state.new answer.new ≡ preview_replied_in_words reply surfaced.now styles.now node style.now (words layouts.old working.old unclaimed.old tally.old state.old answer.old) }
{
    let s = oof_c_words::state::state_of(&*state);
    let step = placer::preview::reply(
        s, reply, surfaced, styles, node, style, layouts, working, unclaimed, tally,
    );
    oof_c_words::keep(step, state);
    oof_c_words::tell(step.answer, answer)
}

// Both sizes, measured.
pub fn oof_preview_reply_both(
    width: f32,
    height: f32,
    styles: &[u32],
    node: u32,
    style: &[u32],
    layouts: &mut [u32],
    working: &mut [u32],
    unclaimed: &mut [u32],
    tally: &mut [u32],
    state: &mut [u32; STATE_WORDS],
    answer: &mut [u32; ANSWER_WORDS],
) -> u32
    ensures { returned result layouts.new working.new unclaimed.new tally.new state.new answer.new ≡ preview_replied_in_words (Reply.Both (record { width = width; height = height })) [] styles.now node style.now (words layouts.old working.old unclaimed.old tally.old state.old answer.old) }
{
    let reply = Reply::Both(Size { width, height });
    let none: [u32; 0] = [];
    respond(
        reply, &none, styles, node, style, layouts, working, unclaimed, tally, state, answer,
    )
}

// A width, measured.
pub fn oof_preview_reply_width(
    width: f32,
    styles: &[u32],
    node: u32,
    style: &[u32],
    layouts: &mut [u32],
    working: &mut [u32],
    unclaimed: &mut [u32],
    tally: &mut [u32],
    state: &mut [u32; STATE_WORDS],
    answer: &mut [u32; ANSWER_WORDS],
) -> u32
    ensures { returned result layouts.new working.new unclaimed.new tally.new state.new answer.new ≡ preview_replied_in_words (Reply.Width width) [] styles.now node style.now (words layouts.old working.old unclaimed.old tally.old state.old answer.old) }
{
    let none: [u32; 0] = [];
    respond(
        Reply::Width(width),
        &none,
        styles,
        node,
        style,
        layouts,
        working,
        unclaimed,
        tally,
        state,
        answer,
    )
}

// A height, measured.
pub fn oof_preview_reply_height(
    height: f32,
    styles: &[u32],
    node: u32,
    style: &[u32],
    layouts: &mut [u32],
    working: &mut [u32],
    unclaimed: &mut [u32],
    tally: &mut [u32],
    state: &mut [u32; STATE_WORDS],
    answer: &mut [u32; ANSWER_WORDS],
) -> u32
    ensures { returned result layouts.new working.new unclaimed.new tally.new state.new answer.new ≡ preview_replied_in_words (Reply.Height height) [] styles.now node style.now (words layouts.old working.old unclaimed.old tally.old state.old answer.old) }
{
    let none: [u32; 0] = [];
    respond(
        Reply::Height(height),
        &none,
        styles,
        node,
        style,
        layouts,
        working,
        unclaimed,
        tally,
        state,
        answer,
    )
}

// A box laid out: its scrollable overflow, and the candidates that it surfaced.
pub fn oof_preview_reply_laid_out(
    left: f32,
    right: f32,
    top: f32,
    bottom: f32,
    surfaced: &[u32],
    styles: &[u32],
    node: u32,
    style: &[u32],
    layouts: &mut [u32],
    working: &mut [u32],
    unclaimed: &mut [u32],
    tally: &mut [u32],
    state: &mut [u32; STATE_WORDS],
    answer: &mut [u32; ANSWER_WORDS],
) -> u32
    ensures { returned result layouts.new working.new unclaimed.new tally.new state.new answer.new ≡ preview_replied_in_words (Reply.LaidOut (record { left = left; right = right; top = top; bottom = bottom })) surfaced.now styles.now node style.now (words layouts.old working.old unclaimed.old tally.old state.old answer.old) }
{
    let overflow = Rect {
        left,
        right,
        top,
        bottom,
    };
    respond(
        Reply::LaidOut(overflow),
        surfaced,
        styles,
        node,
        style,
        layouts,
        working,
        unclaimed,
        tally,
        state,
        answer,
    )
}
