// The calls of a preview (request #109).
ghost use Rattle.std.specs.Prelude.{[]};
ghost use Rattle.oof_c_words.specs.Entry.{returned, opening_of, words};
ghost use Rattle.demands_c.specs.Demands.{PreviewOpeningDemands, PreviewReplyDemands};

use oof_box::question::Reply;

// Each function, here and below, takes what the entry takes, since the demand is stated of that call.
pub fn open(
    width: f32,
    height: f32,
    x: f32,
    y: f32,
    direction: u32,
    claims: u32,
    overflow_x: u32,
    overflow_y: u32,
    styles: &[u32],
    node: u32,
    style: &[u32],
    candidates: &[u32],
    layouts: &mut [u32],
    working: &mut [u32],
    unclaimed: &mut [u32],
    tally: &mut [u32],
    state: &mut [u32; 28],
    answer: &mut [u32; 10],
) -> u32
    ensures { PreviewOpeningDemands node style.now (opening_of width height x y direction claims overflow_x overflow_y) candidates.now styles.now (words layouts.old working.old unclaimed.old tally.old state.old answer.old) (returned result layouts.new working.new unclaimed.new tally.new state.new answer.new) }
{
    oof_c::preview::oof_preview_open(
        width, height, x, y, direction, claims, overflow_x, overflow_y, styles, node, style,
        candidates, layouts, working, unclaimed, tally, state, answer,
    )
}

pub fn reply_both(
    width: f32,
    height: f32,
    styles: &[u32],
    node: u32,
    style: &[u32],
    layouts: &mut [u32],
    working: &mut [u32],
    unclaimed: &mut [u32],
    tally: &mut [u32],
    state: &mut [u32; 28],
    answer: &mut [u32; 10],
) -> u32
    ensures { PreviewReplyDemands node style.now (Reply.Both (record { width = width; height = height })) [] styles.now (words layouts.old working.old unclaimed.old tally.old state.old answer.old) (returned result layouts.new working.new unclaimed.new tally.new state.new answer.new) }
{
    oof_c::preview::oof_preview_reply_both(
        width, height, styles, node, style, layouts, working, unclaimed, tally, state, answer,
    )
}

pub fn reply_width(
    width: f32,
    styles: &[u32],
    node: u32,
    style: &[u32],
    layouts: &mut [u32],
    working: &mut [u32],
    unclaimed: &mut [u32],
    tally: &mut [u32],
    state: &mut [u32; 28],
    answer: &mut [u32; 10],
) -> u32
    ensures { PreviewReplyDemands node style.now (Reply.Width width) [] styles.now (words layouts.old working.old unclaimed.old tally.old state.old answer.old) (returned result layouts.new working.new unclaimed.new tally.new state.new answer.new) }
{
    oof_c::preview::oof_preview_reply_width(
        width, styles, node, style, layouts, working, unclaimed, tally, state, answer,
    )
}

pub fn reply_height(
    height: f32,
    styles: &[u32],
    node: u32,
    style: &[u32],
    layouts: &mut [u32],
    working: &mut [u32],
    unclaimed: &mut [u32],
    tally: &mut [u32],
    state: &mut [u32; 28],
    answer: &mut [u32; 10],
) -> u32
    ensures { PreviewReplyDemands node style.now (Reply.Height height) [] styles.now (words layouts.old working.old unclaimed.old tally.old state.old answer.old) (returned result layouts.new working.new unclaimed.new tally.new state.new answer.new) }
{
    oof_c::preview::oof_preview_reply_height(
        height, styles, node, style, layouts, working, unclaimed, tally, state, answer,
    )
}

pub fn reply_laid_out(
    left: f32,
    right: f32,
    top: f32,
    bottom: f32,
    surfaced: &[u32],
    styles: &[u32],
    node: u32,
    style: &[u32],
    layouts: &mut [u32],
    working: &mut [u32],
    unclaimed: &mut [u32],
    tally: &mut [u32],
    state: &mut [u32; 28],
    answer: &mut [u32; 10],
) -> u32
    ensures { PreviewReplyDemands node style.now (Reply.LaidOut (record { left = left; right = right; top = top; bottom = bottom })) surfaced.now styles.now (words layouts.old working.old unclaimed.old tally.old state.old answer.old) (returned result layouts.new working.new unclaimed.new tally.new state.new answer.new) }
{
    oof_c::preview::oof_preview_reply_laid_out(
        left, right, top, bottom, surfaced, styles, node, style, layouts, working, unclaimed,
        tally, state, answer,
    )
}
