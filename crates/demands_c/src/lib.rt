// Demands 1 and 2 of the C entries. Each function here but the last is a call, and ensures what is demanded of it; those demands that
// speak of runs are theorems (specs/Demands.antt), from what a caller learns of the entries.
#![tactic(auto)]

ghost use Rattle.std.specs.Prelude.{[]};
ghost use Rattle.oof_c_words.specs.Entry.{returned, opening_of, words};
ghost use Rattle.oof_c_words.specs.PixelWords.{pixels_returned};
ghost use Rattle.run.specs.Call.{slices};
ghost use Rattle.oof_c_words.specs.CheckWords.{check_returned};
ghost use Rattle.oof_c.specs.ReachWords.{reach_returned};
ghost use Rattle.oof_c.specs.DrawingWords.{drawing_returned};
ghost use Rattle.oof_c.specs.TouchWords.{touch_returned};
ghost use Rattle.demands_c.specs.Demands.{OpeningDemands, ReplyDemands, PixelsDemands, ReachDemands, DrawingDemands, TouchDemands, BadWordDemands, Demanded};

use oof_box::question::Reply;

pub mod preview;

// Each function, here and below, takes what the entry takes, since the demand is stated of that call.
pub fn open(
    width: f32,
    height: f32,
    x: f32,
    y: f32,
    direction: u32,
    claims: u32,
    overflow_x: u32,
    overflow_y: u32,
    styles: &[u32],
    candidates: &[u32],
    layouts: &mut [u32],
    working: &mut [u32],
    unclaimed: &mut [u32],
    tally: &mut [u32],
    state: &mut [u32; 28],
    answer: &mut [u32; 10],
) -> u32
    ensures { OpeningDemands (opening_of width height x y direction claims overflow_x overflow_y) candidates.now styles.now (words layouts.old working.old unclaimed.old tally.old state.old answer.old) (returned result layouts.new working.new unclaimed.new tally.new state.new answer.new) }
{
    oof_c::oof_open(
        width, height, x, y, direction, claims, overflow_x, overflow_y, styles, candidates,
        layouts, working, unclaimed, tally, state, answer,
    )
}

pub fn reply_both(
    width: f32,
    height: f32,
    styles: &[u32],
    layouts: &mut [u32],
    working: &mut [u32],
    unclaimed: &mut [u32],
    tally: &mut [u32],
    state: &mut [u32; 28],
    answer: &mut [u32; 10],
) -> u32
    ensures { ReplyDemands (Reply.Both (record { width = width; height = height })) [] styles.now (words layouts.old working.old unclaimed.old tally.old state.old answer.old) (returned result layouts.new working.new unclaimed.new tally.new state.new answer.new) }
{
    oof_c::oof_reply_both(
        width, height, styles, layouts, working, unclaimed, tally, state, answer,
    )
}

pub fn reply_width(
    width: f32,
    styles: &[u32],
    layouts: &mut [u32],
    working: &mut [u32],
    unclaimed: &mut [u32],
    tally: &mut [u32],
    state: &mut [u32; 28],
    answer: &mut [u32; 10],
) -> u32
    ensures { ReplyDemands (Reply.Width width) [] styles.now (words layouts.old working.old unclaimed.old tally.old state.old answer.old) (returned result layouts.new working.new unclaimed.new tally.new state.new answer.new) }
{
    oof_c::oof_reply_width(
        width, styles, layouts, working, unclaimed, tally, state, answer,
    )
}

pub fn reply_height(
    height: f32,
    styles: &[u32],
    layouts: &mut [u32],
    working: &mut [u32],
    unclaimed: &mut [u32],
    tally: &mut [u32],
    state: &mut [u32; 28],
    answer: &mut [u32; 10],
) -> u32
    ensures { ReplyDemands (Reply.Height height) [] styles.now (words layouts.old working.old unclaimed.old tally.old state.old answer.old) (returned result layouts.new working.new unclaimed.new tally.new state.new answer.new) }
{
    oof_c::oof_reply_height(
        height, styles, layouts, working, unclaimed, tally, state, answer,
    )
}

pub fn reply_laid_out(
    left: f32,
    right: f32,
    top: f32,
    bottom: f32,
    surfaced: &[u32],
    styles: &[u32],
    layouts: &mut [u32],
    working: &mut [u32],
    unclaimed: &mut [u32],
    tally: &mut [u32],
    state: &mut [u32; 28],
    answer: &mut [u32; 10],
) -> u32
    ensures { ReplyDemands (Reply.LaidOut (record { left = left; right = right; top = top; bottom = bottom })) surfaced.now styles.now (words layouts.old working.old unclaimed.old tally.old state.old answer.old) (returned result layouts.new working.new unclaimed.new tally.new state.new answer.new) }
{
    oof_c::oof_reply_laid_out(
        left, right, top, bottom, surfaced, styles, layouts, working, unclaimed, tally, state,
        answer,
    )
}

#[tactic(auto, using(crate::proofs::Demands::pixels_demands))]
pub fn pixels(layout: &[u32; 23], x: f32, y: f32, edges: &mut [i32; 4]) -> u32
    ensures { PixelsDemands layout.now (record { x = x; y = y }) edges.old (pixels_returned result edges.new) }
{
    oof_c::oof_pixels(layout, x, y, edges)
}

#[tactic(auto, using(crate::proofs::Demands::reach_demands))]
pub fn reach(
    place: usize,
    styles: &[u32],
    layouts: &[u32],
    working: &[u32],
    unclaimed: &[u32],
    state: &[u32; 28],
    verdict: &mut [u32; 3],
) -> u32
    ensures { ReachDemands place (slices styles.now layouts.now working.now unclaimed.now) state.now verdict.old (reach_returned result verdict.new) }
{
    oof_c::oof_reach(place, styles, layouts, working, unclaimed, state, verdict)
}

#[tactic(auto, using(crate::proofs::Demands::drawing_demands))]
pub fn drawing_order(
    styles: &[u32],
    layouts: &[u32],
    working: &[u32],
    unclaimed: &[u32],
    state: &[u32; 28],
    order: &mut [u32],
) -> u32
    ensures { DrawingDemands (slices styles.now layouts.now working.now unclaimed.now) state.now order.old (drawing_returned result order.new) }
{
    oof_c::oof_drawing_order(styles, layouts, working, unclaimed, state, order)
}

#[tactic(auto, using(crate::proofs::Demands::touch_demands))]
pub fn touch(
    styles: &[u32],
    layouts: &[u32],
    working: &[u32],
    unclaimed: &[u32],
    state: &[u32; 28],
    words: &mut [u32],
) -> u32
    ensures { TouchDemands (slices styles.now layouts.now working.now unclaimed.now) state.now words.old (touch_returned result words.new) }
{
    oof_c::oof_touch(styles, layouts, working, unclaimed, state, words)
}

#[tactic(auto, using(crate::proofs::Demands::bad_word_demands))]
pub fn first_bad_word(styles: &[u32], found: &mut [u32; 2]) -> u32
    ensures { BadWordDemands styles.now found.old (check_returned result found.new) }
{
    oof_c::oof_first_bad_word(styles, found)
}

// No code: what is ensured are the theorems over runs.
pub fn demanded()
    ensures { Demanded }
{}
