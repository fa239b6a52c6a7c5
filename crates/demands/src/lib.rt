// The demands that speak of one call, stated of the entries themselves: each function here but the last is a call of an entry
// and nothing else, and ensures what is demanded of it. Those that speak of runs are theorems (specs/Demands.antt); they suppose of each
// call what is ensured here.
#![tactic(auto)]

ghost use Rattle.std.specs.Prelude.{◌≡◌};
ghost use Rattle.oof_axis.specs.StaticOffset.{static_offset};
ghost use Rattle.run.specs.Call.{lent, outcome};
ghost use Rattle.demands.specs.Demands.{OpeningDemands, ReplyDemands, PreviewOpeningDemands, PreviewReplyDemands, AlignmentDemands, PixelsDemands, ReachDemands, DrawingDemands, TouchDemands, CheckDemands, ScreenDemands, Demanded};

use boxlist_print::{LIST_BYTES, Listing};
use geometry::{Line, Point, Rect, Size};
use oof_box::question::Reply;
use reach::Offsets;
use refusal::Refusal;
use run::{Opening, Slices, State, Step};
use style::alignment::AlignItems;
use style_record::check::BadWord;
use style_record::table::Table;
use tree::layout::{AxisStaticPosition, Layout};

// Each function, here and below, takes what the entry takes, since the demand is stated of that call.
pub fn open(
    o: Opening,
    styles: &[u32],
    candidates: &[u32],
    layouts: &mut [u32],
    working: &mut [u32],
    unclaimed: &mut [u32],
    tally: &mut [u32],
) -> Step
    ensures { OpeningDemands o candidates.now (lent styles.now layouts.old working.old unclaimed.old tally.old) (outcome result layouts.new working.new unclaimed.new tally.new) }
{
    placer::open(o, styles, candidates, layouts, working, unclaimed, tally)
}

pub fn reply(
    s: State,
    reply: Reply,
    surfaced: &[u32],
    styles: &[u32],
    layouts: &mut [u32],
    working: &mut [u32],
    unclaimed: &mut [u32],
    tally: &mut [u32],
) -> Step
    ensures { ReplyDemands s reply surfaced.now (lent styles.now layouts.old working.old unclaimed.old tally.old) (outcome result layouts.new working.new unclaimed.new tally.new) }
{
    placer::reply(
        s, reply, surfaced, styles, layouts, working, unclaimed, tally,
    )
}

// Request #109.
pub fn preview_open(
    o: Opening,
    styles: &[u32],
    node: u32,
    style: &[u32],
    candidates: &[u32],
    layouts: &mut [u32],
    working: &mut [u32],
    unclaimed: &mut [u32],
    tally: &mut [u32],
) -> Step
    ensures { PreviewOpeningDemands o candidates.now node style.now (lent styles.now layouts.old working.old unclaimed.old tally.old) (outcome result layouts.new working.new unclaimed.new tally.new) }
{
    placer::preview::open(
        o, styles, node, style, candidates, layouts, working, unclaimed, tally,
    )
}

pub fn preview_reply(
    s: State,
    reply: Reply,
    surfaced: &[u32],
    styles: &[u32],
    node: u32,
    style: &[u32],
    layouts: &mut [u32],
    working: &mut [u32],
    unclaimed: &mut [u32],
    tally: &mut [u32],
) -> Step
    ensures { PreviewReplyDemands s reply surfaced.now node style.now (lent styles.now layouts.old working.old unclaimed.old tally.old) (outcome result layouts.new working.new unclaimed.new tally.new) }
{
    placer::preview::reply(
        s, reply, surfaced, styles, node, style, layouts, working, unclaimed, tally,
    )
}

#[tactic(auto, using(crate::proofs::Demands::alignment_demands))]
pub fn from_alignment(
    alignment: AlignItems,
    area: Line<f32>,
    rtl: bool,
) -> Result<AxisStaticPosition, Refusal>
    ensures { AlignmentDemands alignment area rtl result }
{
    AxisStaticPosition::from_alignment(alignment, area, rtl)
}

#[tactic(auto, using(crate::proofs::Demands::pixels_demands))]
pub fn pixel_edges(layout: Layout, offset: Point<f32>) -> Result<Rect<i32>, Refusal>
    ensures { PixelsDemands layout offset result }
{
    pixels::pixel_edges(layout, offset)
}

#[tactic(auto, using(crate::proofs::Demands::reach_demands))]
pub fn reach(place: usize, s: State, lent: &Slices) -> Result<Option<Offsets>, Refusal>
    ensures { ReachDemands place s lent.now result }
{
    reach::reach(place, s, lent)
}

#[tactic(auto, using(crate::proofs::Demands::drawing_demands))]
pub fn drawing_order(s: State, lent: &Slices, order: &mut [u32]) -> Result<(), Refusal>
    ensures { DrawingDemands s lent.now order.old (record { verdict = result; order = order.new }) }
{
    drawing::drawing_order(s, lent, order)
}

#[tactic(auto, using(crate::proofs::Demands::touch_demands))]
pub fn touch(s: State, lent: &Slices, words: &mut [u32]) -> Result<(), Refusal>
    ensures { TouchDemands s lent.now words.old (record { verdict = result; words = words.new }) }
{
    touch::touch(s, lent, words)
}

// These two refuse nothing.
#[tactic(auto, using(crate::proofs::Demands::check_demands))]
pub fn check_styles(styles: &[u32]) -> Result<(), BadWord>
    ensures { CheckDemands styles.now result }
{
    style_record::check::check_styles(&Table::from(styles))
}

pub fn resolve_static_offset(
    place: Point<AxisStaticPosition>,
    size: Size<f32>,
    margin: Rect<f32>,
) -> Point<f32>
    ensures { result ≡ static_offset place size margin }
{
    oof_axis::resolve_static_offset(place, size, margin)
}

// What `boxlist` and `boxreach` print.
pub fn list_screen(listing: Listing, text: &[u8], out: &mut [u8; LIST_BYTES]) -> usize
    ensures { ScreenDemands listing text.now result out.old out.new }
{
    boxlist_print::list_screen(listing, text, out)
}

// No code: what is ensured are the theorems over runs.
pub fn demanded()
    ensures { Demanded }
{}
