// compute/oof.rs, `compute_oof_layout_for_area` as a dialogue: a host opens a run over lent words, then answers one question
// after another until the run finishes.
#![tactic(auto)]

ghost use Rattle.std.specs.Prelude.{◌≡◌};
ghost use Rattle.run.specs.Call.{lent, outcome};
ghost use Rattle.run.specs.Run.{closed, opened, replied};
ghost use Rattle.placer.specs.Entry.{step_by, pass_needed, overflow_after};

use geometry::Rect;
use oof_box::question::{Reply, Taken};
use oof_resolve::ContainingBlock;
use placer_check::{opening, reply as answer};
use refusal::Refusal;
use run::{Counts, Extents, Lent, Opened, Opening, Slices, State, Step};
use style::ContainingBlockClaims;
use style_record::table::Table;
use tree::layout::OofPositioningArea;

mod boxes;
pub mod preview;

// What a call returns: its step; or, where it is refused, this state, and why.
fn step_by(state: &State, step: Result<Step, Refusal>) -> Step
    ensures { result ≡ step_by state.now step }
{
    match step {
        Ok(step) => step,
        Err(refusal) => Step {
            state: *state,
            answer: Err(refusal),
        },
    }
}

// ---- an opening

// The state of a finished run with all counts 0, and the lengths as lent.
#[tactic(auto, unfolding(run::specs::Run::closed))]
fn closed(lent: &Lent) -> State
    ensures { result ≡ closed lent.now }
{
    State {
        opened: Opened {
            extents: Extents::from(lent),
            ..Opened::default()
        },
        ..State::default()
    }
}

// The opening is checked, the candidates are swept and the tally is cleared, then the first box begins. `before` is the state of a refused
// opening. Inlined, as `take` below: a live call and a preview's both have it, and a function with two callers has the state and the answer written to
// memory and read again (bench/README.md).
#[inline(always)]
fn begin(
    before: &State,
    o: Opening,
    styles: &Table,
    candidates: &[u32],
    layouts: &[u32],
    working: &mut [u32],
    unclaimed: &mut [u32],
    tally: &mut [u32],
) -> Result<Step, Refusal>
    requires { before.now ≡ closed (lent styles.now layouts.now working.old unclaimed.old tally.old) }
    ensures { outcome (step_by before.now result) layouts.now working.new unclaimed.new tally.new ≡ opened o candidates.now (lent styles.now layouts.now working.old unclaimed.old tally.old) }
{
    let slices = Slices {
        styles,
        layouts,
        working,
        unclaimed,
    };
    opening::check_opening(o, candidates, &Lent { slices, tally })?;
    let claims = ContainingBlockClaims::from(o.claims);
    let held = before.counts.filled;
    let filled = sweep::sweep(claims, None, candidates, working, unclaimed, held)?;
    tally.fill(0);
    let next = State {
        counts: Counts {
            filled,
            ..before.counts
        },
        opened: Opened {
            container: ContainingBlock::from(o),
            claims,
            ..before.opened
        },
        ..*before
    };
    Ok(boxes::proceed(&next, styles, working))
}

// Opens a run.
// What a call writes is lent slice by slice, here, below and in crates above: of `&mut` slices in a struct, the lender learns no words after it.
// What it reads stands beside: the opening's numbers go into the state, and its candidates are lent at the opening alone.
pub fn open(
    o: Opening,
    styles: &[u32],
    candidates: &[u32],
    layouts: &mut [u32],
    working: &mut [u32],
    unclaimed: &mut [u32],
    tally: &mut [u32],
) -> Step
    ensures { outcome result layouts.new working.new unclaimed.new tally.new ≡ opened o candidates.now (lent styles.now layouts.old working.old unclaimed.old tally.old) }
{
    let styles = &Table::from(styles);
    let slices = Slices {
        styles,
        layouts,
        working,
        unclaimed,
    };
    let before = closed(&Lent { slices, tally });
    let opened = begin(
        &before, o, styles, candidates, layouts, working, unclaimed, tally,
    );
    step_by(&before, opened)
}

// ---- a reply

// A reply that is checked goes to the box at hand.
#[inline(always)]
fn take(
    s: &State,
    reply: Reply,
    surfaced: &[u32],
    styles: &Table,
    layouts: &mut [u32],
    working: &mut [u32],
    unclaimed: &mut [u32],
    tally: &mut [u32],
) -> Result<Step, Refusal>
    ensures { outcome (step_by s.now result) layouts.new working.new unclaimed.new tally.new ≡ replied s.now reply surfaced.now (lent styles.now layouts.old working.old unclaimed.old tally.old) }
{
    let slices = Slices {
        styles,
        layouts,
        working,
        unclaimed,
    };
    answer::check_reply(s, reply, surfaced, &Lent { slices, tally })?;
    match answer::taken_by(s, reply).ok_or(Refusal::WrongReply)? {
        Taken::Kept(replies) => Ok(boxes::go_on(s, replies, styles, working, tally)),
        Taken::Laid(overflow) => {
            let next = boxes::settle(
                s, overflow, surfaced, styles, layouts, working, unclaimed, tally,
            )?;
            Ok(boxes::proceed(&next, styles, working))
        }
    }
}

// Takes the reply to the open question. The surfaced slice is that of a lay-out reply; one lent with another is not looked at. It is a parameter
// of its own, here and below the entries: document 01 has a slice lent with each kind of reply, so that it is no part of `Reply::LaidOut`.
pub fn reply(
    s: State,
    reply: Reply,
    surfaced: &[u32],
    styles: &[u32],
    layouts: &mut [u32],
    working: &mut [u32],
    unclaimed: &mut [u32],
    tally: &mut [u32],
) -> Step
    ensures { outcome result layouts.new working.new unclaimed.new tally.new ≡ replied s reply surfaced.now (lent styles.now layouts.old working.old unclaimed.old tally.old) }
{
    let styles = &Table::from(styles);
    let taken = take(
        &s, reply, surfaced, styles, layouts, working, unclaimed, tally,
    );
    step_by(&s, taken)
}

// ---- `compute_oof_layout`'s own part

// Whether there is anything to place: an area, and candidates.
pub fn is_pass_needed(area: Option<OofPositioningArea>, candidates: &[u32]) -> bool
    ensures { result ≡ pass_needed area candidates.now }
{
    area.is_some() && !candidates.is_empty()
}

// The caller's overflow rectangle after the pass: joined with that of the finish; without an area or candidates, as it came.
pub fn compute_oof_layout(
    area: Option<OofPositioningArea>,
    candidates: &[u32],
    overflow: Rect<f32>,
    finish: Rect<f32>,
) -> Rect<f32>
    ensures { result ≡ overflow_after area candidates.now overflow finish }
{
    if is_pass_needed(area, candidates) {
        return overflow.union(finish);
    }
    overflow
}
