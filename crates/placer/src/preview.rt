// Previews (request #109): at each call one replacement style for one node. What is its own is tested first; then the call is that over a copy of
// the table with that style written in, which is read in place. Styles and replacement are only read, and the live run's slices aren't lent.
ghost use Rattle.std.specs.Prelude.{◌≡◌};
ghost use Rattle.run.specs.Call.{lent, outcome};
ghost use Rattle.run.specs.Run.{closed};
ghost use Rattle.run.specs.Preview.{preview_opened, preview_replied};
ghost use Rattle.placer.specs.Entry.{step_by};

use oof_box::question::Reply;
use placer_check::preview;
use records::record_at;
use refusal::Refusal;
use run::{Lent, Opening, Slices, State, Step};
use style_record::table::Table;

// `before` is the state of a refused opening.
fn begin(
    before: &State,
    o: Opening,
    styles: &[u32],
    node: u32,
    style: &[u32],
    candidates: &[u32],
    layouts: &[u32],
    working: &mut [u32],
    unclaimed: &mut [u32],
    tally: &mut [u32],
) -> Result<Step, Refusal>
    requires { before.now ≡ closed (lent styles.now layouts.now working.old unclaimed.old tally.old) }
    ensures { outcome (step_by before.now result) layouts.now working.new unclaimed.new tally.new ≡ preview_opened o candidates.now node style.now (lent styles.now layouts.now working.old unclaimed.old tally.old) }
{
    let slices = Slices {
        styles: &Table::from(styles),
        layouts,
        working,
        unclaimed,
    };
    preview::check_opening(o, candidates, node, style, &Lent { slices, tally })?;
    let copy = Table::with_style(styles, node, record_at(style, 0));
    crate::begin(
        before, o, &copy, candidates, layouts, working, unclaimed, tally,
    )
}

// Opens a preview.
pub fn open(
    o: Opening,
    styles: &[u32],
    node: u32,
    style: &[u32],
    candidates: &[u32],
    layouts: &mut [u32],
    working: &mut [u32],
    unclaimed: &mut [u32],
    tally: &mut [u32],
) -> Step
    ensures { outcome result layouts.new working.new unclaimed.new tally.new ≡ preview_opened o candidates.now node style.now (lent styles.now layouts.old working.old unclaimed.old tally.old) }
{
    let slices = Slices {
        styles: &Table::from(styles),
        layouts,
        working,
        unclaimed,
    };
    let before = crate::closed(&Lent { slices, tally });
    let opened = begin(
        &before, o, styles, node, style, candidates, layouts, working, unclaimed, tally,
    );
    crate::step_by(&before, opened)
}

fn take(
    s: &State,
    reply: Reply,
    surfaced: &[u32],
    styles: &[u32],
    node: u32,
    style: &[u32],
    layouts: &mut [u32],
    working: &mut [u32],
    unclaimed: &mut [u32],
    tally: &mut [u32],
) -> Result<Step, Refusal>
    ensures { outcome (step_by s.now result) layouts.new working.new unclaimed.new tally.new ≡ preview_replied s.now reply surfaced.now node style.now (lent styles.now layouts.old working.old unclaimed.old tally.old) }
{
    let slices = Slices {
        styles: &Table::from(styles),
        layouts,
        working,
        unclaimed,
    };
    preview::check_reply(s, reply, surfaced, node, style, &Lent { slices, tally })?;
    let copy = Table::with_style(styles, node, record_at(style, 0));
    crate::take(
        s, reply, surfaced, &copy, layouts, working, unclaimed, tally,
    )
}

// Takes the reply to a preview's open question.
pub fn reply(
    s: State,
    reply: Reply,
    surfaced: &[u32],
    styles: &[u32],
    node: u32,
    style: &[u32],
    layouts: &mut [u32],
    working: &mut [u32],
    unclaimed: &mut [u32],
    tally: &mut [u32],
) -> Step
    ensures { outcome result layouts.new working.new unclaimed.new tally.new ≡ preview_replied s reply surfaced.now node style.now (lent styles.now layouts.old working.old unclaimed.old tally.old) }
{
    let taken = take(
        &s, reply, surfaced, styles, node, style, layouts, working, unclaimed, tally,
    );
    crate::step_by(&s, taken)
}
