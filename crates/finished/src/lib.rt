// What every part that reads a finished run tests first, and how it finds a box's layout. Such a part is lent the slices of a run
// but for the tally, and writes none of them.
#![tactic(auto)]

ghost use Rattle.std.specs.Prelude.{◌≡◌, ◌||◌, ◌+◌, ◌*◌, ◌≤◌, length, is_some};
ghost use Rattle.records.specs.Records.{record_at};
ghost use Rattle.tree_record.specs.Candidate.{candidate_width, candidate_of};
ghost use Rattle.tree_record.specs.Layout.{layout_width};
ghost use Rattle.run.specs.Refusals.{above_lists};
ghost use Rattle.run.specs.Run.{layout_at};
ghost use Rattle.finished.specs.Finished.{finished_verdict};

use placer_check::{lent, refuse_if};
use records::record_at;
use refusal::Refusal;
use run::{Slices, State};
use tree::layout::Layout;
use tree_record::candidate::CANDIDATE_WORDS;

// Refusal 6: an unfinished run, or counts above the lists. Boxes begun and questions answered aren't looked at.
fn is_unfinished(s: &State, lent: &Slices) -> bool
    ensures { result ≡ (is_some s.now.progress || above_lists lent.now.working lent.now.unclaimed s.now.counts.filled) }
{
    s.progress.is_some() || lent::are_above_lists(lent, s.counts.filled)
}

// Tests 2, 6, 4, in that order. `other` is what the part itself calls a bad extent. Inlined in each part, so that of a C state's words and of the
// slices only those go over the stack that the part reads.
#[inline(always)]
pub fn check_finished(s: &State, other: bool, lent: &Slices) -> Result<(), Refusal>
    ensures { result ≡ finished_verdict s.now lent.now other }
{
    refuse_if(
        lent::is_lent_bad(lent, s.opened.extents),
        Refusal::BadExtent,
    )?;
    refuse_if(other, Refusal::BadExtent)?;
    refuse_if(is_unfinished(s, lent), Refusal::WrongReply)?;
    refuse_if(
        lent::is_candidate_bad(lent.styles, lent.working, s.counts.filled.working),
        Refusal::BadCandidate,
    )
}

// The layout at the place of the node of the working list's record `place`.
#[tactic(auto, unfolding(tree_record::specs::Candidate::candidate_of))]
pub fn layout_at(place: usize, layouts: &[u32], working: &[u32]) -> Layout
    requires candidate_width_in_bounds { candidate_width * place + candidate_width ≤ length working.now }
    requires layout_width_in_bounds { layout_width * (candidate_of (record_at candidate_width working.now place)).node + layout_width ≤ length layouts.now }
    ensures { result ≡ layout_at layouts.now working.now place }
{
    let node = record_at::<CANDIDATE_WORDS>(working, place)[0];
    tree_record::layout::layout_at(layouts, node as usize)
}
