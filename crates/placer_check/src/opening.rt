// The tests of an opening.
ghost use Rattle.std.specs.Prelude.{◌≡◌};
ghost use Rattle.run.specs.Refusals.{bad_area, bad_at_opening, bad_candidates, list_full};
ghost use Rattle.run.specs.Run.{claims_of, none_filled, opening_verdict};
ghost use Rattle.placer_check.specs.Verdict.{then_room};

use crate::{lent, refuse_if};
use refusal::Refusal;
use run::{Lent, Opening};
use tree_record::candidate::CANDIDATE_WORDS;

// 1: bad area. Codes only: any number is accepted.
#[tactic(auto, unfolding(run::specs::Refusals::bad_area))]
pub(crate) fn is_area_bad(o: Opening) -> bool
    ensures { result ≡ bad_area o }
{
    1 < o.direction || 3 < o.claims || 3 < o.overflowx || 3 < o.overflowy
}

// 2: bad extent.
pub(crate) fn are_extents_bad(candidates: &[u32], lent: &Lent) -> bool
    ensures { result ≡ bad_at_opening candidates.now lent.now }
{
    lent::are_slices_bad(&lent.slices) || lent::is_tally_bad(lent) || lent::is_ragged(candidates)
}

// 4: bad candidate.
fn are_candidates_bad(candidates: &[u32], lent: &Lent) -> bool
    ensures { result ≡ bad_candidates lent.now.styles candidates.now }
{
    lent::is_candidate_bad(
        lent.slices.styles,
        candidates,
        candidates.len() / CANDIDATE_WORDS,
    )
}

// Tests 1, 2, 3, 4, in that order.
#[inline(always)]
pub fn check_opening(o: Opening, candidates: &[u32], lent: &Lent) -> Result<(), Refusal>
    ensures { opening_verdict o candidates.now lent.now ≡ then_room result (list_full (claims_of o) lent.now none_filled candidates.now) }
{
    refuse_if(is_area_bad(o), Refusal::BadArea)?;
    refuse_if(are_extents_bad(candidates, lent), Refusal::BadExtent)?;
    refuse_if(lent::is_style_bad(lent), Refusal::BadStyle)?;
    refuse_if(are_candidates_bad(candidates, lent), Refusal::BadCandidate)
}
