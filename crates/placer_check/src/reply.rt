// The tests of a reply.
ghost use Rattle.std.specs.Prelude.{◌≡◌, ◌||◌, is_none};
ghost use Rattle.run.specs.Refusals.{other_extents, bad_at_reply, lent_by, bad_candidate, bad_candidates, list_full, wrong_counts};
ghost use Rattle.run.specs.Run.{taken_by, reply_verdict};
ghost use Rattle.placer_check.specs.Verdict.{then_room};

use crate::{lent, refuse_if};
use oof_box::question::{Reply, Taken};
use refusal::Refusal;
use run::{Counts, Extents, Lent, State};
use tree_record::candidate::CANDIDATE_WORDS;

// What is looked at of the surfaced slice: that of a lay-out reply only.
pub(crate) fn lent_by(reply: Reply, surfaced: &[u32]) -> &[u32]
    ensures { result.now ≡ lent_by reply surfaced.now }
{
    match reply {
        Reply::Both(_) | Reply::Width(_) | Reply::Height(_) => &[],
        Reply::LaidOut(_) => surfaced,
    }
}

// A slice of another length than at the opening, the tally among them.
#[tactic(auto, unfolding(run::specs::Refusals::other_lengths))]
fn are_extents_other(e: Extents, lent: &Lent) -> bool
    ensures { result ≡ other_extents e lent.now }
{
    Extents::from(lent) != e
}

// 2: bad extent.
pub(crate) fn are_extents_bad(e: Extents, surfaced: &[u32], lent: &Lent) -> bool
    ensures { result ≡ bad_at_reply e surfaced.now lent.now }
{
    lent::are_slices_bad(&lent.slices)
        || lent::is_tally_bad(lent)
        || are_extents_other(e, lent)
        || lent::is_ragged(surfaced)
}

// ---- 6: wrong reply

// A reply to the open question: kept, or the box is laid out. None: it isn't asked for, or is of another kind.
#[tactic(auto, unfolding(run::specs::Run::taken_by))]
pub fn taken_by(s: &State, reply: Reply) -> Option<Taken>
    ensures { result ≡ taken_by s.now reply }
{
    s.replies.take(s.progress?, reply)
}

// Counts beyond the lists, boxes begun not 1 to the filled working records, a question count above 3 × the boxes begun, or an item's count
// above that.
#[tactic(auto, unfolding(run::specs::Refusals::wrong_counts))]
fn are_counts_wrong(c: Counts, lent: &Lent) -> bool
    ensures { result ≡ wrong_counts lent.now c }
{
    lent::are_above_lists(&lent.slices, c.filled)
        || c.begun == 0
        || c.filled.working < c.begun
        || c.begun.saturating_mul(3) < c.answered
        || lent::is_any_above(lent.tally, c.answered)
}

// Refusal 6.
fn is_reply_wrong(s: &State, reply: Reply, lent: &Lent) -> bool
    ensures { result ≡ (is_none (taken_by s.now reply) || wrong_counts lent.now s.now.counts) }
{
    taken_by(s, reply).is_none() || are_counts_wrong(s.counts, lent)
}

// 4, bad candidate: the filled working records, and those surfaced.
fn are_candidates_bad(filled: usize, surfaced: &[u32], lent: &Lent) -> bool
    ensures { result ≡ (bad_candidate lent.now.styles lent.now.working filled || bad_candidates lent.now.styles surfaced.now) }
{
    let styles = lent.slices.styles;
    lent::is_candidate_bad(styles, lent.slices.working, filled)
        || lent::is_candidate_bad(styles, surfaced, surfaced.len() / CANDIDATE_WORDS)
}

// Tests 2, 6, 3, 4, in that order.
#[inline(always)]
pub fn check_reply(s: &State, reply: Reply, surfaced: &[u32], lent: &Lent) -> Result<(), Refusal>
    ensures { reply_verdict s.now reply surfaced.now lent.now ≡ then_room result (list_full s.now.opened.claims lent.now s.now.counts.filled (lent_by reply surfaced.now)) }
{
    let surfaced = lent_by(reply, surfaced);
    refuse_if(
        are_extents_bad(s.opened.extents, surfaced, lent),
        Refusal::BadExtent,
    )?;
    refuse_if(is_reply_wrong(s, reply, lent), Refusal::WrongReply)?;
    refuse_if(lent::is_style_bad(lent), Refusal::BadStyle)?;
    refuse_if(
        are_candidates_bad(s.counts.filled.working, surfaced, lent),
        Refusal::BadCandidate,
    )
}
