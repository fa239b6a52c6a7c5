// The tests of a preview's own (request #109), and those before them. All others are the call's, over the copy of the table.
ghost use Rattle.std.specs.Prelude.{◌≡◌, ◌||◌};
ghost use Rattle.run.specs.Refusals.{bad_at_opening, bad_at_reply};
ghost use Rattle.run.specs.Preview.{bad_replacement, bad_node, opening_before_copy, reply_before_copy};

use crate::{opening, refuse_if, reply as answer};
use oof_box::question::Reply;
use refusal::Refusal;
use run::{Extents, Lent, Opening, State};
use style_record::words::STYLE_WORDS;

// 2: a replacement that isn't one style record.
fn is_replacement_bad(style: &[u32]) -> bool
    ensures { result ≡ bad_replacement style.now }
{
    style.len() != STYLE_WORDS
}

// 2, of an opening.
fn are_opening_extents_bad(candidates: &[u32], style: &[u32], lent: &Lent) -> bool
    ensures { result ≡ (bad_at_opening candidates.now lent.now || bad_replacement style.now) }
{
    opening::are_extents_bad(candidates, lent) || is_replacement_bad(style)
}

// 2, of a reply.
fn are_reply_extents_bad(e: Extents, surfaced: &[u32], style: &[u32], lent: &Lent) -> bool
    ensures { result ≡ (bad_at_reply e surfaced.now lent.now || bad_replacement style.now) }
{
    answer::are_extents_bad(e, surfaced, lent) || is_replacement_bad(style)
}

// 4: a node that isn't below n.
fn is_node_bad(node: u32, lent: &Lent) -> bool
    ensures { result ≡ bad_node lent.now.styles node }
{
    lent.slices.styles.items() <= node as usize
}

// Tests 1 and 2, then the node.
pub fn check_opening(
    o: Opening,
    candidates: &[u32],
    node: u32,
    style: &[u32],
    lent: &Lent,
) -> Result<(), Refusal>
    ensures { result ≡ opening_before_copy o candidates.now node style.now lent.now }
{
    refuse_if(opening::is_area_bad(o), Refusal::BadArea)?;
    refuse_if(
        are_opening_extents_bad(candidates, style, lent),
        Refusal::BadExtent,
    )?;
    refuse_if(is_node_bad(node, lent), Refusal::BadCandidate)
}

// Test 2, then the node.
pub fn check_reply(
    s: &State,
    reply: Reply,
    surfaced: &[u32],
    node: u32,
    style: &[u32],
    lent: &Lent,
) -> Result<(), Refusal>
    ensures { result ≡ reply_before_copy s.now reply surfaced.now node style.now lent.now }
{
    let surfaced = answer::lent_by(reply, surfaced);
    refuse_if(
        are_reply_extents_bad(s.opened.extents, surfaced, style, lent),
        Refusal::BadExtent,
    )?;
    refuse_if(is_node_bad(node, lent), Refusal::BadCandidate)
}
