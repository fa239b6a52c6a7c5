// From one question to the next: the box at hand is asked on, or settled; then the next box begins, or the run finishes.
ghost use Rattle.std.specs.Prelude.{◌≡◌, ◌+◌, ◌*◌, ◌-◌, ◌≤◌, ◌<◌, length, get_or, IfOk};
ghost use Rattle.tree_record.specs.Candidate.{candidate_width};
ghost use Rattle.style_record.specs.Record.{style_words};
ghost use Rattle.style_record.specs.Decode.{style_at};
ghost use Rattle.oof_resolve.specs.Resolved.{resolved_box};
ghost use Rattle.oof_box.specs.Cut.{asked_after, layout_after};
ghost use Rattle.run.specs.Call.{lent, outcome};
ghost use Rattle.run.specs.Refusals.{accepted, list_full};
ghost use Rattle.run.specs.Run.{box_at_hand, charged, asking, finishing, proceeding, replied_by};
ghost use Rattle.placer_check.specs.Verdict.{then_room};
ghost use Rattle.placer.specs.Entry.{AtHand, OneMoreFits, ReplyCleared, proceeds};

use geometry::Rect;
use oof_box::dialogue;
use oof_box::question::{Asked, Replies, Reply, Taken};
use oof_place::OofBoxLayout;
use oof_resolve;
use oof_resolve::{ContainingBlock, ResolvedBox};
use refusal::Refusal;
use run::{Answer, Counts, Finish, State, Step};
use style::Style;
use style_record::decode;
use style_record::table::Table;
use tree::layout::OofCandidate;
use tree_record::{candidate, layout};

// The box at hand: the last one begun, as its record says now.
#[tactic(auto, unfolding(run::specs::Run::box_at_hand))]
#[inline(always)]
fn box_at_hand(working: &[u32], counts: Counts) -> OofCandidate
    requires { (1 ≤ counts.begun) × (candidate_width * (counts.begun - 1) + candidate_width ≤ length working.now) }
    ensures { result ≡ box_at_hand working.now counts }
{
    candidate::candidate_at(working, counts.begun - 1)
}

// Its style.
// Inlined, as all that decodes it is: what isn't asked of the style isn't read (bench/README.md).
#[inline(always)]
fn style_of(styles: &Table, candidate: OofCandidate) -> Style
    requires { style_words * candidate.node + style_words ≤ length styles.now }
    ensures { result ≡ style_at styles.now candidate.node }
{
    decode::style_at(styles, candidate.node as usize)
}

// What is resolved of a candidate, by the words of its style.
// A call of its own, as is the next: with its code once, all that a run of one box goes through stays small (bench/README.md), and what it works
// with is off the stack afterwards.
#[inline(never)]
fn resolved_of(container: &ContainingBlock, styles: &Table, candidate: &OofCandidate) -> ResolvedBox
    requires { style_words * candidate.now.node + style_words ≤ length styles.now }
    ensures { result ≡ resolved_box container.now (style_at styles.now candidate.now.node) candidate.now }
{
    oof_resolve::resolve_box(container, &style_of(styles, *candidate), candidate)
}

// What it asks, by the replies kept.
#[inline(never)]
#[tactic(auto, unfolding(oof_box::specs::Cut::asked_after))]
fn question_of(
    container: &ContainingBlock,
    styles: &Table,
    candidate: &OofCandidate,
    replies: Replies,
) -> Asked
    requires { style_words * candidate.now.node + style_words ≤ length styles.now }
    ensures { result ≡ asked_after container.now (style_at styles.now candidate.now.node) candidate.now replies }
{
    let resolved = resolved_of(container, styles, candidate);
    let style = style_of(styles, *candidate);
    dialogue::next_question(candidate.node, &style, &resolved, replies)
}

// Its layout, by the replies kept and its overflow.
#[tactic(auto, unfolding(oof_box::specs::Cut::layout_after))]
fn layout_of(
    container: &ContainingBlock,
    styles: &Table,
    candidate: &OofCandidate,
    replies: Replies,
    overflow: Rect<f32>,
) -> OofBoxLayout
    requires { style_words * candidate.now.node + style_words ≤ length styles.now }
    ensures { result ≡ layout_after container.now (style_at styles.now candidate.now.node) candidate.now replies overflow }
{
    let resolved = resolved_of(container, styles, candidate);
    let style = style_of(styles, *candidate);
    dialogue::layout_oof_box(container, &style, candidate, &resolved, replies, overflow)
}

// The question of the box at hand, by the words as they are and by the replies kept.
// That the box has its records is one clause, here and below: the words are read afresh at each call (document 01), so that a struct with this as
// its invariant would be made anew each time.
#[tactic(auto, unfolding(run::specs::Run::asking, run::specs::Run::box_at_hand))]
#[inline(always)]
fn ask(s: &State, styles: &Table, working: &[u32]) -> Step
    requires { AtHand styles.now working.now s.now.counts.begun }
    ensures { result ≡ asking styles.now working.now s.now.opened s.now.counts s.now.overflow s.now.replies }
{
    let candidate = box_at_hand(working, s.counts);
    let next = question_of(&s.opened.container, styles, &candidate, s.replies);
    Step {
        state: State {
            progress: Some(next.stage),
            ..*s
        },
        answer: Ok(Answer::Ask(next.question)),
    }
}

#[tactic(auto, unfolding(run::specs::Run::finishing))]
#[inline(always)]
fn finish(s: &State) -> Step
    ensures { result ≡ finishing s.now.opened s.now.counts s.now.overflow }
{
    Step {
        state: State {
            progress: None,
            replies: Replies::default(),
            ..*s
        },
        answer: Ok(Answer::Finish(Finish {
            overflow: s.overflow,
            count: s.counts.answered,
        })),
    }
}

// The next box of the working list, from the front; or the finish.
#[tactic(auto, using(std::proofs::lemmas::Bool::Decides::nat_tests), unfolding(run::specs::Run::proceeding))]
#[inline(always)]
pub fn proceed(s: &State, styles: &Table, working: &[u32]) -> Step
    requires { s.now.counts.begun < s.now.counts.filled.working → AtHand styles.now working.now (s.now.counts.begun + 1) }
    ensures { result ≡ proceeding styles.now working.now s.now.opened s.now.counts s.now.overflow }
{
    if s.counts.begun < s.counts.filled.working {
        let next = State {
            replies: Replies::default(),
            counts: Counts {
                begun: s.counts.begun + 1,
                ..s.counts
            },
            ..*s
        };
        return ask(&next, styles, working);
    }
    finish(s)
}

// One more question is answered for this item.
#[tactic(auto, unfolding(run::specs::Run::charged))]
fn charge(tally: &mut [u32], node: u32)
    requires { OneMoreFits tally.old node }
    ensures { tally.new ≡ charged tally.old node }
{
    tally[node as usize] += 1;
}

// A size was replied: its item's count goes up, and the box goes on.
#[inline(always)]
pub fn go_on(
    s: &State,
    replies: Replies,
    styles: &Table,
    working: &[u32],
    tally: &mut [u32],
) -> Step
    requires { AtHand styles.now working.now s.now.counts.begun × OneMoreFits tally.old (box_at_hand working.now s.now.counts).node × (s.now.counts.answered ≤ 3 * s.now.counts.begun) }
    ensures tallied { tally.new ≡ charged tally.old (box_at_hand working.now s.now.counts).node }
    ensures asks { result ≡ asking styles.now working.now s.now.opened (record { filled = s.now.counts.filled; begun = s.now.counts.begun; answered = s.now.counts.answered + 1 }) s.now.overflow replies }
{
    charge(tally, box_at_hand(working, s.counts).node);
    let next = State {
        replies,
        counts: Counts {
            answered: s.counts.answered + 1,
            ..s.counts
        },
        ..*s
    };
    ask(&next, styles, working)
}

// The box at hand is laid out. Room for what it surfaced is decided before its layout is written and its item's count goes up.
#[inline(always)]
pub fn settle(
    s: &State,
    overflow: Rect<f32>,
    surfaced: &[u32],
    styles: &Table,
    layouts: &mut [u32],
    working: &mut [u32],
    unclaimed: &mut [u32],
    tally: &mut [u32],
) -> Result<State, Refusal>
    requires { ReplyCleared s.now (Reply.LaidOut overflow) surfaced.now (lent styles.now layouts.old working.old unclaimed.old tally.old) }
    ensures at_hand { IfOk result (λ next. next.counts.begun < next.counts.filled.working → AtHand styles.now working.new (next.counts.begun + 1)) }
    ensures left { outcome (proceeds s.now styles.now working.new result) layouts.new working.new unclaimed.new tally.new ≡ replied_by (then_room accepted (list_full s.now.opened.claims (lent styles.now layouts.old working.old unclaimed.old tally.old) s.now.counts.filled surfaced.now)) (Some (Taken.Laid overflow)) s.now surfaced.now (lent styles.now layouts.old working.old unclaimed.old tally.old) }
{
    let candidate = box_at_hand(working, s.counts);
    let run = &s.opened;
    let placed = layout_of(&run.container, styles, &candidate, s.replies, overflow);
    let shift = Some(placed.layout.location);
    let held = s.counts.filled;
    let filled = sweep::sweep(run.claims, shift, surfaced, working, unclaimed, held)?;
    layout::write_layout(layouts, candidate.node as usize, placed.layout);
    charge(tally, candidate.node);
    Ok(State {
        counts: Counts {
            filled,
            answered: s.counts.answered + 1,
            ..s.counts
        },
        overflow: s.overflow.union(placed.contribution),
        ..*s
    })
}
