// A run played out with scripted replies: for each item the host's replies stand written down beforehand, and no box surfaces
// any (document 01, "Program boxlist": measured width and height, then overflow left, right, top, bottom).
#![tactic(auto)]

ghost use Rattle.std.specs.Prelude.{◌≡◌, ◌<◌};
ghost use Rattle.screen_fields.specs.Format.{reply_width};
ghost use Rattle.run.specs.Call.{outcome, lent};
ghost use Rattle.script.specs.Script.{scripted, scripted_size, scripted_overflow, scripted_reply, played_on, played_out};

use geometry::{Rect, Size};
use oof_box::question::{Question, Reply};
use run::{Answer, Opening, Step};
use screen_fields::format::REPLY_WORDS;
use tree_record::candidate::CANDIDATE_WORDS;
use util::bits;

// At most two questions to measure a box, then one to lay it out.
const QUESTIONS: usize = 3;

// The float of word k of a node's replies; 0 beyond their end, as the definition reads them: each question gets a reply, also one of a node
// whose record is not whole or not there.
#[tactic(auto, unfolding(crate::specs::Script::scripted))]
fn scripted(replies: &[u32], node: u32, k: usize) -> f32
    requires { k < reply_width }
    ensures { result ≡ scripted replies.now node k }
{
    let word = replies.get(REPLY_WORDS * node as usize + k);
    bits::from_word(word.copied().unwrap_or(0))
}

// Document 01 names these words in a screen's item line, here and below.
fn scripted_size(replies: &[u32], node: u32) -> Size<f32>
    ensures { result ≡ scripted_size replies.now node }
{
    Size {
        width: scripted(replies, node, 0),
        height: scripted(replies, node, 1),
    }
}

fn scripted_overflow(replies: &[u32], node: u32) -> Rect<f32>
    ensures { result ≡ scripted_overflow replies.now node }
{
    Rect {
        left: scripted(replies, node, 2),
        right: scripted(replies, node, 3),
        top: scripted(replies, node, 4),
        bottom: scripted(replies, node, 5),
    }
}

// The reply to a question: of its kind, by the words of its node.
fn scripted_reply(replies: &[u32], question: Question) -> Reply
    ensures { result ≡ scripted_reply replies.now question }
{
    match question {
        Question::MeasureBoth(input) => Reply::Both(scripted_size(replies, input.node)),
        Question::MeasureWidth(input) => Reply::Width(scripted(replies, input.node, 0)),
        Question::MeasureHeight(input) => Reply::Height(scripted(replies, input.node, 1)),
        Question::LayOut(input) => Reply::LaidOut(scripted_overflow(replies, input.node)),
    }
}

// Gives the open question its scripted reply; a finish or a refusal stays.
#[tactic(auto, unfolding(crate::specs::Script::played_on, run::specs::Theorems::next))]
fn play_on(
    step: Step,
    replies: &[u32],
    styles: &[u32],
    layouts: &mut [u32],
    working: &mut [u32],
    unclaimed: &mut [u32],
    tally: &mut [u32],
) -> Step
    ensures { outcome result layouts.new working.new unclaimed.new tally.new ≡ played_on replies.now styles.now (outcome step layouts.old working.old unclaimed.old tally.old) }
{
    if let Ok(Answer::Ask(question)) = step.answer {
        let reply = scripted_reply(replies, question);
        return placer::reply(
            step.state,
            reply,
            &[],
            styles,
            layouts,
            working,
            unclaimed,
            tally,
        );
    }
    step
}

// Opens a run and plays it out.
pub fn play_out(
    o: Opening,
    replies: &[u32],
    styles: &[u32],
    candidates: &[u32],
    layouts: &mut [u32],
    working: &mut [u32],
    unclaimed: &mut [u32],
    tally: &mut [u32],
) -> Step
    ensures { outcome result layouts.new working.new unclaimed.new tally.new ≡ played_out o replies.now candidates.now (lent styles.now layouts.old working.old unclaimed.old tally.old) }
{
    let mut step = placer::open(o, styles, candidates, layouts, working, unclaimed, tally);
    for _ in 0..QUESTIONS * (candidates.len() / CANDIDATE_WORDS) {
        step = play_on(step, replies, styles, layouts, working, unclaimed, tally);
    }
    step
}
