// What comes next, in 10 lent words, by the table of specs/AnswerWords.antt.
ghost use Rattle.std.specs.Prelude.{◌≡◌};
ghost use Rattle.oof_c_words.specs.AnswerWords.{given, space_kind, space_size, measure_words, lay_out_words, question_words, finish_words};

use crate::state;
use oof_box::question::{LayoutInput, MeasureInput, Question};
use run::Finish;
use style::available_space::AvailableSpace;
use util::bits;

pub const ANSWER_WORDS: usize = 10;

// 1 for a size that is known, else 0: of the C interface, as the kinds and floats below.
#[tactic(auto, unfolding(crate::specs::AnswerWords::given))]
fn given(size: Option<f32>) -> u32
    ensures { result ≡ given size }
{
    u32::from(size.is_some())
}

#[tactic(auto, unfolding(crate::specs::AnswerWords::space_kind))]
fn space_kind(space: AvailableSpace) -> u32
    ensures { result ≡ space_kind space }
{
    match space {
        AvailableSpace::Definite(_) => 0,
        AvailableSpace::MinContent => 1,
        AvailableSpace::MaxContent => 2,
    }
}

#[tactic(auto, unfolding(crate::specs::AnswerWords::space_size))]
fn space_size(space: AvailableSpace) -> f32
    ensures { result ≡ space_size space }
{
    match space {
        AvailableSpace::Definite(size) => size,
        AvailableSpace::MinContent => 0.0,
        AvailableSpace::MaxContent => 0.0,
    }
}

#[tactic(auto, unfolding(crate::specs::AnswerWords::measure_words))]
fn measure_words(kind: u32, ask: MeasureInput) -> [u32; ANSWER_WORDS]
    ensures { result ≡ measure_words kind ask }
{
    [
        kind,
        ask.node,
        given(ask.known.width),
        bits::to_word(ask.known.width.unwrap_or(0.0)),
        given(ask.known.height),
        bits::to_word(ask.known.height.unwrap_or(0.0)),
        space_kind(ask.space.width),
        bits::to_word(space_size(ask.space.width)),
        space_kind(ask.space.height),
        bits::to_word(space_size(ask.space.height)),
    ]
}

// The final size stands where a question's known sizes do.
#[tactic(auto, unfolding(crate::specs::AnswerWords::measure_words, crate::specs::AnswerWords::lay_out_words))]
fn lay_out_words(ask: LayoutInput) -> [u32; ANSWER_WORDS]
    ensures { result ≡ lay_out_words ask }
{
    let input = MeasureInput {
        node: ask.node,
        known: ask.size.some(),
        space: ask.space,
    };
    measure_words(4, input)
}

// The words of a question.
#[tactic(auto, unfolding(crate::specs::AnswerWords::question_words))]
#[inline(always)]
pub fn question_words(question: Question) -> [u32; ANSWER_WORDS]
    ensures { result ≡ question_words question }
{
    match question {
        Question::MeasureBoth(ask) => measure_words(1, ask),
        Question::MeasureWidth(ask) => measure_words(2, ask),
        Question::MeasureHeight(ask) => measure_words(3, ask),
        Question::LayOut(ask) => lay_out_words(ask),
    }
}

// The words of a finish.
#[tactic(auto, unfolding(crate::specs::AnswerWords::finish_words))]
pub fn finish_words(f: Finish) -> [u32; ANSWER_WORDS]
    ensures { result ≡ finish_words f }
{
    [
        0,
        state::count_word(f.count),
        bits::to_word(f.overflow.left),
        bits::to_word(f.overflow.right),
        bits::to_word(f.overflow.top),
        bits::to_word(f.overflow.bottom),
        0,
        0,
        0,
        0,
    ]
}
