// What a C call is lent and leaves, apart from the run itself: the words of a state and of an answer, what a call writes of both, and the
// two words of what a check finds.
#![tactic(auto)]

ghost use Rattle.std.specs.Prelude.{◌≡◌};
ghost use Rattle.oof_c_words.specs.Entry.{result_of, answer_left, state_left, told};

use refusal::Refusal;
use run::{Answer, Step};

pub mod answer;
pub mod check;
pub mod state;

// The result of a call, as the C interface has it: a number. Unless it was refused, its answer is written.
// As `pixels::lent::tell`, but for what is written: one of all three would be given each value's words by a closure, whose promise each contract
// would repeat.
#[tactic(auto, unfolding(crate::specs::Entry::result_of, crate::specs::Entry::answer_left))]
#[inline(always)]
pub fn tell(a: Result<Answer, Refusal>, answer: &mut [u32; answer::ANSWER_WORDS]) -> u32
    ensures { told result answer.new ≡ told (result_of a) (answer_left a answer.old) }
{
    match a {
        Err(refusal) => u32::from(refusal),
        Ok(Answer::Ask(question)) => {
            *answer = answer::question_words(question);
            0
        }
        Ok(Answer::Finish(finish)) => {
            *answer = answer::finish_words(finish);
            0
        }
    }
}

// The state's words after a reply: those of a refused one stay as they came, whatever they are.
// Inlined, here and in `tell`: a live reply and a preview's both call it.
#[tactic(auto, unfolding(crate::specs::Entry::state_left))]
#[inline(always)]
pub fn keep(step: Step, state: &mut [u32; state::STATE_WORDS])
    ensures { state.new ≡ state_left step state.old }
{
    if step.answer.is_ok() {
        *state = state::state_words(step.state);
    }
}
