// What is told of a table's check in two lent words: an item, and which of its words.
ghost use Rattle.std.specs.Prelude.{◌≡◌};
ghost use Rattle.oof_c_words.specs.CheckWords.{check_told};

use crate::state::count_word;
use style_record::check::BadWord;

pub const FOUND: usize = 2;

// As the C interface has it: 1, and item and word are written, if a word breaks a rule; else 0, and nothing is.
#[tactic(auto, unfolding(crate::specs::CheckWords::check_told))]
pub fn tell(check: Result<(), BadWord>, found: &mut [u32; FOUND]) -> u32
    ensures { record { result = result; found = found.new } ≡ check_told check found.old }
{
    match check {
        Ok(()) => 0,
        Err(bad) => {
            *found = [count_word(bad.item), count_word(bad.word)];
            1
        }
    }
}
