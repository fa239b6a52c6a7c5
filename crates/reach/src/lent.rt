// What is told of a box in three lent words: 1 seen or 0 unseen, then the offsets across and down.
ghost use Rattle.std.specs.Prelude.{◌≡◌};
ghost use Rattle.reach.specs.Told.{verdict_told};

use crate::Offsets;
use refusal::Refusal;

pub const VERDICT: usize = 3;

// The result of a call, as the C interface has it: a number. Unless it was refused, the verdict is written.
// As `pixels::lent::tell`, but for what is written: one of all three would be given each value's words by a closure, whose promise each contract
// would repeat.
#[tactic(auto, unfolding(crate::specs::Told::verdict_told))]
pub fn tell(reached: Result<Option<Offsets>, Refusal>, verdict: &mut [u32; VERDICT]) -> u32
    ensures { record { result = result; verdict = verdict.new } ≡ verdict_told reached verdict.old }
{
    match reached {
        Ok(Some(offsets)) => {
            *verdict = [1, offsets.across, offsets.down];
            0
        }
        Ok(None) => {
            *verdict = [0, 0, 0];
            0
        }
        Err(refusal) => u32::from(refusal),
    }
}
