// Whether a call is refused, and for which reason: document 01's table, in its order. Refusal 5 is not among them: the sweep
// decides it, after all of these.
#![tactic(auto)]

ghost use Rattle.std.specs.Prelude.{◌≡◌};
ghost use Rattle.run.specs.Refusals.{◌when◌else◌, accepted};

use refusal::Refusal;

pub mod lent;
pub mod opening;
pub mod preview;
pub mod reply;

// A refusal under its condition.
pub fn refuse_if(bad: bool, refusal: Refusal) -> Result<(), Refusal>
    ensures { result ≡ (refusal when bad else accepted) }
{
    if bad { Err(refusal) } else { Ok(()) }
}
