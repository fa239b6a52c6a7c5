// The refusals of document 01 and of the change requests: one enum, one definition of their numbers.
#![tactic(auto)]

ghost use Rattle.std.specs.Prelude.{◌≡◌};
ghost use Rattle.refusal.specs.Refusal.{number_of};

#[derive(Clone, Copy, PartialEq, Eq)]
pub enum Refusal {
    BadArea = 1,
    BadExtent = 2,
    BadStyle = 3,
    BadCandidate = 4,
    ListFull = 5,
    WrongReply = 6,
    UnresolvedSide = 7,
    BadScreenLine = 8,
    NotInEighths = 9,
}

// Its number.
impl From<Refusal> for u32 {
    ghost from_gives = { λ refusal n. n ≡ number_of refusal };

    fn from(refusal: Refusal) -> u32 {
        refusal as u32
    }
}
