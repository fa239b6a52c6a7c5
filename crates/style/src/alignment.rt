// style/alignment.rs: self-alignment.
ghost use Rattle.std.specs.Prelude.{◌≡◌};
ghost use Rattle.style.specs.Codes.{keyword_of, safety_of, safety_code, alignment_of};
ghost use Rattle.style.specs.Values.{keyword_relative, self_relative};

use crate::Direction;

// The position keyword, in the Rust's order: 0 to 9 in a record.
#[derive(Clone, Copy, PartialEq, Eq)]
pub enum AlignItemsKeyword {
    Normal,
    Start,
    End,
    FlexStart,
    FlexEnd,
    SelfStart,
    SelfEnd,
    Center,
    Baseline,
    Stretch,
}

// The overflow position.
#[derive(Clone, Copy, PartialEq, Eq)]
pub enum AlignmentSafety {
    Default,
    Unsafe,
    Safe,
}

#[derive(Clone, Copy, PartialEq, Eq)]
pub struct AlignItems {
    pub keyword: AlignItemsKeyword,
    pub safety: AlignmentSafety,
}

// The code of a record: 0 to 9 in the order above.
impl From<u32> for AlignItemsKeyword {
    ghost from_gives = { λ code r. r ≡ keyword_of code };

    fn from(code: u32) -> AlignItemsKeyword {
        match code {
            0 => AlignItemsKeyword::Normal,
            1 => AlignItemsKeyword::Start,
            2 => AlignItemsKeyword::End,
            3 => AlignItemsKeyword::FlexStart,
            4 => AlignItemsKeyword::FlexEnd,
            5 => AlignItemsKeyword::SelfStart,
            6 => AlignItemsKeyword::SelfEnd,
            7 => AlignItemsKeyword::Center,
            8 => AlignItemsKeyword::Baseline,
            _ => AlignItemsKeyword::Stretch,
        }
    }
}

// The code of a record: 0 default, 1 unsafe, 2 safe.
impl From<u32> for AlignmentSafety {
    ghost from_gives = { λ code r. r ≡ safety_of code };

    fn from(code: u32) -> AlignmentSafety {
        match code {
            0 => AlignmentSafety::Default,
            1 => AlignmentSafety::Unsafe,
            _ => AlignmentSafety::Safe,
        }
    }
}

// Its code.
impl From<AlignmentSafety> for u32 {
    ghost from_gives = { λ safety code. code ≡ safety_code safety };

    fn from(safety: AlignmentSafety) -> u32 {
        safety as u32
    }
}

// Self-start and self-end by the containing block's start and end: exchanged where flipped.
fn keyword_relative(keyword: AlignItemsKeyword, flipped: bool) -> AlignItemsKeyword
    ensures { result ≡ keyword_relative keyword flipped }
{
    match keyword {
        AlignItemsKeyword::SelfStart if flipped => AlignItemsKeyword::End,
        AlignItemsKeyword::SelfStart => AlignItemsKeyword::Start,
        AlignItemsKeyword::SelfEnd if flipped => AlignItemsKeyword::Start,
        AlignItemsKeyword::SelfEnd => AlignItemsKeyword::End,
        other => other,
    }
}

impl AlignItems {
    // The two codes of a record. Keyword 10 is absent: normal, and the safety isn't read.
    // No `From`: it would take a bare pair of words.
    pub fn from_codes(keyword: u32, safety: u32) -> AlignItems
        ensures { result ≡ alignment_of keyword safety }
    {
        if keyword == 10 {
            return AlignItems {
                keyword: AlignItemsKeyword::Normal,
                safety: AlignmentSafety::Default,
            };
        }
        AlignItems {
            keyword: AlignItemsKeyword::from(keyword),
            safety: AlignmentSafety::from(safety),
        }
    }

    // Self-start and self-end resolved against the containing block: they change places in the inline axis where the
    // two directions differ.
    // `inline` says which axis it is, as in the Rust, and no step: it is one part of the test.
    pub fn resolve_self_relative(
        self,
        item: Direction,
        container: Direction,
        inline: bool,
    ) -> AlignItems
        ensures { result ≡ self_relative self item container inline }
    {
        AlignItems {
            keyword: keyword_relative(self.keyword, inline && item != container),
            ..self
        }
    }
}
