// A field of the screen file, and the word it stands for.
ghost use Rattle.std.specs.Prelude.{◌≡◌, ◌≤◌, length};
ghost use Rattle.screen_fields.specs.Format.{COLUMNS};
ghost use Rattle.screen_fields.specs.Field.{unblank, spelled_size, unsigned, signed, numeral_of, code_of, present_word, float_of, word_of};

use crate::format::{COLUMNS, Kind};
use util::eighths::Count;
use util::{bits, eighths};

// The field without the blanks in front.
#[tactic(auto, unfolding(crate::specs::Field::unblank))]
fn unblank(field: &[u8]) -> &[u8]
    ensures rest { result.now ≡ unblank field.now }
    ensures bound { length result.now ≤ length field.now }
{
    let mut rest = field;
    while let [b' ', after @ ..] = rest {
        rest = after;
    }
    rest
}

// The size that one or more digits spell, with nothing else.
// By a loop: std's `parse` takes a plus before the digits, and only a loop's invariant bounds the sum at each step, as a `try_fold` would need.
#[tactic(auto, unfolding(crate::specs::Field::spelled_size, crate::specs::Field::spelled, crate::specs::Field::is_digit))]
fn spelled_size(digits: &[u8]) -> Option<u64>
    requires { length digits.now ≤ COLUMNS }
    ensures { result ≡ spelled_size digits.now }
{
    if digits.is_empty() {
        return None;
    }
    let mut size: u64 = 0;
    for b in digits {
        if !b.is_ascii_digit() {
            return None;
        }
        size = size * 10 + u64::from(*b - b'0');
    }
    Some(size)
}

// Whether a minus stands in front, and what stands behind the sign, if there is one.
#[tactic(auto, unfolding(crate::specs::Field::signed, crate::specs::Field::unsigned, crate::specs::Field::spelled_size))]
fn split_sign(field: &[u8]) -> (bool, &[u8])
    ensures sign { signed field.now ≡ unsigned result.0 result.1.now }
    ensures bound { length result.1.now ≤ length field.now }
{
    match field {
        [b'-', digits @ ..] => (true, digits),
        [b'+', digits @ ..] => (false, digits),
        digits => (false, digits),
    }
}

// What a field spells, or none.
#[tactic(auto, unfolding(crate::specs::Field::numeral_of, crate::specs::Field::unsigned))]
fn numeral_of(field: &[u8; COLUMNS]) -> Option<Count>
    ensures { result ≡ numeral_of field.now }
{
    let (negative, digits) = split_sign(unblank(field));
    let size = spelled_size(digits)?;
    Some(Count { negative, size })
}

// A code: a whole number that a word holds.
#[tactic(auto, unfolding(crate::specs::Field::code_of))]
fn code_of(numeral: Option<Count>) -> Option<u32>
    ensures { result ≡ code_of numeral }
{
    let count = numeral?;
    if count.negative && count.size != 0 {
        return None;
    }
    u32::try_from(count.size).ok()
}

#[tactic(auto, unfolding(crate::specs::Field::present_word))]
fn present_word(x: Option<f32>) -> Option<u32>
    ensures { result ≡ present_word x }
{
    x.map(bits::to_word)
}

// A float, by its eighths.
#[tactic(auto, unfolding(crate::specs::Field::float_of))]
fn float_of(numeral: Option<Count>) -> Option<u32>
    ensures { result ≡ float_of numeral }
{
    let count = numeral?;
    present_word(eighths::from_eighths(count))
}

// The word that a field stands for, or none. A match of two: which kind a field has is known only by its place in a line, when it is read.
#[tactic(auto, unfolding(crate::specs::Field::word_of))]
pub fn word_of(field: &[u8; COLUMNS], kind: Kind) -> Option<u32>
    ensures { result ≡ word_of kind field.now }
{
    let numeral = numeral_of(field);
    match kind {
        Kind::Code => code_of(numeral),
        Kind::Eighths => float_of(numeral),
    }
}
