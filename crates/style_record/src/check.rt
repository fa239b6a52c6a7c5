// Refusal 3: a code or tag not allowed in its field, in any word of any item of the table.
ghost use Rattle.std.specs.Prelude.{◌≡◌, ◌-◌, ◌≤◌, ◌<◌, slice_index};
ghost use Rattle.style_record.specs.Record.{after_lengths, style_words, kind_of};
ghost use Rattle.style_record.specs.Check.{breaks_rule, checked};
ghost use Rattle.style_record.specs.Codes.{last_code, is_ignored};

use crate::table::Table;
use crate::words;
use crate::words::STYLE_WORDS;
use style::resolve::Field;

// The first item of a table with a word that breaks a rule, and its first such word, in record order from 0.
#[derive(Clone, Copy)]
pub struct BadWord {
    pub item: usize,
    pub word: usize,
}

// The last code of word k, after the lengths. By the word's number, here and below: an enum of the kinds would be made of the number by the same
// match, only to be matched once more. The ratio and the scrollbar width are floats, which may be any word.
#[tactic(auto, unfolding(crate::specs::Codes::last_code, crate::specs::Record::kind_of, crate::specs::Record::length_kinds, crate::specs::Record::code_kinds))]
fn last_code(k: usize) -> u32
    ensures { result ≡ last_code (kind_of k) }
{
    match k {
        words::RATIO_PRESENT => 1,
        words::BOX_SIZING => 1,
        words::FLAGS => 3,
        words::DIRECTION => 1,
        words::JUSTIFY => 10,
        words::JUSTIFY_SAFETY => 2,
        words::ALIGN => 10,
        words::ALIGN_SAFETY => 2,
        words::OVERFLOW_X => 3,
        words::OVERFLOW_Y => 3,
        words::CONTAIN => 255,
        _ => u32::MAX,
    }
}

// Whether word k, after the lengths, is the safety of an absent keyword.
#[tactic(auto, unfolding(crate::specs::Codes::is_ignored, crate::specs::Record::kind_of, crate::specs::Record::length_kinds, crate::specs::Record::code_kinds))]
fn is_ignored(item: &[u32; STYLE_WORDS], k: usize) -> bool
    ensures { result ≡ is_ignored (kind_of k) (slice_index item.now (k - 1)) }
{
    match k {
        words::JUSTIFY_SAFETY => item[words::JUSTIFY] == 10,
        words::ALIGN_SAFETY => item[words::ALIGN] == 10,
        _ => false,
    }
}

// Whether word k, after the lengths, breaks the rule of its kind.
#[tactic(auto, using(std::proofs::lemmas::Bool::Decides::nat_tests, crate::proofs::Codes::code_rule))]
fn code_breaks(item: &[u32; STYLE_WORDS], k: usize) -> bool
    requires { (after_lengths ≤ k) × (k < style_words) }
    ensures { result ≡ breaks_rule (slice_index item.now) k }
{
    last_code(k) < item[k] && !is_ignored(item, k)
}

// The whole table, items that no candidate refers to included, up to the first word that breaks a rule; a trailing part of a record is
// not looked at. An item's tags are walked as document 01 has them: insets and margins, padding and borders, then the sizes, of which min
// and max take what the size does. The labelled break out of both walks is document 01's form, so an item's words are no function of their own. Three loops over tags:
// one over the fields takes three times as long (bench/README.md).
pub fn check_styles(styles: &Table) -> Result<(), BadWord>
    ensures { result ≡ checked styles.now }
{
    let mut found = Ok(());
    'items: for item in 0..styles.items() {
        let record = styles.record(item);
        for word in (words::INSET..words::PADDING).step_by(words::LENGTH_WORDS) {
            if !Field::InsetOrMargin.takes(record[word]) {
                found = Err(BadWord { item, word });
                break 'items;
            }
        }
        for word in (words::PADDING..words::SIZE).step_by(words::LENGTH_WORDS) {
            if !Field::PaddingOrBorder.takes(record[word]) {
                found = Err(BadWord { item, word });
                break 'items;
            }
        }
        for word in (words::SIZE..words::RATIO_PRESENT).step_by(words::LENGTH_WORDS) {
            if !Field::Size.takes(record[word]) {
                found = Err(BadWord { item, word });
                break 'items;
            }
        }
        for word in words::RATIO_PRESENT..STYLE_WORDS {
            if code_breaks(record, word) {
                found = Err(BadWord { item, word });
                break 'items;
            }
        }
    }
    found
}
