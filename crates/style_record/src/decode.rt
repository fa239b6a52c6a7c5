// The words of one item as a style by value.
ghost use Rattle.std.specs.Prelude.{◌≡◌, ◌+◌, ◌*◌, ◌≤◌, length, slice_index};
ghost use Rattle.style_record.specs.Record.{length_words, style_words};
ghost use Rattle.style_record.specs.Decode.{length_at, rect_at, size_at, ratio_at, style_of, style_at};

use crate::table::Table;
use crate::words;
use crate::words::STYLE_WORDS;
use geometry::{Point, Rect, Size};
use style::alignment::AlignItems;
use style::compact_length::CompactLength;
use style::{BoxSizing, Contain, Direction, Overflow, Style, bits};
use util::bits as floats;

// Each of these reads an item's words, from word k on where a k is given: a length cut out of them as an array would cost an `unwrap` each. A
// rectangle and a size have their fields by name, so that one function for both would read more than it says.

#[tactic(auto, unfolding(crate::specs::Decode::length_at))]
#[inline(always)]
fn length_at(item: &[u32; STYLE_WORDS], k: usize) -> CompactLength
    requires { k + length_words ≤ style_words }
    ensures { result ≡ length_at (slice_index item.now) k }
{
    CompactLength {
        tag: item[k],
        value: floats::from_word(item[k + 1]),
        second: floats::from_word(item[k + 2]),
    }
}

#[tactic(auto, unfolding(crate::specs::Decode::rect_at))]
#[inline(always)]
fn rect_at(item: &[u32; STYLE_WORDS], k: usize) -> Rect<CompactLength>
    requires { k + 4 * length_words ≤ style_words }
    ensures { result ≡ rect_at (slice_index item.now) k }
{
    Rect {
        left: length_at(item, k),
        right: length_at(item, k + words::LENGTH_WORDS),
        top: length_at(item, k + 2 * words::LENGTH_WORDS),
        bottom: length_at(item, k + 3 * words::LENGTH_WORDS),
    }
}

#[tactic(auto, unfolding(crate::specs::Decode::size_at))]
#[inline(always)]
fn size_at(item: &[u32; STYLE_WORDS], k: usize) -> Size<CompactLength>
    requires { k + 2 * length_words ≤ style_words }
    ensures { result ≡ size_at (slice_index item.now) k }
{
    Size {
        width: length_at(item, k),
        height: length_at(item, k + words::LENGTH_WORDS),
    }
}

// Document 01's record: a word says whether there is a ratio, and the next one is it.
#[tactic(auto, unfolding(crate::specs::Decode::ratio_at))]
#[inline(always)]
fn ratio_at(item: &[u32; STYLE_WORDS]) -> Option<f32>
    ensures { result ≡ ratio_at (slice_index item.now) }
{
    (item[words::RATIO_PRESENT] != 0).then(|| floats::from_word(item[words::RATIO]))
}

// No `From`: neither type is this crate's.
#[tactic(auto, unfolding(crate::specs::Decode::style_of, crate::specs::Decode::align_at, crate::specs::Decode::overflow_at))]
#[inline(always)]
fn style_of(item: &[u32; STYLE_WORDS]) -> Style
    ensures { result ≡ style_of (slice_index item.now) }
{
    Style {
        inset: rect_at(item, words::INSET),
        margin: rect_at(item, words::MARGIN),
        padding: rect_at(item, words::PADDING),
        border: rect_at(item, words::BORDER),
        size: size_at(item, words::SIZE),
        min: size_at(item, words::MIN),
        max: size_at(item, words::MAX),
        ratio: ratio_at(item),
        sizing: BoxSizing::from(item[words::BOX_SIZING]),
        replaced: bits::bit0(item[words::FLAGS]),
        table: bits::bit1(item[words::FLAGS]),
        direction: Direction::from(item[words::DIRECTION]),
        justify: AlignItems::from_codes(item[words::JUSTIFY], item[words::JUSTIFY_SAFETY]),
        align: AlignItems::from_codes(item[words::ALIGN], item[words::ALIGN_SAFETY]),
        overflow: Point {
            x: Overflow::from(item[words::OVERFLOW_X]),
            y: Overflow::from(item[words::OVERFLOW_Y]),
        },
        scrollbar: floats::from_word(item[words::SCROLLBAR_WIDTH]),
        contain: Contain::from(item[words::CONTAIN]),
    }
}

// The style of an item.
#[tactic(auto, using(crate::proofs::Same::style_of_item))]
#[inline(always)]
pub fn style_at(styles: &Table, node: usize) -> Style
    requires { style_words * node + style_words ≤ length styles.now }
    ensures { result ≡ style_at styles.now node }
{
    style_of(styles.record(node))
}
