// A layout's record: order, width, height, overflow left right top bottom, scrollbar width and height, x, y, then padding,
// border and margin, each left, right, top, bottom.
ghost use Rattle.std.specs.Prelude.{◌≡◌, ◌+◌, ◌*◌, ◌≤◌, length};
ghost use Rattle.records.specs.Records.{record_at, written};
ghost use Rattle.tree_record.specs.Layout.{layout_width, rect_of, layout_of, layout_words};

use geometry::{Point, Rect, Size};
use records::{record_at, write_record};
use tree::layout::Layout;
use util::bits;

// Where the words stand after the order. A rectangle begins at its left.
pub const WIDTH: usize = 1;

pub const HEIGHT: usize = 2;

const OVERFLOW: usize = 3;

const SCROLLBAR_WIDTH: usize = 7;

const SCROLLBAR_HEIGHT: usize = 8;

pub const X: usize = 9;

pub const Y: usize = 10;

const PADDING: usize = 11;

const BORDER: usize = 15;

pub const MARGIN_LEFT: usize = 19;

pub const MARGIN_RIGHT: usize = 20;

pub const MARGIN_TOP: usize = 21;

pub const MARGIN_BOTTOM: usize = 22;

pub const LAYOUT_WORDS: usize = 23;

// Left, right, top, bottom, from the four words at a place on.
// A place in the record, here and in its readers: four words cut out of it as an array would cost an `unwrap` each.
#[tactic(auto, unfolding(crate::specs::Layout::rect_of))]
pub fn rect_at(words: &[u32], at: usize) -> Rect<f32>
    requires { at + 4 ≤ length words.now }
    ensures { result ≡ rect_of words.now at }
{
    Rect {
        left: bits::from_word(words[at]),
        right: bits::from_word(words[at + 1]),
        top: bits::from_word(words[at + 2]),
        bottom: bits::from_word(words[at + 3]),
    }
}

// The layout at a node's place.
#[tactic(auto, unfolding(crate::specs::Layout::layout_of))]
pub fn layout_at(layouts: &[u32], node: usize) -> Layout
    requires { layout_width * node + layout_width ≤ length layouts.now }
    ensures { result ≡ layout_of (record_at layout_width layouts.now node) }
{
    let record = record_at::<LAYOUT_WORDS>(layouts, node);
    Layout {
        order: record[0],
        size: Size {
            width: bits::from_word(record[WIDTH]),
            height: bits::from_word(record[HEIGHT]),
        },
        overflow: rect_at(record, OVERFLOW),
        scrollbar: Size {
            width: bits::from_word(record[SCROLLBAR_WIDTH]),
            height: bits::from_word(record[SCROLLBAR_HEIGHT]),
        },
        location: Point {
            x: bits::from_word(record[X]),
            y: bits::from_word(record[Y]),
        },
        padding: rect_at(record, PADDING),
        border: rect_at(record, BORDER),
        margin: rect_at(record, MARGIN_LEFT),
    }
}

// A layout's words: document 01's record, word by word, and no `From`, since neither type is this crate's.
#[tactic(auto, unfolding(crate::specs::Layout::layout_words))]
pub fn layout_words(l: Layout) -> [u32; LAYOUT_WORDS]
    ensures { result ≡ layout_words l }
{
    [
        l.order,
        bits::to_word(l.size.width),
        bits::to_word(l.size.height),
        bits::to_word(l.overflow.left),
        bits::to_word(l.overflow.right),
        bits::to_word(l.overflow.top),
        bits::to_word(l.overflow.bottom),
        bits::to_word(l.scrollbar.width),
        bits::to_word(l.scrollbar.height),
        bits::to_word(l.location.x),
        bits::to_word(l.location.y),
        bits::to_word(l.padding.left),
        bits::to_word(l.padding.right),
        bits::to_word(l.padding.top),
        bits::to_word(l.padding.bottom),
        bits::to_word(l.border.left),
        bits::to_word(l.border.right),
        bits::to_word(l.border.top),
        bits::to_word(l.border.bottom),
        bits::to_word(l.margin.left),
        bits::to_word(l.margin.right),
        bits::to_word(l.margin.top),
        bits::to_word(l.margin.bottom),
    ]
}

// Writes a layout at a node's place.
pub fn write_layout(layouts: &mut [u32], node: usize, l: Layout)
    requires { layout_width * node + layout_width ≤ length layouts.old }
    ensures { layouts.new ≡ written layouts.old (layout_width * node) (layout_words l) }
{
    write_record(layouts, node, &layout_words(l));
}
