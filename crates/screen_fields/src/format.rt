// The screen file's format: the fields of its lines, and their sizes.
ghost use Rattle.std.specs.Prelude.{◌≡◌, ◌<◌, length, get_or};
ghost use Rattle.screen_fields.specs.declared.format.Kind.TheVariants.{Code};
ghost use Rattle.screen_fields.specs.Format.{is_float, fields_of, bytes_of};

use style_record::words;
use style_record::words::STYLE_WORDS;
use tree_record::candidate::{CANDIDATE_WORDS, LAYER};

// A field's content: a code, or a float in eighths.
#[derive(Clone, Copy)]
pub enum Kind {
    Code,
    Eighths,
}

// The three kinds of line.
#[derive(Clone, Copy)]
pub enum Line {
    First,
    Item,
    Candidate,
}

// The columns of a field.
pub const COLUMNS: usize = 11;

// How many words the first line and an item's replies have. Those of a style and of a candidate are their records'.
pub const HEADER_WORDS: usize = 10;

pub const REPLY_WORDS: usize = 6;

// The places of the counts in the first line.
pub const ITEM_COUNT: usize = 8;

pub const CANDIDATE_COUNT: usize = 9;

// The most items and candidates.
pub const MAX_ITEMS: usize = 128;

pub const MAX_CANDIDATES: usize = 256;

// The bytes of a line: its fields and the line feed. Written out, as the lines of the printed list (boxlist_lines).
pub const FIRST_BYTES: usize = COLUMNS * HEADER_WORDS + 1;

pub const ITEM_BYTES: usize = COLUMNS * (STYLE_WORDS + REPLY_WORDS) + 1;

pub const CANDIDATE_BYTES: usize = COLUMNS * CANDIDATE_WORDS + 1;

// The bytes of the longest screen.
pub const MAX_BYTES: usize = FIRST_BYTES
    + MAX_ITEMS * ITEM_BYTES
    + MAX_CANDIDATES * CANDIDATE_BYTES;

// How many fields a line has. A table by the line, here and below: a trait with a type for each line would have every reader three times.
#[tactic(auto, using(crate::proofs::Table::line_widths))]
pub fn width_of(line: Line) -> usize
    ensures { result ≡ length (fields_of line) }
{
    match line {
        Line::First => HEADER_WORDS,
        Line::Item => STYLE_WORDS + REPLY_WORDS,
        Line::Candidate => CANDIDATE_WORDS,
    }
}

// How many bytes a line has: its fields and the line feed.
#[tactic(auto, using(crate::proofs::Table::width_small), unfolding(crate::specs::Format::bytes_of))]
pub fn bytes_of(line: Line) -> usize
    ensures { result ≡ bytes_of line }
{
    COLUMNS * width_of(line) + 1
}

// Whether a field holds a float, and not a code.
// That j is below the line's width is a clause, here and in what reads fields: the width goes by the line, which no type has.
#[tactic(auto, using(crate::proofs::Table::float_at, std::proofs::lemmas::Bool::Decides::nat_tests), unfolding(crate::proofs::Table::is_float_at))]
fn is_float(line: Line, j: usize) -> bool
    requires { j < length (fields_of line) }
    ensures { result ≡ is_float (get_or (fields_of line) j Code) }
{
    match line {
        Line::First => j < 4,
        // of a length all words but the tag; then the ratio, the scrollbar width and the replies
        Line::Item if j < words::RATIO_PRESENT => j % words::LENGTH_WORDS != 0,
        Line::Item => j == words::RATIO || j == words::SCROLLBAR_WIDTH || STYLE_WORDS <= j,
        // of each axis the area; not the node, the order, the position and the layer
        Line::Candidate => 3 <= j && j != LAYER && (j - 3) % 5 < 2,
    }
}

// What a field holds.
#[tactic(auto, using(crate::proofs::Table::float_is, crate::proofs::Table::code_is))]
pub fn kind_of(line: Line, j: usize) -> Kind
    requires { j < length (fields_of line) }
    ensures { result ≡ get_or (fields_of line) j Code }
{
    if is_float(line, j) {
        Kind::Eighths
    } else {
        Kind::Code
    }
}
