// Widths of the style record, and where its words stand.

// A length: tag, value and second value.
pub const LENGTH_WORDS: usize = 3;

// Inset, margin, padding, border: left, right, top, bottom each. Then size, min, max: width, height each.
pub const LENGTHS: usize = 22;

pub const INSET: usize = 0;

pub const MARGIN: usize = 4 * LENGTH_WORDS;

pub const PADDING: usize = 8 * LENGTH_WORDS;

pub const BORDER: usize = 12 * LENGTH_WORDS;

pub const SIZE: usize = 16 * LENGTH_WORDS;

pub const MIN: usize = 18 * LENGTH_WORDS;

pub const MAX: usize = 20 * LENGTH_WORDS;

// The words after the lengths.
pub const CODE_WORDS: usize = 13;

pub const RATIO_PRESENT: usize = LENGTHS * LENGTH_WORDS;

pub const RATIO: usize = RATIO_PRESENT + 1;

pub const BOX_SIZING: usize = RATIO_PRESENT + 2;

pub const FLAGS: usize = RATIO_PRESENT + 3;

pub const DIRECTION: usize = RATIO_PRESENT + 4;

pub const JUSTIFY: usize = RATIO_PRESENT + 5;

pub const JUSTIFY_SAFETY: usize = RATIO_PRESENT + 6;

pub const ALIGN: usize = RATIO_PRESENT + 7;

pub const ALIGN_SAFETY: usize = RATIO_PRESENT + 8;

pub const OVERFLOW_X: usize = RATIO_PRESENT + 9;

pub const OVERFLOW_Y: usize = RATIO_PRESENT + 10;

pub const SCROLLBAR_WIDTH: usize = RATIO_PRESENT + 11;

pub const CONTAIN: usize = RATIO_PRESENT + 12;

// An item's words.
pub const STYLE_WORDS: usize = RATIO_PRESENT + CODE_WORDS;
