// style/mod.rs: the style of an out-of-flow box, as far as its placement reads it.
#![tactic(auto, unfolding(crate::specs::Codes::position_of, crate::specs::Codes::position_code, crate::specs::Codes::safety_code, crate::specs::Codes::overflow_code, crate::specs::Codes::direction_code, crate::specs::Codes::sizing_of, crate::specs::Codes::overflow_of, crate::specs::Codes::direction_of, crate::specs::Codes::safety_of, crate::specs::Codes::keyword_of, crate::specs::Codes::alignment_of, crate::specs::Codes::contain_of, crate::specs::Values::self_relative, crate::specs::Values::clamped_space, crate::specs::Values::definite_spaces, crate::specs::Resolve::by_tag, crate::specs::Resolve::resolved, crate::specs::Resolve::takes, crate::specs::Resolve::maybe_resolved, crate::specs::Resolve::resolved_rect, crate::specs::Resolve::resolved_size))]

ghost use Rattle.std.specs.Prelude.{◌≡◌};
ghost use Rattle.style.specs.Codes.{position_of, position_code, sizing_of, overflow_of, overflow_code, direction_of, direction_code, claims_in, contain_of};
ghost use Rattle.style.specs.Values.{claims, is_scroll_container, any_scroll_container, contains_overflow, is_rtl};

use crate::alignment::AlignItems;
use crate::compact_length::CompactLength;
use geometry::{Point, Rect, Size};

pub mod alignment;
pub mod available_space;
pub mod bits;
pub mod compact_length;
pub mod resolve;

#[derive(Clone, Copy, PartialEq, Eq)]
pub enum Position {
    Static,
    Relative,
    Absolute,
    Fixed,
    Sticky,
}

// The code of a record: 0 to 4 in the order above.
impl From<u32> for Position {
    ghost from_gives = { λ code r. r ≡ position_of code };

    fn from(code: u32) -> Position {
        match code {
            0 => Position::Static,
            1 => Position::Relative,
            2 => Position::Absolute,
            3 => Position::Fixed,
            _ => Position::Sticky,
        }
    }
}

// Its code.
impl From<Position> for u32 {
    ghost from_gives = { λ position code. code ≡ position_code position };

    fn from(position: Position) -> u32 {
        position as u32
    }
}

// Which out-of-flow positions a box is the containing block of.
#[derive(Clone, Copy, Default)]
pub struct ContainingBlockClaims {
    pub absolute: bool,
    pub fixed: bool,
}

// The word of an opening: bit 0 absolute, bit 1 fixed.
impl From<u32> for ContainingBlockClaims {
    ghost from_gives = { λ code r. r ≡ claims_in code };

    fn from(code: u32) -> ContainingBlockClaims {
        ContainingBlockClaims {
            absolute: bits::bit0(code),
            fixed: bits::bit1(code),
        }
    }
}

impl ContainingBlockClaims {
    // Whether a box of a position is claimed.
    pub fn for_position(self, position: Position) -> bool
        ensures { result ≡ claims self position }
    {
        match position {
            Position::Absolute => self.absolute,
            Position::Fixed => self.fixed,
            Position::Static | Position::Relative | Position::Sticky => false,
        }
    }
}

#[derive(Clone, Copy, PartialEq, Eq)]
pub enum BoxSizing {
    BorderBox,
    ContentBox,
}

// The code of a record: 0 border, 1 content.
impl From<u32> for BoxSizing {
    ghost from_gives = { λ code r. r ≡ sizing_of code };

    fn from(code: u32) -> BoxSizing {
        match code {
            0 => BoxSizing::BorderBox,
            _ => BoxSizing::ContentBox,
        }
    }
}

#[derive(Clone, Copy, PartialEq, Eq, Default)]
pub enum Overflow {
    #[default]
    Visible,
    Clip,
    Hidden,
    Scroll,
}

// The code of a record: 0 visible, 1 clip, 2 hidden, 3 scroll.
impl From<u32> for Overflow {
    ghost from_gives = { λ code r. r ≡ overflow_of code };

    fn from(code: u32) -> Overflow {
        match code {
            0 => Overflow::Visible,
            1 => Overflow::Clip,
            2 => Overflow::Hidden,
            _ => Overflow::Scroll,
        }
    }
}

// Its code.
impl From<Overflow> for u32 {
    ghost from_gives = { λ overflow code. code ≡ overflow_code overflow };

    fn from(overflow: Overflow) -> u32 {
        overflow as u32
    }
}

impl Overflow {
    pub fn is_scroll_container(self) -> bool
        ensures { result ≡ is_scroll_container self }
    {
        matches!(self, Overflow::Hidden | Overflow::Scroll)
    }
}

// Whether either axis makes a scroll container. Two make one bool, which no map does.
pub fn any_scroll_container(overflow: Point<Overflow>) -> bool
    ensures { result ≡ any_scroll_container overflow }
{
    overflow.x.is_scroll_container() || overflow.y.is_scroll_container()
}

// Layout and paint containment; the other bits of the record's word are not read.
#[derive(Clone, Copy, Default)]
pub struct Contain {
    pub layout: bool,
    pub paint: bool,
}

// The word of a record: bit 0 layout, bit 1 paint.
impl From<u32> for Contain {
    ghost from_gives = { λ code r. r ≡ contain_of code };

    fn from(code: u32) -> Contain {
        Contain {
            layout: bits::bit0(code),
            paint: bits::bit1(code),
        }
    }
}

impl Contain {
    pub fn contains_scrollable_overflow(self) -> bool
        ensures { result ≡ contains_overflow self }
    {
        self.layout || self.paint
    }
}

#[derive(Clone, Copy, PartialEq, Eq, Default)]
pub enum Direction {
    #[default]
    Ltr,
    Rtl,
}

// The code of a record: 0 left-to-right, 1 right-to-left.
impl From<u32> for Direction {
    ghost from_gives = { λ code r. r ≡ direction_of code };

    fn from(code: u32) -> Direction {
        match code {
            0 => Direction::Ltr,
            _ => Direction::Rtl,
        }
    }
}

// Its code.
impl From<Direction> for u32 {
    ghost from_gives = { λ direction code. code ≡ direction_code direction };

    fn from(direction: Direction) -> u32 {
        direction as u32
    }
}

impl Direction {
    pub fn is_rtl(self) -> bool
        ensures { result ≡ is_rtl self }
    {
        matches!(self, Direction::Rtl)
    }
}

// A decoded style. `min`, `max`, `ratio`, `sizing`, `scrollbar` are the Rust's min_size, max_size, aspect_ratio,
// box_sizing and scrollbar_width; `justify` and `align` its justify_self and align_self, absent ones as normal.
#[derive(Clone, Copy)]
pub struct Style {
    pub inset: Rect<CompactLength>,
    pub margin: Rect<CompactLength>,
    pub padding: Rect<CompactLength>,
    pub border: Rect<CompactLength>,
    pub size: Size<CompactLength>,
    pub min: Size<CompactLength>,
    pub max: Size<CompactLength>,
    pub ratio: Option<f32>,
    pub sizing: BoxSizing,
    pub replaced: bool,
    pub table: bool,
    pub direction: Direction,
    pub justify: AlignItems,
    pub align: AlignItems,
    pub overflow: Point<Overflow>,
    pub scrollbar: f32,
    pub contain: Contain,
}
