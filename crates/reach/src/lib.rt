// Whether scrolling brings a box up: seen, with the least offsets at which it is, or unseen.
#![tactic(auto)]

ghost use Rattle.std.specs.Prelude.{◌≡◌, ◌≤◌, ◌-ℤ◌, nat_abs};
ghost use Rattle.pixels.specs.Accepted.{in_eighths};
ghost use Rattle.pixels.specs.Pixels.{all_accepted};
ghost use Rattle.reach.specs.Reach.{axis_of, least, pair_of, numbers_of, box_reached, reached};

use geometry::Rect;
use oof_resolve::ContainingBlock;
use pixels::{are_accepted, in_eighths};
use refusal::Refusal;
use run::{Slices, State};
use style::{Direction, Overflow};
use tree::layout::{Layout, OofPositioningArea};

pub mod lent;

// Offsets across and down, in eighths of a pixel away from the area's start edges.
#[derive(Clone, Copy)]
pub struct Offsets {
    pub across: u32,
    pub down: u32,
}

// One axis: direction and overflow; the area's size and offset; where the box begins, the area's offset included, as a run writes it, and its
// size; the far edge of the overflow rectangle.
#[derive(Clone, Copy)]
struct Along {
    direction: Direction,
    overflow: Overflow,
    area: f32,
    offset: f32,
    at: f32,
    size: f32,
    far: f32,
}

impl Along {
    // Where the box begins from the area's left or top edge, in eighths.
    fn left(self) -> i64
        ensures value { result ≡ in_eighths self.at -ℤ in_eighths self.offset }
        ensures small { nat_abs result ≤ 19999998 }
    {
        in_eighths(self.at) - in_eighths(self.offset)
    }

    // Where it starts from the area's start edge.
    #[tactic(auto, unfolding(crate::specs::Reach::axis_of))]
    fn start(self) -> i64
        ensures value { result ≡ (axis_of self).start }
        ensures small { nat_abs result ≤ 39999996 }
    {
        match self.direction {
            Direction::Ltr => self.left(),
            Direction::Rtl => in_eighths(self.area) - self.left() - in_eighths(self.size),
        }
    }

    // The last offset: on a scroll axis the far edge less the area's size, or 0 if that is negative.
    #[tactic(auto, unfolding(crate::specs::Reach::axis_of, crate::specs::Reach::last_offset))]
    fn last(self) -> u32
        ensures { result ≡ (axis_of self).last }
    {
        if self.overflow.is_scroll_container() {
            u32::try_from(in_eighths(self.far) - in_eighths(self.area)).unwrap_or(0)
        } else {
            0
        }
    }

    // The least offset, of 0 to the last one, at which the box and the area share a stretch. The area's far end has to come past the box's start:
    // that is the first offset that can do. None does where a size isn't positive, or the box ends at or before the start edge.
    // Inlined for both axes, so that none of them goes over the stack.
    #[inline(always)]
    fn least(self) -> Option<u32>
        ensures { result ≡ least (axis_of self) }
    {
        let area = in_eighths(self.area);
        let start = self.start();
        let size = in_eighths(self.size);
        if size <= 0 || area <= 0 || start + size <= 0 {
            return None;
        }
        let first = u32::try_from(start - area + 1).unwrap_or(0);
        (first <= self.last()).then_some(first)
    }
}

// Both offsets, or none.
fn pair(across: Option<u32>, down: Option<u32>) -> Option<Offsets>
    ensures { result ≡ pair_of across down }
{
    Some(Offsets {
        across: across?,
        down: down?,
    })
}

// Whether the numbers of the area, the box and the overflow rectangle are accepted.
fn are_numbers_accepted(area: OofPositioningArea, overflow: Rect<f32>, layout: Layout) -> bool
    ensures { result ≡ all_accepted (numbers_of area overflow layout) }
{
    are_accepted(&[
        layout.location.x,
        layout.location.y,
        layout.size.width,
        layout.size.height,
        area.offset.x,
        area.offset.y,
        area.size.width,
        area.size.height,
        overflow.left,
        overflow.right,
        overflow.top,
        overflow.bottom,
    ])
}

// Of a layout, in an area with its direction and overflow, and the overflow rectangle of its run: the least offsets across and down at
// which box and area share a patch, or that there are none.
#[tactic(auto, unfolding(crate::specs::Reach::box_reached))]
pub fn reach_box(
    c: ContainingBlock,
    overflow: Rect<f32>,
    layout: Layout,
) -> Result<Option<Offsets>, Refusal>
    ensures { result ≡ box_reached c overflow layout }
{
    let area = c.area;
    if !are_numbers_accepted(area, overflow, layout) {
        return Err(Refusal::NotInEighths);
    }
    // field by field for each axis: a point, a size, a rectangle and the codes have theirs by other names
    let across = Along {
        direction: c.direction,
        overflow: c.overflow.x,
        area: area.size.width,
        offset: area.offset.x,
        at: layout.location.x,
        size: layout.size.width,
        far: overflow.right,
    };
    let down = Along {
        direction: Direction::Ltr,
        overflow: c.overflow.y,
        area: area.size.height,
        offset: area.offset.y,
        at: layout.location.y,
        size: layout.size.height,
        far: overflow.bottom,
    };
    Ok(pair(across.least(), down.least()))
}

// Of the box at a place of a finished run's hoisted order, from 0.
pub fn reach(place: usize, s: State, lent: &Slices) -> Result<Option<Offsets>, Refusal>
    ensures { result ≡ reached place s lent.now }
{
    let is_none = s.counts.filled.working <= place;
    finished::check_finished(&s, is_none, lent)?;
    let layout = finished::layout_at(place, lent.layouts, lent.working);
    reach_box(s.opened.container, s.overflow, layout)
}
