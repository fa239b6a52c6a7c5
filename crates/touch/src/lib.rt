// What the touch driver reads of a finished run: five words a box, its node and its pixel edges.
#![tactic(auto)]

ghost use Rattle.std.specs.Prelude.{◌≡◌, ◌*◌, length, eqb, get_or, All, IsOk, Ok};
ghost use Rattle.touch.specs.Touch.{touch_width, box_words, touch_words, touched};
ghost use Rattle.touch.specs.Passes.{nodes_by_word, HasLayout, verdict_of};

use geometry::Point;
use records::{whole_records, write_record};
use refusal::Refusal;
use run::{Slices, State};
use tree_record::candidate::CANDIDATE_WORDS;
use tree_record::layout::layout_at;

pub const TOUCH_WORDS: usize = 5;

// A box's words, by its record: its node, and the pixel edges of its layout, negative ones in two's complement.
fn box_words(
    candidate: &[u32; CANDIDATE_WORDS],
    layouts: &[u32],
    offset: Point<f32>,
) -> Result<[u32; TOUCH_WORDS], Refusal>
    requires { HasLayout layouts.now (get_or candidate.now 0 0) }
    ensures { result ≡ box_words layouts.now offset (get_or candidate.now 0 0) }
{
    let node = candidate[0];
    let layout = layout_at(layouts, node as usize);
    let edges = pixels::pixel_edges(layout, offset)?;
    Ok([
        node,
        edges.left.cast_unsigned(),
        edges.right.cast_unsigned(),
        edges.top.cast_unsigned(),
        edges.bottom.cast_unsigned(),
    ])
}

// Whether each box has pixel edges: one that has none refuses the call, before a word is written.
fn check_boxes(
    boxes: &[[u32; CANDIDATE_WORDS]],
    layouts: &[u32],
    offset: Point<f32>,
) -> Result<(), Refusal>
    requires { All (HasLayout layouts.now) (nodes_by_word boxes.now) }
    ensures { result ≡ verdict_of (touch_words layouts.now offset (nodes_by_word boxes.now)) }
{
    for candidate in boxes {
        box_words(candidate, layouts, offset)?;
    }
    Ok(())
}

// Writes the words of boxes that were checked. Each box's are worked out once more: to keep them would take room for them all.
fn write_boxes(
    boxes: &[[u32; CANDIDATE_WORDS]],
    layouts: &[u32],
    offset: Point<f32>,
    words: &mut [u32],
)
    requires has_layouts { All (HasLayout layouts.now) (nodes_by_word boxes.now) }
    requires checked { IsOk (touch_words layouts.now offset (nodes_by_word boxes.now)) }
    requires fits { length words.old ≡ touch_width * length boxes.now }
    ensures { touch_words layouts.now offset (nodes_by_word boxes.now) ≡ Ok words.new }
{
    for (place, candidate) in boxes.iter().enumerate() {
        let five = box_words(candidate, layouts, offset).unwrap();
        write_record(words, place, &five);
    }
}

// Whether a slice is as long as the boxes need it, without a product, which might not fit.
fn is_five_a_box(len: usize, boxes: usize) -> bool
    ensures { result ≡ eqb len (touch_width * boxes) }
{
    len % TOUCH_WORDS == 0 && len / TOUCH_WORDS == boxes
}

// The words of all boxes of a finished run, in hoisted order. Refused, no word is written.
pub fn touch(s: State, lent: &Slices, words: &mut [u32]) -> Result<(), Refusal>
    ensures { record { verdict = result; words = words.new } ≡ touched s lent.now words.old }
{
    let boxes = s.counts.filled.working;
    finished::check_finished(&s, !is_five_a_box(words.len(), boxes), lent)?;
    let offset = s.opened.container.area.offset;
    let boxes = &whole_records(lent.working)[..boxes];
    check_boxes(boxes, lent.layouts, offset)?;
    write_boxes(boxes, lent.layouts, offset, words);
    Ok(())
}
