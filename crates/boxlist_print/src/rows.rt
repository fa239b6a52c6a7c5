// The rows of a finished run, and the whole list. They go through `put_row` and its like of `boxlist_lines`, where it stands why not through a
// `write!`, and why the place and the room stand beside the slice.
ghost use Rattle.std.specs.Prelude.{◌≡◌, ◌+◌, ◌*◌, ◌≤◌, length, get_or};
ghost use Rattle.std.proofs.lemmas.List.Edits.{sets};
ghost use Rattle.std.specs.Float.Ieee.{of_bits};
ghost use Rattle.std.specs.Float.{binary32};
ghost use Rattle.refusal.specs.Refusal.{number_of};
ghost use Rattle.boxlist_lines.specs.Lines.{ROW, OVERFLOW, REFUSAL, row_text, rows_text, list_text, refusal_text};
ghost use Rattle.boxlist_print.specs.Rows.{row_of, rows_at, Prints};

use boxlist_lines::list;
use boxlist_lines::list::{OVERFLOW, REFUSAL, ROW, Row};
use geometry::{Point, Rect, Size};
use refusal::Refusal;
use tree_record::candidate::CANDIDATE_WORDS;
use tree_record::layout;
use util::bits;

// A word; 0 beyond the end, as the definitions read a list that is too short. `script` reads its replies so in one line of its own; it prints
// nothing, and would export this for printing alone.
pub(crate) fn word_at(words: &[u32], k: usize) -> u32
    ensures { result ≡ get_or words.now k 0 }
{
    words.get(k).copied().unwrap_or(0)
}

// The float of a word.
fn float_at(words: &[u32], k: usize) -> f32
    ensures { result ≡ of_bits binary32 (get_or words.now k 0) }
{
    bits::from_word(word_at(words, k))
}

// The row of a node: place, size and margins of the layout that stands at its place.
// Word by word, since `layout_at` asks that the layout is there: each contract up to `list_run` would have to say so of every node in the list.
#[tactic(auto, using(crate::proofs::Boxes::row_words))]
fn row_of(layouts: &[u32], node: u32) -> Row
    ensures { result ≡ row_of layouts.now node }
{
    let at = layout::LAYOUT_WORDS * node as usize;
    Row {
        node,
        location: Point {
            x: float_at(layouts, at + layout::X),
            y: float_at(layouts, at + layout::Y),
        },
        size: Size {
            width: float_at(layouts, at + layout::WIDTH),
            height: float_at(layouts, at + layout::HEIGHT),
        },
        margin: Rect {
            left: float_at(layouts, at + layout::MARGIN_LEFT),
            right: float_at(layouts, at + layout::MARGIN_RIGHT),
            top: float_at(layouts, at + layout::MARGIN_TOP),
            bottom: float_at(layouts, at + layout::MARGIN_BOTTOM),
        },
    }
}

// The rows of the first n records of the working list, whether or not it holds so many: hence by their places, and by no chunks of the list.
// `put_each` and `put_verdicts` are other functions than this and `put_list`: a closure that puts either's row would have to promise what every
// place of `out` ends as.
#[tactic(auto, using(crate::proofs::Boxes::rows_none, crate::proofs::Boxes::rows_stored))]
fn put_rows(out: &mut [u8], at: usize, working: &[u32], n: usize, layouts: &[u32])
    requires { at + n * ROW ≤ length out.old }
    ensures { out.new ≡ sets out.old at (rows_text (rows_at working.now n layouts.now)) }
{
    for i in 0..n {
        let node = word_at(working, CANDIDATE_WORDS * i);
        list::put_row(out, at + i * ROW, row_of(layouts, node));
    }
}

// The list of a finished run: the names, its rows, its overflow rectangle. Answers how many bytes it has, as the others do, and hands back no
// part of `out`: the contracts say of the whole buffer what it ends as, and a part that is lent leaves the rest untold.
#[tactic(auto, using(crate::proofs::Boxes::list_size, crate::proofs::Boxes::list_stored))]
pub(crate) fn put_list(
    out: &mut [u8],
    working: &[u32],
    n: usize,
    layouts: &[u32],
    overflow: Rect<f32>,
) -> usize
    requires { (1 + n) * ROW + OVERFLOW ≤ length out.old }
    ensures { Prints result out.old out.new (list_text (rows_at working.now n layouts.now) overflow) }
{
    list::put_header(out, 0);
    put_rows(out, ROW, working, n, layouts);
    let end = ROW + n * ROW;
    list::put_overflow(out, end, overflow);
    end + OVERFLOW
}

// A refusal's line. Answers how many bytes it has.
#[tactic(auto, using(boxlist_lines::proofs::Laws::refusal_bytes))]
pub(crate) fn put_refused(out: &mut [u8], refusal: Refusal) -> usize
    requires { REFUSAL ≤ length out.old }
    ensures { Prints result out.old out.new (refusal_text (number_of refusal)) }
{
    list::put_refusal(out, 0, u32::from(refusal));
    REFUSAL
}
