// The lines of the printed list. All bytes but the line feeds go through `put_bytes` and `put`, and none through a `write!`: at `put` stands why.
ghost use Rattle.std.specs.Prelude.{◌≡◌, ◌+◌, ◌*◌, ◌≤◌, length};
ghost use Rattle.std.proofs.lemmas.List.Edits.{sets};
ghost use Rattle.boxlist_lines.specs.Column.{COLUMN};
ghost use Rattle.boxlist_lines.specs.Lines.{ROW, OVERFLOW, REFUSAL, joined, sides, header_text, row_text, overflow_text, refusal_text};

use crate::{COLUMN, put_code, put_eighths};
use geometry::{Point, Rect, Size};

// A box: node, place, size, margins.
#[derive(Clone, Copy)]
pub struct Row {
    pub node: u32,
    pub location: Point<f32>,
    pub size: Size<f32>,
    pub margin: Rect<f32>,
}

// How many bytes the lines have: nine columns, five and two, and a line feed each. Written out, since contracts and array types take the value of a
// constant, which calls no function.
pub const ROW: usize = 9 * COLUMN + 1;

pub const OVERFLOW: usize = 5 * COLUMN + 1;

pub const REFUSAL: usize = 2 * COLUMN + 1;

// Bytes as they are.
// Place and room stand beside the slice, here and below: of a part `&mut out[at..]` each caller would have to prove again what it leaves of the
// rest, and of a struct that holds the slice nothing says what the slice ends as.
// `records::write` does so with words; its promise is by that crate's own `written`, and neither crate cites the other.
#[tactic(auto, using(crate::proofs::Stores::part_sets))]
pub fn put_bytes(out: &mut [u8], at: usize, bytes: &[u8])
    requires { at + length bytes.now ≤ length out.old }
    ensures { out.new ≡ sets out.old at bytes.now }
{
    out[at..at + bytes.len()].copy_from_slice(bytes);
}

// The four sides in four columns.
#[tactic(auto, using(crate::proofs::Lines::then_sides))]
fn put_rect(out: &mut [u8], at: usize, rect: Rect<f32>)
    requires { at + 4 * COLUMN ≤ length out.old }
    ensures { out.new ≡ sets out.old at (joined (sides rect)) }
{
    put_eighths(out, at, rect.left);
    put_eighths(out, at + COLUMN, rect.right);
    put_eighths(out, at + 2 * COLUMN, rect.top);
    put_eighths(out, at + 3 * COLUMN, rect.bottom);
}

// The names of the columns. A function of its own, as each text has: its contract ties the bytes to the definition that has their words.
#[tactic(auto, unfolding(crate::specs::Lines::header_text, crate::specs::Lines::line_text, crate::specs::Lines::joined, crate::specs::Lines::word_text))]
pub fn put_header(out: &mut [u8], at: usize)
    requires { at + ROW ≤ length out.old }
    ensures { out.new ≡ sets out.old at header_text }
{
    put_bytes(
        out,
        at,
        b"    node       x       y   width  height    left   right     top  bottom\n",
    );
}

// A box.
#[tactic(auto, using(crate::proofs::Lines::row_stores))]
pub fn put_row(out: &mut [u8], at: usize, row: Row)
    requires { at + ROW ≤ length out.old }
    ensures { out.new ≡ sets out.old at (row_text row) }
{
    put_code(out, at, row.node);
    put_eighths(out, at + COLUMN, row.location.x);
    put_eighths(out, at + 2 * COLUMN, row.location.y);
    put_eighths(out, at + 3 * COLUMN, row.size.width);
    put_eighths(out, at + 4 * COLUMN, row.size.height);
    put_rect(out, at + 5 * COLUMN, row.margin);
    out[at + 9 * COLUMN] = b'\n';
}

// The overflow rectangle of the run.
// A refusal's line has another word and other columns: one function of both would be given all of that.
#[tactic(auto, using(crate::proofs::Lines::overflow_stores))]
pub fn put_overflow(out: &mut [u8], at: usize, overflow: Rect<f32>)
    requires { at + OVERFLOW ≤ length out.old }
    ensures { out.new ≡ sets out.old at (overflow_text overflow) }
{
    put_bytes(out, at, b"overflow");
    put_rect(out, at + COLUMN, overflow);
    out[at + 5 * COLUMN] = b'\n';
}

// A refusal, by its number. Any number, as it always took: a `Refusal` would ask more of callers, which no public function may come to do.
#[tactic(auto, using(crate::proofs::Lines::refusal_stores))]
pub fn put_refusal(out: &mut [u8], at: usize, number: u32)
    requires { at + REFUSAL ≤ length out.old }
    ensures { out.new ≡ sets out.old at (refusal_text number) }
{
    put_bytes(out, at, b" refused");
    put_code(out, at + COLUMN, number);
    out[at + 2 * COLUMN] = b'\n';
}
