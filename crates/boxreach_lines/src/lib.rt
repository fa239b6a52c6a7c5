// The lines of the printed verdicts: place, node, and whether scrolling brings the box up. But for the line feed they go through `put_bytes` and `put_code` of
// `boxlist_lines`, where it stands why not through a `write!`, and why the place and the room stand beside the slice.
#![tactic(auto)]

ghost use Rattle.std.specs.Prelude.{◌≡◌, ◌+◌, ◌*◌, ◌≤◌, length};
ghost use Rattle.std.proofs.lemmas.List.Edits.{sets};
ghost use Rattle.boxlist_lines.specs.Column.{COLUMN};
ghost use Rattle.boxlist_lines.specs.Lines.{joined};
ghost use Rattle.refusal.specs.Refusal.{number_of};
ghost use Rattle.boxreach_lines.specs.Lines.{VERDICT_ROW, verdict_names, seen_columns, unseen_columns, refused_columns, verdict_columns, verdict_row};

use boxlist_lines::list::put_bytes;
use boxlist_lines::{COLUMN, put_code};
use reach::Offsets;
use refusal::Refusal;

// How many bytes a line has: five columns and a line feed, written out as the other lines' are (boxlist_lines).
pub const VERDICT_ROW: usize = 5 * COLUMN + 1;

// The names of the columns. A function of its own, as `put_unseen` is: its contract ties the bytes to the definition that has their words.
#[tactic(auto, unfolding(crate::specs::Lines::verdict_names, boxlist_lines::specs::Lines::line_text, boxlist_lines::specs::Lines::joined, boxlist_lines::specs::Lines::word_text))]
pub fn put_names(out: &mut [u8], at: usize)
    requires { at + VERDICT_ROW ≤ length out.old }
    ensures { out.new ≡ sets out.old at verdict_names }
{
    put_bytes(out, at, b"   place    node verdict scrollx scrolly\n");
}

// `seen`, and the offsets. A refusal has another word and other columns: one function of both would be given all of that.
#[tactic(auto, using(crate::proofs::Lines::seen_stores))]
fn put_seen(out: &mut [u8], at: usize, offsets: Offsets)
    requires { at + 3 * COLUMN ≤ length out.old }
    ensures { out.new ≡ sets out.old at (joined (seen_columns offsets)) }
{
    put_bytes(out, at, b"    seen");
    put_code(out, at + COLUMN, offsets.across);
    put_code(out, at + 2 * COLUMN, offsets.down);
}

#[tactic(auto, unfolding(boxlist_lines::specs::Lines::joined, boxlist_lines::specs::Lines::word_text))]
fn put_unseen(out: &mut [u8], at: usize)
    requires { at + 3 * COLUMN ≤ length out.old }
    ensures { out.new ≡ sets out.old at (joined unseen_columns) }
{
    put_bytes(out, at, b"  unseen       -       -");
}

// `refused`, and the number.
#[tactic(auto, using(crate::proofs::Lines::refused_stores))]
fn put_refused(out: &mut [u8], at: usize, refusal: Refusal)
    requires { at + 3 * COLUMN ≤ length out.old }
    ensures { out.new ≡ sets out.old at (joined (refused_columns (number_of refusal))) }
{
    put_bytes(out, at, b" refused");
    put_code(out, at + COLUMN, u32::from(refusal));
    put_bytes(out, at + 2 * COLUMN, b"       -");
}

// The three columns of a verdict.
fn put_verdict(out: &mut [u8], at: usize, reached: Result<Option<Offsets>, Refusal>)
    requires { at + 3 * COLUMN ≤ length out.old }
    ensures { out.new ≡ sets out.old at (joined (verdict_columns reached)) }
{
    match reached {
        Ok(Some(offsets)) => put_seen(out, at, offsets),
        Ok(None) => put_unseen(out, at),
        Err(refusal) => put_refused(out, at, refusal),
    }
}

// A box: its place, its node, its verdict.
#[tactic(auto, using(crate::proofs::Lines::row_stores))]
pub fn put_row(
    out: &mut [u8],
    at: usize,
    place: u32,
    node: u32,
    reached: Result<Option<Offsets>, Refusal>,
)
    requires { at + VERDICT_ROW ≤ length out.old }
    ensures { out.new ≡ sets out.old at (verdict_row place node reached) }
{
    put_code(out, at, place);
    put_code(out, at + COLUMN, node);
    put_verdict(out, at + 2 * COLUMN, reached);
    out[at + 5 * COLUMN] = b'\n';
}
